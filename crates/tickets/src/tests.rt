use crate::draft::Draft;
use crate::filing::{Filing, Progress};
use memory::cells::Cells;
use memory::make::Rejected;
use protocol::call::{Answer, Call, Outcome, Refusal};
use protocol::plan::{Home, Plan};
use service::owner::Directory;
use std::alloc::Global;
use std::process::Abort;
use std::test::Fail;

type Small = Directory<Cells, Cells, Cells>;

fn small(heap: Global) -> Result<Small, Fail> {
    let home = Home {
        primary: 0,
        first: 1,
        second: 2,
    };
    let plan = Plan {
        machines: 3,
        coordinators: 2,
        regions: 1,
        capacity: 4,
        start: 7,
        first: 1,
        homes: [home; 8],
    };
    let primaries = Cells::new(heap, 64)?;
    let firsts = Cells::new(heap, 64)?;
    let seconds = Cells::new(heap, 64)?;
    match Directory::new(heap, plan, primaries, firsts, seconds) {
        Ok(directory) => Ok(directory),
        Err(_) => Err(Fail::new("no directory")),
    }
}

// The filing of a call after which the transaction goes on, and what the call answered.
fn going(rt: &impl Abort, called: Result<Progress, Rejected<Refusal, Filing>>) -> (Filing, Answer) {
    match called {
        Ok(Progress::GoesOn(filing, answer)) => (filing, answer),
        Ok(Progress::Ended(_)) => panic!(rt; "ended"),
        Err(_) => panic!(rt; "refused"),
    }
}

// The outcome of a call that ends the transaction.
fn ended(rt: &impl Abort, called: Result<Progress, Rejected<Refusal, Filing>>) -> Outcome {
    match called {
        Ok(Progress::GoesOn(_filing, _)) => panic!(rt; "going on"),
        Ok(Progress::Ended(outcome)) => outcome,
        Err(_) => panic!(rt; "refused"),
    }
}

// Coordinator 0 holds a word that coordinator 1 wrote: its abort is reported by the take, and the ABORT is still due.
#[test]
fn an_abort_is_remembered(rt: HostRuntime) -> Result<(), Fail> {
    let mut directory = small(rt.alloc())?;
    let holds = [
        Call::Open(0),
        Call::Read(0, 5),
        Call::Write(0, 5, 1),
        Call::Commit(0),
        Call::Send(0),
        Call::Poll(0, 0),
    ];
    directory.run(rt.alloc(), &holds)?;
    let Ok(draft) = Draft::open(&mut directory, 1) else {
        return Err(Fail::new("not opened"));
    };
    let read = draft.read(&mut directory, 5);
    let written = draft.write(&mut directory, 5, 2);
    let (filing, _) = match draft.commit(&mut directory) {
        Ok(Progress::GoesOn(filing, answer)) => (filing, answer),
        Ok(Progress::Ended(_)) => panic!(rt; "ended"),
        Err(_) => panic!(rt; "refused"),
    };
    let (filing, _) = going(&rt, filing.send(&mut directory));
    let polled = directory.poll(1, 0);
    let (filing, answer) = going(&rt, filing.take(&mut directory, 0));
    let reported = filing.reported();
    let outcome = ended(&rt, filing.send(&mut directory));
    assert!(rt; read.is_ok() && written.is_ok() && polled.is_ok());
    assert!(rt; answer.outcome == Outcome::Aborted && reported == Outcome::Aborted);
    assert!(rt; outcome == Outcome::Aborted && directory.is_idle(1));
    Ok(())
}

// The log still has the records of an earlier transaction: the commit is refused for want of room, and the draft can be given up.
#[test]
fn a_refused_commit_hands_the_draft_back(rt: HostRuntime) -> Result<(), Fail> {
    let mut directory = small(rt.alloc())?;
    let earlier = [
        Call::Open(0),
        Call::Read(0, 5),
        Call::Write(0, 5, 1),
        Call::Commit(0),
        Call::Send(0),
        Call::Poll(0, 0),
        Call::Take(0, 0),
        Call::Send(0),
        Call::Send(0),
        Call::Send(0),
    ];
    directory.run(rt.alloc(), &earlier)?;
    let Ok(draft) = Draft::open(&mut directory, 0) else {
        return Err(Fail::new("not opened"));
    };
    let read = draft.read(&mut directory, 6);
    let written = draft.write(&mut directory, 6, 2);
    let refused = match draft.commit(&mut directory) {
        Ok(Progress::GoesOn(_filing, _)) => panic!(rt; "going on"),
        Ok(Progress::Ended(_)) => panic!(rt; "ended"),
        Err(refused) => refused,
    };
    let why = refused.error;
    let outcome = match refused.given.abandon(&mut directory) {
        Ok(outcome) => outcome,
        Err(_) => panic!(rt; "refused"),
    };
    assert!(rt; read.is_ok() && written.is_ok() && why == Refusal::NoRoom);
    assert!(rt; outcome == Outcome::Aborted && directory.is_idle(0));
    Ok(())
}

// With nothing read a commit ends at once; with nothing written the last check ends the transaction.
#[test]
fn readers_end_without_a_record(rt: HostRuntime) -> Result<(), Fail> {
    let mut directory = small(rt.alloc())?;
    let Ok(draft) = Draft::open(&mut directory, 0) else {
        return Err(Fail::new("not opened"));
    };
    let at_once = match draft.commit(&mut directory) {
        Ok(Progress::Ended(outcome)) => outcome,
        Ok(Progress::GoesOn(_filing, _)) => panic!(rt; "going on"),
        Err(_) => panic!(rt; "refused"),
    };
    let Ok(draft) = Draft::open(&mut directory, 0) else {
        return Err(Fail::new("not opened again"));
    };
    let read = draft.read(&mut directory, 6);
    let filing = match draft.commit(&mut directory) {
        Ok(Progress::GoesOn(filing, _)) => filing,
        Ok(Progress::Ended(_)) => panic!(rt; "ended"),
        Err(_) => panic!(rt; "refused"),
    };
    let outcome = ended(&rt, filing.check(&mut directory));
    assert!(rt; read.is_ok() && at_once == Outcome::Committed);
    assert!(rt; outcome == Outcome::Committed);
    Ok(())
}
