// A house on three memories of different makes: a layout word and its two dial words are changed in one transaction, held as a
// ticket, and read back from all three memories.
#![tactic(auto)]

use account::{Account, told};
use memory::cells::Cells;
use memory::joined::Joined;
use memory::packed::Packed;
use protocol::call::{Call, Outcome};
use protocol::plan::{Home, Plan};
use service::owner::Directory;
use std::alloc::{AllocError, Global};
use std::io;
use tickets::draft::Draft;
use tickets::filing::{Filing, Progress};

mod account;

type House = Directory<Cells, Packed, Joined<Cells, Packed>>;

const COORDINATOR: u8 = 0;

const MACHINES: u8 = 3;

// How many phones the house has: read, and not changed.
const PHONES: u16 = 1;

// The layout, in region 0, and the two dial words, in region 1, with what each becomes.
const CHANGES: [(u16, u64); 3] = [(5, 2), (70, 4930112), (71, 4930113)];

// A round sends one record at most, and there are two LOCKs, three COMMIT-BACKUPs and two COMMIT-PRIMARYs.
const ROUNDS: u8 = 8;

// Calls of the machines and of the keeper of the logs, which no ticket makes.
const TRUNCATION: [Call; 7] = [
    Call::Poll(COORDINATOR, 1),
    Call::Trim(COORDINATOR, 0),
    Call::Trim(COORDINATOR, 1),
    Call::Trim(COORDINATOR, 2),
    Call::Poll(COORDINATOR, 0),
    Call::Poll(COORDINATOR, 1),
    Call::Poll(COORDINATOR, 2),
];

const COPIES: [&str; 3] = ["primary", "first backup", "second backup"];

// A ticket of either kind, where the house lets its transaction go no further.
enum Ticket {
    Draft(Draft),
    Filing(Filing),
}

impl Ticket {
    // The house and the ticket end together.
    fn close(self, house: House) -> u8 {
        match self {
            Ticket::Draft(draft) => draft.close(house),
            Ticket::Filing(filing) => filing.close(house),
        }
    }
}

fn plan() -> Plan {
    let layouts = Home {
        primary: 0,
        first: 1,
        second: 2,
    };
    let dials = Home {
        primary: 1,
        first: 2,
        second: 0,
    };
    let none = Home::default();
    Plan {
        machines: MACHINES,
        coordinators: 2,
        regions: 2,
        capacity: 4,
        start: 7,
        first: 1,
        homes: [layouts, dials, none, none, none, none, none, none],
    }
}

// None where there is no memory for it.
fn house(heap: Global) -> Option<House> {
    let primaries = Cells::new(heap, 128).ok()?;
    let firsts = Packed::new(heap, 128).ok()?;
    let front = Cells::new(heap, 48).ok()?;
    let back = Packed::new(heap, 80).ok()?;
    let seconds = Joined::new(front, back).ok()?;
    Directory::new(heap, plan(), primaries, firsts, seconds).ok()
}

// Reads the words, and writes those that change.
fn edit(draft: &Draft, house: &mut House, account: &mut Account<'_>) {
    account.note(Call::Read(COORDINATOR, PHONES), draft.read(house, PHONES));
    for (address, value) in CHANGES {
        account.note(Call::Read(COORDINATOR, address), draft.read(house, address));
        let written = draft.write(house, address, value);
        account.note(Call::Write(COORDINATOR, address, value), written);
    }
}

// Every machine polls its log.
fn poll(house: &mut House, account: &mut Account<'_>) {
    for m in 0..MACHINES {
        account.note(Call::Poll(COORDINATOR, m), house.poll(COORDINATOR, m));
    }
}

// Takes every machine's reply.
fn take(
    mut filing: Filing,
    house: &mut House,
    account: &mut Account<'_>,
) -> Result<Outcome, Filing> {
    for m in 0..MACHINES {
        match account.follow(Call::Take(COORDINATOR, m), filing.take(house, m)) {
            Ok(outcome) => return Ok(outcome),
            Err(left) => filing = left,
        }
    }
    Err(filing)
}

// One record is sent and polled, and what came of it is taken and checked.
fn advance(
    filing: Filing,
    house: &mut House,
    account: &mut Account<'_>,
) -> Result<Outcome, Filing> {
    let filing = match account.follow(Call::Send(COORDINATOR), filing.send(house)) {
        Ok(outcome) => return Ok(outcome),
        Err(filing) => filing,
    };
    poll(house, account);
    match take(filing, house, account) {
        Ok(outcome) => Ok(outcome),
        Err(filing) => account.follow(Call::Check(COORDINATOR), filing.check(house)),
    }
}

// Carries the transaction to its end: its outcome, or the filing if that takes more rounds than it may.
fn carry(
    mut filing: Filing,
    house: &mut House,
    account: &mut Account<'_>,
) -> Result<Outcome, Filing> {
    for _ in 0..ROUNDS {
        match advance(filing, house, account) {
            Ok(outcome) => return Ok(outcome),
            Err(left) => filing = left,
        }
    }
    Err(filing)
}

// Changes the words in one transaction, and gives its outcome, or nothing where none was opened; or a ticket that the house does
// not let end.
fn change(house: &mut House, account: &mut Account<'_>) -> Result<Option<Outcome>, Ticket> {
    let Ok(draft) = Draft::open(house, COORDINATOR) else {
        return Ok(None);
    };
    account.say("open a transaction");
    edit(&draft, house, account);
    match draft.commit(house) {
        Ok(Progress::GoesOn(filing, answer)) => {
            account.note(Call::Commit(COORDINATOR), Ok(answer));
            carry(filing, house, account)
                .map(Some)
                .map_err(Ticket::Filing)
        }
        Ok(Progress::Ended(outcome)) => Ok(Some(outcome)),
        Err(rejected) => match rejected.given.abandon(house) {
            Ok(outcome) => Ok(Some(outcome)),
            Err(rejected) => Err(Ticket::Draft(rejected.given)),
        },
    }
}

// The machines handle what is left in their logs, and the logs are truncated.
fn truncate(
    rt: &HostRuntime,
    house: &mut House,
    account: &mut Account<'_>,
) -> Result<(), AllocError> {
    let answers = house.run(rt.alloc(), &TRUNCATION)?;
    for (call, answer) in TRUNCATION.iter().zip(answers.iter()) {
        account.note(*call, *answer);
    }
    Ok(())
}

// Prints the three copies of each word that was changed.
fn show(rt: &HostRuntime, house: &House) -> io::Result<()> {
    for (address, _) in CHANGES {
        let copies = house.copies(address);
        for (name, copy) in COPIES.iter().zip(copies.iter()) {
            let Some((version, holder, value)) = *copy else {
                continue;
            };
            println!(rt;
                "{name} of word {address}: version {version}, value {value}, holder {holder}"
            )?;
        }
    }
    Ok(())
}

fn main(rt: HostRuntime) -> io::Result<()> {
    let Some(mut house) = house(rt.alloc()) else {
        return println!(rt; "no memory");
    };
    let mut account = Account::new(&rt);
    match change(&mut house, &mut account) {
        Ok(Some(outcome)) => println!(rt; "the ticket ended: {}", told(outcome))?,
        Ok(None) => println!(rt; "no transaction")?,
        Err(ticket) => {
            let c = ticket.close(house);
            return println!(rt; "coordinator {c} was left with its transaction");
        }
    }
    truncate(&rt, &mut house, &mut account)?;
    account.end()?;
    show(&rt, &house)
}
