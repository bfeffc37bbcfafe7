// What was done, printed line by line. With a ticket in hand a failed print cannot end the program, since a `?` would let the
// ticket go, which does not build: the failure is kept, and told at the end.
use memory::make::Rejected;
use protocol::call::{Answer, Call, Outcome, Refusal};
use std::{fmt, io};
use tickets::filing::{Filing, Progress};

#[derive(Drop)]
pub struct Account<'a> {
    rt: &'a HostRuntime,
    shown: io::Result<()>,
}

// A call that was accepted, with what it answered.
#[derive(Clone, Copy)]
struct Line {
    call: Call,
    answer: Answer,
}

fn kind(number: u64) -> &'static str {
    match number {
        1 => "LOCK",
        2 => "COMMIT-BACKUP",
        3 => "COMMIT-PRIMARY",
        4 => "ABORT",
        _ => "TRUNCATE",
    }
}

fn yes(number: u64) -> &'static str {
    if number == 1 { "yes" } else { "no" }
}

// What an outcome says of the transaction.
pub fn told(outcome: Outcome) -> &'static str {
    match outcome {
        Outcome::Going => "under way",
        Outcome::Committed => "committed",
        Outcome::Aborted => "aborted",
    }
}

impl fmt::Display for Line {
    fn fmt<W: fmt::Write>(&self, f: &mut fmt::Formatter<W>) -> fmt::Result {
        let first = self.answer.first;
        let second = self.answer.second;
        match self.call {
            Call::Open(c) => write!(f, "coordinator {c} opens a transaction"),
            Call::Read(_, a) => write!(f, "read word {a}: version {first}, value {second}"),
            Call::Write(_, a, v) => write!(f, "write word {a}: value {v}"),
            Call::Abandon(_) => write!(f, "abandon"),
            Call::Commit(_) => write!(f, "commit as transaction {first}"),
            Call::Send(_) => write!(f, "send {} to machine {first}", kind(second)),
            Call::Poll(_, m) => write!(f, "machine {m} handles {}, count {second}", kind(first)),
            Call::Take(_, m) => write!(f, "machine {m} replies {}", yes(first)),
            Call::Check(_) => write!(f, "check word {first}, unchanged: {}", yes(second)),
            Call::Trim(_, m) => write!(
                f,
                "send TRUNCATE to machine {m}, up to transaction {first}"
            ),
        }?;
        match self.answer.outcome {
            Outcome::Going => Ok(()),
            outcome => write!(f, "; reported {}", told(outcome)),
        }
    }
}

impl Account<'_> {
    pub fn new(rt: &HostRuntime) -> Account<'_> {
        Account { rt, shown: Ok(()) }
    }

    pub fn say(&mut self, line: impl fmt::Display + Drop) {
        if self.shown.is_ok() {
            self.shown = println!(self.rt; "{line}");
        }
    }

    // A refused call did nothing, and is left out.
    pub fn note(&mut self, call: Call, answer: Result<Answer, Refusal>) {
        let Ok(answer) = answer else {
            return;
        };
        self.say(Line { call, answer });
    }

    // Whether all was printed.
    pub fn end(self) -> io::Result<()> {
        let Account { rt: _, shown } = self;
        shown
    }

    // What a call of a filing left: the outcome, or the filing again.
    pub fn follow(
        &mut self,
        call: Call,
        called: Result<Progress, Rejected<Refusal, Filing>>,
    ) -> Result<Outcome, Filing> {
        match called {
            Ok(Progress::GoesOn(filing, answer)) => {
                self.note(call, Ok(answer));
                Err(filing)
            }
            Ok(Progress::Ended(outcome)) => Ok(outcome),
            Err(rejected) => {
                let Rejected { error: _, given } = rejected;
                Err(given)
            }
        }
    }
}
