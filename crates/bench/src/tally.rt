// What became of the calls, by their kinds.
ghost use Rattle.std.specs.Prelude.{◌<◌};

use protocol::call::{Answer, Call, Outcome, Refusal};

// A call of each kind, in the order of the tallies.
pub const KINDS: [Call; 10] = [
    Call::Open(0),
    Call::Read(0, 0),
    Call::Write(0, 0, 0),
    Call::Abandon(0),
    Call::Commit(0),
    Call::Send(0),
    Call::Poll(0, 0),
    Call::Take(0, 0),
    Call::Check(0),
    Call::Trim(0, 0),
];

// The place of a call's kind among them.
pub fn kind(call: Call) -> usize
    ensures { result < 10 }
{
    match call {
        Call::Open(_) => 0,
        Call::Read(_, _) => 1,
        Call::Write(_, _, _) => 2,
        Call::Abandon(_) => 3,
        Call::Commit(_) => 4,
        Call::Send(_) => 5,
        Call::Poll(_, _) => 6,
        Call::Take(_, _) => 7,
        Call::Check(_) => 8,
        Call::Trim(_, _) => 9,
    }
}

// The calls of one kind: what was made and not accepted was refused.
#[derive(Clone, Copy, Default)]
pub struct Tally {
    pub made: u64,
    pub accepted: u64,
    pub committed: u64,
    pub aborted: u64,
}

impl Tally {
    pub fn note(&mut self, answer: &Result<Answer, Refusal>) {
        self.made = self.made.wrapping_add(1);
        if let Ok(answer) = answer {
            self.accepted = self.accepted.wrapping_add(1);
            match answer.outcome {
                Outcome::Going => {}
                Outcome::Committed => self.committed = self.committed.wrapping_add(1),
                Outcome::Aborted => self.aborted = self.aborted.wrapping_add(1),
            }
        }
    }

    // The two together.
    pub fn with(&self, other: &Tally) -> Tally {
        Tally {
            made: self.made.wrapping_add(other.made),
            accepted: self.accepted.wrapping_add(other.accepted),
            committed: self.committed.wrapping_add(other.committed),
            aborted: self.aborted.wrapping_add(other.aborted),
        }
    }
}
