// The numbers and the name that are printed of a call.
ghost use Rattle.std.specs.Prelude.{◌≡◌, Some};
ghost use Rattle.playback.specs.Names.{name_of};
ghost use Rattle.playback.specs.Rows.{Shows, text};

use protocol::call::{Answer, Call, Refusal};
use std::fmt;
use steps::kind::EntryKind;

// An answer as it is printed: the refusal's number or 0, two numbers, and the outcome's number. They are what is printed; a
// program that goes on with an answer has its `Result`.
#[derive(Clone, Copy, Debug, Default, PartialEq, Eq)]
pub struct Row {
    pub refusal: u8,
    pub first: u64,
    pub second: u64,
    pub outcome: u8,
}

impl From<Result<Answer, Refusal>> for Row {
    ghost from_gives = { Shows };

    fn from(answer: Result<Answer, Refusal>) -> Row {
        match answer {
            Ok(given) => Row {
                refusal: 0,
                first: given.first,
                second: given.second,
                outcome: given.outcome.into(),
            },
            Err(refusal) => Row {
                refusal: refusal.into(),
                ..Row::default()
            },
        }
    }
}

impl fmt::Display for Row {
    ghost output = { λ row. Some (text row) };

    fn fmt<W: fmt::Write>(&self, f: &mut fmt::Formatter<W>) -> fmt::Result {
        let refusal = self.refusal;
        let first = self.first;
        let second = self.second;
        let outcome = self.outcome;
        write!(f, "{refusal} {first} {second} {outcome}")
    }
}

// The call's name in the output. A function and no `Display`: a call is a type of protocol's, and how it is printed is this
// crate's matter.
pub fn name(call: Call) -> &'static str
    ensures { result.now ≡ name_of call }
{
    EntryKind::from(call).name()
}
