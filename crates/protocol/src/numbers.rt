// The numbers that stand for kinds, outcomes and refusals outside the program.
ghost use Rattle.std.specs.Prelude.{◌≡◌};
ghost use Rattle.protocol.specs.Call.{outcome_number, refusal_number};
ghost use Rattle.protocol.specs.Record.{number_of};

use crate::call::{Outcome, Refusal};
use crate::record::Kind;

impl From<Kind> for u64 {
    ghost from_gives = { λ kind r. r ≡ number_of kind };

    fn from(kind: Kind) -> u64 {
        kind as u64
    }
}

impl From<Outcome> for u8 {
    ghost from_gives = { λ outcome r. r ≡ outcome_number outcome };

    fn from(outcome: Outcome) -> u8 {
        outcome as u8
    }
}

impl From<Refusal> for u8 {
    ghost from_gives = { λ refusal r. r ≡ refusal_number refusal };

    fn from(refusal: Refusal) -> u8 {
        refusal as u8
    }
}
