ghost use Rattle.std.specs.Prelude.{◌≡◌, ℕ, ◌-◌, ◌/◌, Bool, ◌&&◌};
ghost use Rattle.memory.specs.Make.{sizeable, Making};
ghost use Rattle.memory.specs.Words.{blanks};

use crate::cells::Cells;
use crate::interface::Memory;
use crate::joined::Joined;
use crate::make::{MakeError, is_size};
use crate::packed::Packed;
use std::alloc::Global;

// A memory that is made new by its type alone, for code that is generic in the makes that it is played on.
pub trait Blank: Memory + Drop {
    ghost fits: { ℕ → Bool };

    // A memory of so many words can be made in this way.
    fn fits(n: usize) -> bool
        ensures { result ≡ fits n };

    // A memory of n words, all zero.
    fn blank(heap: Global, n: usize) -> Result<Self, MakeError>
        ensures { Making Self.words (fits n) (blanks n) result };
}

impl Blank for Cells {
    ghost fits = { sizeable };

    fn fits(n: usize) -> bool {
        is_size(n)
    }

    fn blank(heap: Global, n: usize) -> Result<Self, MakeError> {
        Cells::new(heap, n)
    }
}

impl Blank for Packed {
    ghost fits = { sizeable };

    fn fits(n: usize) -> bool {
        is_size(n)
    }

    fn blank(heap: Global, n: usize) -> Result<Self, MakeError> {
        Packed::new(heap, n)
    }
}

// Each part gets half of the words, so a pair of one word is refused: a part of none is no memory.
impl<A: Blank, B: Blank> Blank for Joined<A, B> {
    ghost fits = { λ n. sizeable n && (A.fits (n / 2) && B.fits (n - n / 2)) };

    fn fits(n: usize) -> bool {
        is_size(n) && A::fits(n / 2) && B::fits(n - n / 2)
    }

    fn blank(heap: Global, n: usize) -> Result<Self, MakeError> {
        if !Self::fits(n) {
            return Err(MakeError::BadSize);
        }
        let first = A::blank(heap, n / 2)?;
        let second = B::blank(heap, n - n / 2)?;
        Joined::new(first, second).map_err(|rejected| rejected.error)
    }
}
