ghost use Rattle.std.specs.Prelude.{◌≡◌};
ghost use Rattle.memory.specs.Places.{place_of};

use crate::make::MOST;

// Where an address of two joined memories lies: in the first, in the second at an address of its own, or past both. As an
// option of two parts it would be matched for the same three.
#[derive(Clone, Copy)]
pub enum Place {
    First(usize),
    Second(usize),
    Past,
}

// The place of an address, where the first memory has n words.
pub fn locate(n: usize, address: usize) -> Place
    ensures { result ≡ place_of n address }
{
    if address < n {
        Place::First(address)
    } else if address < MOST {
        Place::Second(address - n)
    } else {
        Place::Past
    }
}
