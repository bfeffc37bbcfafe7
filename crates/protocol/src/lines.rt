// Lines in their order, at most a fixed number of them, kept by value: no memory is asked for.
ghost use Rattle.std.specs.Prelude.{◌≡◌, ◌≤◌, length};

use crate::record::Line;

mod operations;

// The first `len` places count. Of lines alone: a struct with a ghost field derives no copy where a parameter is a type.
#[derive(Clone, Copy)]
pub struct LineVec<const N: usize> {
    len: usize,
    places: [Line; N],
    ghost few: { len ≤ N },
    ghost all: { length places ≡ N },
}
