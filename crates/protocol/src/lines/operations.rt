ghost use Rattle.std.specs.Prelude.{◌≡◌, ◌≤◌, [], length, if◌then◌else◌, nat_lt};
ghost use Rattle.std.specs.List.{push};
ghost use Rattle.protocol.specs.Coordinator.{line_at};
ghost use Rattle.protocol.specs.LineVec.{listed};
ghost use Rattle.protocol.specs.Lists.{is_empty};
ghost use Rattle.protocol.specs.Transact.{revalued, rewrite};

use super::LineVec;
use crate::record::Line;

impl<const N: usize> LineVec<N> {
    // No lines.
    pub fn new() -> LineVec<N>
        ensures { listed result ≡ [] }
    {
        LineVec {
            len: 0,
            places: [Line::default(); N],
        }
    }

    // The lines, at most N.
    pub fn as_slice(&self) -> &[Line]
        ensures lines { result.now ≡ listed self.now }
        ensures few { length result.now ≤ N }
    {
        let places = &self.places[..];
        &places[0..self.len]
    }

    // How many there are.
    pub fn len(&self) -> usize
        ensures is { result ≡ length (listed self.now) }
        ensures few { result ≤ N }
    {
        self.as_slice().len()
    }

    pub fn is_empty(&self) -> bool
        ensures { result ≡ is_empty (listed self.now) }
    {
        self.len == 0
    }

    // One line more behind the last, or false where there are N.
    pub fn push(&mut self, line: Line) -> bool
        ensures answers { result ≡ nat_lt (length (listed self.old)) N }
        ensures after { listed self.new ≡ (if result then push (listed self.old) line else listed self.old) }
    {
        if self.len >= N {
            return false;
        }
        self.places[self.len] = line;
        self.len += 1;
        true
    }

    // Takes all lines out. No place is written: what lies past the first `len` does not count.
    pub fn clear(&mut self)
        ensures { listed self.new ≡ [] }
    {
        self.len = 0;
    }

    // The first line with that address.
    pub fn find(&self, address: u16) -> Option<Line>
        ensures { result ≡ line_at address (listed self.now) }
    {
        self.as_slice()
            .iter()
            .copied()
            .find(|line| line.address == address)
    }

    // Each line with that address takes the value.
    pub fn rewrite(&mut self, address: u16, value: u64)
        ensures { listed self.new ≡ rewrite (listed self.old) address value }
    {
        let places = &mut self.places[..];
        revalue_all(places, address, value);
    }
}

// The line with the value, if it has that address.
fn revalued(line: Line, address: u16, value: u64) -> Line
    ensures { result ≡ revalued address value line }
{
    if line.address == address {
        Line { value, ..line }
    } else {
        line
    }
}

fn revalue_all(lines: &mut [Line], address: u16, value: u64)
    ensures { lines.new ≡ rewrite lines.old address value }
{
    for line in lines.iter_mut() {
        *line = revalued(*line, address, value);
    }
}
