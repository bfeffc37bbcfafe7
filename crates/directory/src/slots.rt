// The slots of a coordinator's rings in the tables of records and replies.
ghost use Rattle.std.specs.Prelude.{◌≡◌, ◌+◌, ◌*◌, ◌<◌, ◌≤◌, true, length};
ghost use Rattle.ring.specs.Contents.{room};
ghost use Rattle.ring.specs.Rings.{block};
ghost use Rattle.directory.specs.Slots.{Appended};

use protocol::plan::Plan;
use ring::Ring;

// The block of a table that has the slots of coordinator c's ring for machine m.
pub(crate) fn block_of(plan: &Plan, c: u8, m: u8) -> usize
    ensures block { result ≡ c * plan.now.machines + m }
    ensures few { result < 65536 }
{
    c as usize * plan.machines as usize + m as usize
}

// Those slots: that block of the table.
pub(crate) fn slots_of<'a, T>(plan: &Plan, c: u8, m: u8, table: &'a [T], size: usize) -> &'a [T]
    requires { (c * plan.now.machines + m) * size + size ≤ length table.now }
    ensures { result.now ≡ block size (c * plan.now.machines + m) table.now }
{
    let start = block_of(plan, c, m) * size;
    &table[start..start + size]
}

// Appends an entry to a ring with a free slot, whose slots are a block of the table.
pub(crate) fn append_in<T: Copy>(
    ring: &mut Ring,
    table: &mut [T],
    block: usize,
    size: usize,
    entry: T,
)
    requires within { block * size + size ≤ length table.old }
    requires room { room ring.old size ≡ true }
    ensures { Appended size block ring.old ring.new table.old table.new entry }
{
    ring.append(&mut table[block * size..block * size + size], entry);
}
