// Where lines belong, and whether a commit finds room in its coordinator's logs. A plan and lines are two parameters, as in
// records.rt.
ghost use Rattle.std.specs.Prelude.{◌≡◌, ◌+◌, ◌≤◌, not, ◌||◌, length, ◌==◌, nat_le};
ghost use Rattle.ring.specs.Contents.{Sound};
ghost use Rattle.protocol.specs.Plan.{home_of};
ghost use Rattle.protocol.specs.Room.{is_at_primary, is_backup, is_at_backup, with_trim, one_if};
ghost use Rattle.handling.specs.Notes.{notes};
ghost use Rattle.handling.specs.Sending.{is_picked, has_picked, wanted};

use crate::logs::Log;
use protocol::plan::{Home, Plan};
use protocol::record::{Kind, Line};

// The home of an address; past the last region it is machine 0 three times.
pub fn home(plan: &Plan, address: u16) -> Home
    ensures { result ≡ home_of plan.now address }
{
    let region = (address / 64) as usize;
    plan.homes.get(region).copied().unwrap_or_default()
}

pub fn is_primary(plan: &Plan, address: u16, m: u8) -> bool
    ensures { result ≡ ((home_of plan.now address).primary == m) }
{
    home(plan, address).primary == m
}

pub fn is_backup(plan: &Plan, address: u16, m: u8) -> bool
    ensures { result ≡ is_backup plan.now address m }
{
    let home = home(plan, address);
    home.first == m || home.second == m
}

// A record of that kind for machine m has the line of that address. LOCK and COMMIT-BACKUP alone have lines.
pub(crate) fn picks(plan: &Plan, kind: Kind, m: u8, address: u16) -> bool
    ensures { result ≡ is_picked plan.now kind m address }
{
    match kind {
        Kind::Lock => is_primary(plan, address, m),
        Kind::CommitBackup => is_backup(plan, address, m),
        _ => false,
    }
}

fn has_picked(plan: &Plan, kind: Kind, m: u8, lines: &[Line]) -> bool
    ensures { result ≡ has_picked plan.now kind m lines.now }
{
    lines.iter().any(|line| picks(plan, kind, m, line.address))
}

// A line has its primary on machine m: the LOCK for m has lines.
#[tactic(auto, using(crate::proofs::Looking::any_is))]
pub fn at_primary(plan: &Plan, lines: &[Line], m: u8) -> bool
    ensures { result ≡ is_at_primary plan.now lines.now m }
{
    has_picked(plan, Kind::Lock, m, lines)
}

// A line has a backup on machine m: the COMMIT-BACKUP for m has lines.
#[tactic(auto, using(crate::proofs::Looking::any_is))]
pub fn at_backup(plan: &Plan, lines: &[Line], m: u8) -> bool
    ensures { result ≡ is_at_backup plan.now lines.now m }
{
    has_picked(plan, Kind::CommitBackup, m, lines)
}

// All the records that a commit of these lines writes into the log of machine m.
pub fn to_write(plan: &Plan, lines: &[Line], m: u8) -> usize
    ensures is { result ≡ wanted plan.now lines.now m }
    ensures few { result ≤ 3 }
{
    let primary = at_primary(plan, lines, m) as usize;
    let backup = at_backup(plan, lines, m) as usize;
    primary + backup + primary
}

// Behind `len` records there are places for n more, and for a TRUNCATE where one is then wanted.
fn are_free(len: usize, n: usize, untrimmed: bool, capacity: usize) -> bool
    ensures { result ≡ nat_le (len + (n + one_if (not (n == 0) || untrimmed))) capacity }
{
    if len > capacity {
        return false;
    }
    n < capacity - len || (n == 0 && !untrimmed)
}

impl<'a> Log<'a> {
    // The log has room for n records more, and for a TRUNCATE where one is then wanted, if it may grow to that many.
    pub fn has_place(&self, n: usize, capacity: usize) -> bool
        ensures { Sound self.now.ring.now (length self.now.slots.now) → result ≡ nat_le (length (notes self.now.ring.now self.now.slots.now) + with_trim n (notes self.now.ring.now self.now.slots.now)) capacity }
    {
        are_free(self.ring.len, n, self.is_untrimmed(), capacity)
    }
}
