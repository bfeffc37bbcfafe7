// The records that a coordinator sends. The plan and the lines stay two parameters: both are at hand where a function is
// called, and a struct of the two would be put together at each call. That the lines lie in eight regions is a premise of a clause,
// since a call returns on any tables.
ghost use Rattle.std.specs.Prelude.{◌≡◌, ◌-◌, ◌/◌, ◌^◌, ◌<◌, ◌≤◌, length};
ghost use Rattle.std.specs.List.{find, range_with_len};
ghost use Rattle.protocol.specs.LineVec.{listed};
ghost use Rattle.protocol.specs.Record.{note};
ghost use Rattle.protocol.specs.Room.{regions_byte};
ghost use Rattle.handling.specs.Sending.{is_due, OfPlan, picked, InEightRegions, SetsRegions, regions_in, record_of};

use crate::room::{at_backup, at_primary, picks};
use protocol::lines::LineVec;
use protocol::plan::Plan;
use protocol::record::{Kind, Line, Record};

// LOCK, COMMIT-PRIMARY and ABORT go where a line has its primary, COMMIT-BACKUP where one has a backup.
fn is_due(plan: &Plan, kind: Kind, m: u8, lines: &[Line]) -> bool
    ensures { result ≡ is_due plan.now kind lines.now m }
{
    match kind {
        Kind::Lock | Kind::CommitPrimary | Kind::Abort => at_primary(plan, lines, m),
        Kind::CommitBackup => at_backup(plan, lines, m),
        Kind::Truncate => false,
    }
}

// The lowest machine from `from` on that a record of that kind is due to.
pub fn next_due(plan: &Plan, kind: Kind, from: u8, lines: &[Line]) -> Option<u8>
    ensures lowest { result ≡ find (is_due plan.now kind lines.now) (range_with_len from (plan.now.machines - from)) }
    ensures within { OfPlan plan.now result }
{
    (from..plan.machines).find(|m| is_due(plan, kind, *m, lines))
}

fn bit(region: u16) -> u8
    requires { region < 8 }
    ensures { result ≡ 2 ^ region }
{
    1 << region
}

// A plan has eight regions of 64 addresses at most.
fn region_bit(address: u16) -> u8
    ensures { address < 512 → result ≡ 2 ^ (address / 64) }
{
    if address < 512 { bit(address / 64) } else { 0 }
}

// The byte with bit r set for each region r that the lines are in.
pub fn regions_of(lines: &[Line]) -> u8
    ensures is { InEightRegions lines.now → result ≡ regions_byte lines.now }
    ensures bits { InEightRegions lines.now → SetsRegions lines.now result }
{
    let mut byte = 0;
    for line in lines {
        byte |= region_bit(line.address);
    }
    byte
}

// The lines of a record of that kind for machine m, four at most.
fn lines_for(plan: &Plan, kind: Kind, m: u8, lines: &[Line]) -> LineVec<4>
    ensures { length lines.now ≤ 4 → listed result ≡ picked plan.now kind m lines.now }
{
    let mut picked = LineVec::new();
    for line in lines {
        if picks(plan, kind, m, line.address) {
            picked.push(*line);
        }
    }
    picked
}

fn regions_for(kind: Kind, lines: &[Line]) -> u8
    ensures { InEightRegions lines.now → result ≡ regions_in kind lines.now }
{
    match kind {
        Kind::Lock | Kind::CommitBackup => regions_of(lines),
        _ => 0,
    }
}

// The record of that kind for machine m, of coordinator c's transaction of that number, which writes the lines.
pub fn record_for(plan: &Plan, c: u8, number: u64, kind: Kind, m: u8, lines: &[Line]) -> Record
    ensures { length lines.now ≤ 4 → InEightRegions lines.now → note result ≡ record_of plan.now c number kind m lines.now }
{
    Record {
        kind,
        coordinator: c,
        number,
        regions: regions_for(kind, lines),
        lines: lines_for(plan, kind, m, lines),
    }
}
