// What a machine does with the record that it polls. What the log and the memories must be is a premise of each clause, since a
// call returns on any tables; the two backup memories stay two parameters, as in lines.rt.
ghost use Rattle.std.specs.Prelude.{◌≡◌, suc, ◌<◌, length};
ghost use Rattle.protocol.specs.Record.{note};
ghost use Rattle.protocol.specs.Plan.{size};
ghost use Rattle.protocol.specs.Lines.{install_lines, held_lines, free_lines, backups};
ghost use Rattle.protocol.specs.Poll.{locked_lines, back_up_records};
ghost use Rattle.protocol.specs.Kept.{Lines};
ghost use Rattle.handling.specs.Notes.{polled};
ghost use Rattle.handling.specs.Handling.{effect, handled, HandlesLock, BacksUp, SoundLog, Ready};

use crate::lines::{back_up_lines, free_lines, install_lines, lock_lines};
use crate::logs::Log;
use memory::interface::Memory;
use protocol::plan::Plan;
use protocol::record::{Kind, Record};

// How many lines were locked, put or freed, and the reply to a LOCK: whether it was granted.
#[derive(Clone, Copy)]
pub struct Done {
    pub count: u64,
    pub reply: Option<bool>,
}

// Puts the lines of a COMMIT-BACKUP into the backups of machine m, and counts the puts.
fn back_up_record<F: Memory, S: Memory>(
    plan: &Plan,
    m: u8,
    entry: &Record,
    firsts: &mut F,
    seconds: &mut S,
) -> usize
    ensures { BacksUp plan.now m (note entry.now) (F.Memory.words firsts.old) (S.Memory.words seconds.old) (F.Memory.words firsts.new) (S.Memory.words seconds.new) result }
{
    match entry.kind {
        Kind::CommitBackup => {
            let lines = entry.lines;
            back_up_lines(plan, m, lines.as_slice(), firsts, seconds)
        }
        _ => 0,
    }
}

// A TRUNCATE: the lines of every polled COMMIT-BACKUP, in log order, go into the backups of machine m; counts the puts.
pub fn truncate<F: Memory, S: Memory>(
    plan: &Plan,
    m: u8,
    log: &Log<'_>,
    firsts: &mut F,
    seconds: &mut S,
) -> usize
    ensures { SoundLog plan.now log.now.ring.now log.now.slots.now → length (F.Memory.words firsts.old) ≡ size plan.now → length (S.Memory.words seconds.old) ≡ size plan.now
        → backups result (F.Memory.words firsts.new) (S.Memory.words seconds.new) ≡ back_up_records plan.now m (polled log.now.ring.now log.now.slots.now) (backups 0 (F.Memory.words firsts.old) (S.Memory.words seconds.old)) }
{
    let mut puts: usize = 0;
    for entry in log.polled() {
        puts = puts.saturating_add(back_up_record(plan, m, entry, firsts, seconds));
    }
    puts
}

// A LOCK: all the record's lines are locked for the coordinator, or none.
fn lock<P: Memory>(plan: &Plan, c: u8, found: &Record, primaries: &mut P) -> Done
    ensures { HandlesLock plan.now c (note found.now) (P.words primaries.old) (P.words primaries.new) result }
{
    let lines = found.lines;
    let granted = lock_lines(primaries, lines.as_slice(), c.saturating_add(1));
    Done {
        count: if granted { lines.len() as u64 } else { 0 },
        reply: Some(granted),
    }
}

// A COMMIT-PRIMARY: each line of the transaction's LOCK is put at the version after the one read.
fn install<P: Memory>(plan: &Plan, log: &Log<'_>, number: u64, primaries: &mut P) -> usize
    ensures { let ls = locked_lines number (polled log.now.ring.now log.now.slots.now) in (SoundLog plan.now log.now.ring.now log.now.slots.now → length (P.words primaries.old) ≡ size plan.now
        → (P.words primaries.new ≡ install_lines (P.words primaries.old) ls) × (result ≡ length ls)) }
{
    let lines = log.locked_lines(number);
    install_lines(primaries, lines.as_slice())
}

// An ABORT: those lines of the transaction's LOCK that the coordinator holds are freed.
fn release<P: Memory>(plan: &Plan, c: u8, log: &Log<'_>, number: u64, primaries: &mut P) -> usize
    ensures { let ls = locked_lines number (polled log.now.ring.now log.now.slots.now) in (SoundLog plan.now log.now.ring.now log.now.slots.now → length (P.words primaries.old) ≡ size plan.now → c < 15
        → (P.words primaries.new ≡ free_lines (P.words primaries.old) (held_lines (P.words primaries.old) (suc c) ls)) × (result ≡ length (held_lines (P.words primaries.old) (suc c) ls))) }
{
    let lines = log.locked_lines(number);
    free_lines(primaries, lines.as_slice(), c.saturating_add(1))
}

// Machine m handles a record of coordinator c, behind the polled records of its log.
pub fn handle<P: Memory, F: Memory, S: Memory>(
    plan: &Plan,
    c: u8,
    m: u8,
    log: &Log<'_>,
    found: &Record,
    primaries: &mut P,
    firsts: &mut F,
    seconds: &mut S,
) -> Done
    ensures { Ready plan.now log.now.ring.now log.now.slots.now (P.Memory.words primaries.old) (F.Memory.words firsts.old) (S.Memory.words seconds.old) → Lines plan.now (note found.now).lines → c < 15
        → effect result.count result.reply (P.Memory.words primaries.new) (F.Memory.words firsts.new) (S.Memory.words seconds.new)
        ≡ handled plan.now c m (P.Memory.words primaries.old) (F.Memory.words firsts.old) (S.Memory.words seconds.old) (polled log.now.ring.now log.now.slots.now) (note found.now) found.now.kind }
{
    let count = match found.kind {
        Kind::Lock => return lock(plan, c, found, primaries),
        Kind::CommitBackup => 0,
        Kind::CommitPrimary => install(plan, log, found.number, primaries),
        Kind::Abort => release(plan, c, log, found.number, primaries),
        Kind::Truncate => truncate(plan, m, log, firsts, seconds),
    };
    Done {
        count: count as u64,
        reply: None,
    }
}
