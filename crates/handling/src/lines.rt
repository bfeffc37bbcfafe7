// What the lines of a record do to the memories. A line that does not fit a memory is passed over. The loops that count differ
// in what they do to which memory: one function over a closure would have to say what any closure does to any memory, line by
// line, and that is longer than the loops. That the lines fit is a premise of a clause, since a call returns on any tables.
ghost use Rattle.std.specs.Prelude.{◌≡◌, ℕ, ◌+◌, ◌≤◌, true, ◌&&◌, length, if◌then◌else◌};
ghost use Rattle.std.specs.List.{AllByRecursion, list_all};
ghost use Rattle.memory.specs.Words.{holds, lockable, freeable};
ghost use Rattle.protocol.specs.Kept.{Apart};
ghost use Rattle.protocol.specs.Lines.{is_current, hold, put, lock_lines, install_lines, held_lines, free_lines, is_newer, renew, backups, back_up};
ghost use Rattle.protocol.specs.Poll.{back_up_lines};
ghost use Rattle.handling.specs.Fitting.{Fit, is_fit, fitting, lockable_lines, freed_lines, is_first_backup, is_fit_backup, fitting_backup};
ghost use Rattle.handling.specs.Held.{Held};

use crate::room::home;
use memory::interface::Memory;
use protocol::plan::Plan;
use protocol::record::Line;

// The line's word is there, free and at the version read, and the holder is 1 to 15.
fn can_lock<M: Memory>(memory: &M, line: &Line, holder: u8) -> bool
    ensures { result ≡ lockable (M.words memory.now) line.now.address line.now.version holder }
{
    let Some((version, held, _)) = memory.look(line.address as usize) else {
        return false;
    };
    held == 0 && version == line.version && (1..=15).contains(&holder)
}

// Locks every line for the holder, or none where one cannot be locked.
pub fn lock_lines<M: Memory>(memory: &mut M, lines: &[Line], holder: u8) -> bool
    ensures answers { result ≡ lockable_lines (M.words memory.old) holder lines.now }
    ensures after { M.words memory.new ≡ (if result then lock_lines (M.words memory.old) holder lines.now else M.words memory.old) }
    ensures held { result ≡ true → Held holder lines.now (M.words memory.old) (M.words memory.new) }
    ensures all_fit { AllByRecursion (Fit (length (M.words memory.old))) lines.now → holds holder ≡ true → result ≡ list_all (is_current (M.words memory.old)) lines.now }
{
    for line in lines {
        if !can_lock(memory, line, holder) {
            return false;
        }
    }
    for line in lines {
        memory.lock(line.address as usize, line.version, holder);
    }
    true
}

// Puts the line's value at the version after the one read; past the last version the memory answers no.
fn install_line<M: Memory>(memory: &mut M, line: &Line) -> bool
    ensures answers { result ≡ is_fit (length (M.words memory.old)) line.now }
    ensures after { M.words memory.new ≡ (if result then put (M.words memory.old) line.now.address (line.now.version + 1) line.now.value else M.words memory.old) }
{
    let next = line.version.saturating_add(1);
    memory.put(line.address as usize, next, line.value)
}

// Installs each line, and counts them.
pub fn install_lines<M: Memory>(memory: &mut M, lines: &[Line]) -> usize
    ensures after { M.words memory.new ≡ install_lines (M.words memory.old) (fitting (length (M.words memory.old)) lines.now) }
    ensures counts { result ≡ length (fitting (length (M.words memory.old)) lines.now) }
    ensures all_fit { AllByRecursion (Fit (length (M.words memory.old))) lines.now → (M.words memory.new ≡ install_lines (M.words memory.old) lines.now) × (result ≡ length lines.now) }
{
    let mut installed = 0;
    for line in lines {
        installed += install_line(memory, line) as usize;
    }
    installed
}

// Frees the line's word where the holder has it.
fn free_line<M: Memory>(memory: &mut M, line: &Line, holder: u8) -> bool
    ensures answers { result ≡ freeable (M.words memory.old) line.now.address holder }
    ensures after { M.words memory.new ≡ (if result then hold (M.words memory.old) 0 line.now.address else M.words memory.old) }
{
    memory.free(line.address as usize, holder)
}

// Frees each line's word that the holder has, and counts them.
pub fn free_lines<M: Memory>(memory: &mut M, lines: &[Line], holder: u8) -> usize
    ensures after { M.words memory.new ≡ free_lines (M.words memory.old) (freed_lines (M.words memory.old) holder lines.now) }
    ensures counts { result ≡ length (freed_lines (M.words memory.old) holder lines.now) }
    ensures all_fit { AllByRecursion (Fit (length (M.words memory.old))) lines.now → Apart lines.now → holds holder ≡ true → (M.words memory.new ≡ free_lines (M.words memory.old) (held_lines (M.words memory.old) holder lines.now)) × (result ≡ length (held_lines (M.words memory.old) holder lines.now)) }
{
    let mut freed = 0;
    for line in lines {
        freed += free_line(memory, line, holder) as usize;
    }
    freed
}

// Puts the line into a backup where it is newer than the word there.
fn renew_line<M: Memory>(memory: &mut M, line: &Line) -> bool
    ensures answers { result ≡ (is_fit (length (M.words memory.old)) line.now && is_newer (M.words memory.old) line.now) }
    ensures after { M.words memory.new ≡ (if is_fit (length (M.words memory.old)) line.now then renew (M.words memory.old) line.now else M.words memory.old) }
{
    let Some((version, _, _)) = memory.look(line.address as usize) else {
        return false;
    };
    if line.version < version {
        return false;
    }
    install_line(memory, line)
}

// Puts the line into the backup that machine m has of its word, the first or else the second, where it is newer. The two
// memories stay two parameters: a struct of two `&mut` of any two makes would be put together at each call, and each clause
// would name its two words all the same.
fn back_up_line<F: Memory, S: Memory>(
    plan: &Plan,
    m: u8,
    line: &Line,
    firsts: &mut F,
    seconds: &mut S,
) -> bool
    ensures { (n : ℕ) → backups (n + (if result then 1 else 0)) (F.Memory.words firsts.new) (S.Memory.words seconds.new)
        ≡ (if is_fit_backup plan.now m (length (F.Memory.words firsts.old)) (length (S.Memory.words seconds.old)) line.now
        then back_up (is_first_backup plan.now m line.now) line.now (backups n (F.Memory.words firsts.old) (S.Memory.words seconds.old))
        else backups n (F.Memory.words firsts.old) (S.Memory.words seconds.old)) }
{
    if home(plan, line.address).first == m {
        renew_line(firsts, line)
    } else {
        renew_line(seconds, line)
    }
}

// Puts each line into the backup that machine m has of its word, where it is newer, and counts the puts.
pub fn back_up_lines<F: Memory, S: Memory>(
    plan: &Plan,
    m: u8,
    lines: &[Line],
    firsts: &mut F,
    seconds: &mut S,
) -> usize
    ensures after { (n : ℕ) → backups (n + result) (F.Memory.words firsts.new) (S.Memory.words seconds.new)
        ≡ back_up_lines plan.now m (fitting_backup plan.now m (length (F.Memory.words firsts.old)) (length (S.Memory.words seconds.old)) lines.now)
        (backups n (F.Memory.words firsts.old) (S.Memory.words seconds.old)) }
    ensures few { result ≤ length lines.now }
    ensures all_fit { AllByRecursion (Fit (length (F.Memory.words firsts.old))) lines.now → length (S.Memory.words seconds.old) ≡ length (F.Memory.words firsts.old)
        → (n : ℕ) → backups (n + result) (F.Memory.words firsts.new) (S.Memory.words seconds.new)
        ≡ back_up_lines plan.now m lines.now (backups n (F.Memory.words firsts.old) (S.Memory.words seconds.old)) }
{
    let mut puts = 0;
    for line in lines {
        puts += back_up_line(plan, m, line, firsts, seconds) as usize;
    }
    puts
}

#[cfg(test)]
mod tests {
    use super::*;
    use memory::cells::Cells;
    use std::test::Fail;

    fn line(address: u16, version: u64) -> Line {
        Line {
            address,
            version,
            value: 9,
        }
    }

    #[test]
    fn a_lock_takes_all_lines_or_none(rt: HostRuntime) -> Result<(), Fail> {
        let mut memory = Cells::new(rt.alloc(), 2)?;
        assert!(rt; !lock_lines(&mut memory, &[line(0, 0), line(1, 5)], 3));
        assert_eq!(rt; memory.look(0), Some((0, 0, 0)));
        assert!(rt; lock_lines(&mut memory, &[line(0, 0), line(1, 0)], 3));
        assert_eq!(rt; memory.look(1), Some((0, 3, 0)));
        assert_eq!(rt; install_lines(&mut memory, &[line(0, 0), line(7, 0)]), 1);
        assert_eq!(rt; memory.look(0), Some((1, 0, 9)));
        assert_eq!(rt; free_lines(&mut memory, &[line(0, 0), line(1, 0)], 3), 1);
        Ok(())
    }
}
