// The call that checks a word that was read and not written.
ghost use Rattle.std.specs.Prelude.{◌≡◌, if◌then◌else◌, Some, None};
ghost use Rattle.memory.specs.Words.{there};
ghost use Rattle.protocol.specs.Lines.{is_current};
ghost use Rattle.protocol.specs.declared.call.Call.TheVariants.{Check};
ghost use Rattle.directory.specs.View.{world};
ghost use Rattle.directory.specs.Calls.{Does};

use crate::checks::admit;
use crate::tables::{Coordinator, Phase};
use memory::interface::Memory;
use protocol::call::{Answer, Refusal};
use protocol::plan::Plan;
use protocol::record::{Line, Record, Reply};

// Whether the word of a line is free, whoever asks, and has the version read; nothing where there is no such word.
fn is_current<M: Memory>(memory: &M, line: Line) -> Option<bool>
    ensures { result ≡ (if there (M.words memory.now) line.address then Some (is_current (M.words memory.now) line) else None) }
{
    let (version, holder, _) = memory.look(line.address as usize)?;
    Some(holder == 0 && version == line.version)
}

// Looks at the next word that was read and not written, and answers its address and whether it is as it was read: 1, or 0 and an abort is reported.
// After the last 1 the backups are due, and where nothing was written a commit is reported.
pub fn check<P: Memory, F: Memory, S: Memory>(
    plan: &Plan,
    coordinators: &mut [Coordinator],
    records: &[Record],
    replies: &[Reply],
    primaries: &P,
    firsts: &F,
    seconds: &S,
    c: u8,
) -> Result<Answer, Refusal>
    ensures { let was = world coordinators.old records.now replies.now (P.Memory.words primaries.now) (F.Memory.words firsts.now) (S.Memory.words seconds.now) in
        let after = world coordinators.new records.now replies.now (P.Memory.words primaries.now) (F.Memory.words firsts.now) (S.Memory.words seconds.now) in
        Does plan.now was after result (Check c) }
{
    admit(
        plan,
        coordinators,
        records,
        replies,
        primaries,
        firsts,
        seconds,
        c,
    )?;
    let own = &coordinators[c as usize];
    let Phase::Checking { passed } = own.work.phase else {
        return Err(Refusal::WrongPhase);
    };
    let Some((count, line)) = own.work.next_unwritten(passed) else {
        return Err(Refusal::WrongPhase);
    };
    let Some(current) = is_current(primaries, line) else {
        return Err(Refusal::NoAddress);
    };
    let outcome = coordinators[c as usize].work.note_check(count, current);
    Ok(Answer::new(line.address as u64, u64::from(current), outcome))
}
