// Trimming: a coordinator between two commits asks a machine to truncate its log.
ghost use Rattle.protocol.specs.declared.call.Call.TheVariants.{Trim};
ghost use Rattle.directory.specs.View.{world};
ghost use Rattle.directory.specs.Trims.{MayTrim};
ghost use Rattle.directory.specs.Calls.{Does};

use crate::checks::{admit, admit_machine};
use crate::slots::{append_in, block_of, slots_of};
use crate::tables::{Coordinator, Phase};
use handling::logs::Log;
use memory::interface::Memory;
use protocol::call::{Answer, Outcome, Refusal};
use protocol::plan::Plan;
use protocol::record::{Kind, Record, Reply};
use ring::Ring;

// A log is trimmed where a record has no TRUNCATE behind it. On sound tables there is room: a place is kept for that TRUNCATE.
fn may_trim(ring: &Ring, slots: &[Record], capacity: usize) -> Result<(), Refusal>
    ensures { MayTrim ring.now slots.now capacity result }
{
    let true = (Log { ring, slots }).is_untrimmed() else {
        return Err(Refusal::Nothing);
    };
    let true = ring.has_room(capacity) else {
        return Err(Refusal::NoRoom);
    };
    Ok(())
}

// Answers the number that the TRUNCATE carries: the last one given.
pub fn trim<P: Memory, F: Memory, S: Memory>(
    plan: &Plan,
    coordinators: &mut [Coordinator],
    records: &mut [Record],
    replies: &[Reply],
    primaries: &P,
    firsts: &F,
    seconds: &S,
    c: u8,
    m: u8,
) -> Result<Answer, Refusal>
    ensures { let was = world coordinators.old records.old replies.now (P.Memory.words primaries.now) (F.Memory.words firsts.now) (S.Memory.words seconds.now) in
        let after = world coordinators.new records.new replies.now (P.Memory.words primaries.now) (F.Memory.words firsts.now) (S.Memory.words seconds.now) in
        Does plan.now was after result (Trim c m) }
{
    admit(
        plan,
        coordinators,
        records,
        replies,
        primaries,
        firsts,
        seconds,
        c,
    )?;
    admit_machine(plan, m)?;
    let own = &coordinators[c as usize];
    let (Phase::Idle | Phase::Open) = own.work.phase else {
        return Err(Refusal::WrongPhase);
    };
    let capacity = plan.capacity as usize;
    let slots = slots_of(plan, c, m, records, capacity);
    may_trim(&own.logs[m as usize], slots, capacity)?;
    let number = own.work.last_given();
    let sent = own.work.record_due(plan, c, Kind::Truncate, m);
    let block = block_of(plan, c, m);
    let own = &mut coordinators[c as usize];
    append_in(&mut own.logs[m as usize], records, block, capacity, sent);
    Ok(Answer::new(number, 0, Outcome::Going))
}
