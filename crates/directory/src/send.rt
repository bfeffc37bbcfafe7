// Sending: one record of the phase goes to the lowest machine that is still due one.
ghost use Rattle.protocol.specs.declared.call.Call.TheVariants.{Send};
ghost use Rattle.directory.specs.View.{world};
ghost use Rattle.directory.specs.Calls.{Does};

use crate::checks::admit;
use crate::slots::{append_in, block_of};
use crate::tables::Coordinator;
use memory::interface::Memory;
use protocol::call::{Answer, Refusal};
use protocol::plan::Plan;
use protocol::record::{Record, Reply};

// Answers the machine and the kind of the record.
pub fn send<P: Memory, F: Memory, S: Memory>(
    plan: &Plan,
    coordinators: &mut [Coordinator],
    records: &mut [Record],
    replies: &[Reply],
    primaries: &P,
    firsts: &F,
    seconds: &S,
    c: u8,
) -> Result<Answer, Refusal>
    ensures { let was = world coordinators.old records.old replies.now (P.Memory.words primaries.now) (F.Memory.words firsts.now) (S.Memory.words seconds.now) in
        let after = world coordinators.new records.new replies.now (P.Memory.words primaries.now) (F.Memory.words firsts.now) (S.Memory.words seconds.now) in
        Does plan.now was after result (Send c) }
{
    admit(
        plan,
        coordinators,
        records,
        replies,
        primaries,
        firsts,
        seconds,
        c,
    )?;
    let own = &coordinators[c as usize];
    let (kind, m) = own.work.next_record(plan)?;
    let block = block_of(plan, c, m);
    let capacity = plan.capacity as usize;
    let log = &own.logs[m as usize];
    // on sound tables there is room: a commit kept a place for each of its records
    let true = log.has_room(capacity) else {
        return Err(Refusal::NoRoom);
    };
    let sent = own.work.record_due(plan, c, kind, m);
    let own = &mut coordinators[c as usize];
    append_in(&mut own.logs[m as usize], records, block, capacity, sent);
    let outcome = own.work.go_on(plan, m);
    Ok(Answer::new(m as u64, kind.into(), outcome))
}
