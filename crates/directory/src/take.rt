// The call that takes a machine's reply.
ghost use Rattle.protocol.specs.declared.call.Call.TheVariants.{Take};
ghost use Rattle.directory.specs.View.{world};
ghost use Rattle.directory.specs.Calls.{Does};

use crate::checks::{admit, admit_machine};
use crate::slots::slots_of;
use crate::tables::{Coordinator, Phase};
use memory::interface::Memory;
use protocol::call::{Answer, Refusal};
use protocol::plan::Plan;
use protocol::record::{Record, Reply};

// Takes the reply at the front of the queue of machine m, and answers 1 for a yes and 0 for a no.
pub fn take<P: Memory, F: Memory, S: Memory>(
    plan: &Plan,
    coordinators: &mut [Coordinator],
    records: &[Record],
    replies: &[Reply],
    primaries: &P,
    firsts: &F,
    seconds: &S,
    c: u8,
    m: u8,
) -> Result<Answer, Refusal>
    ensures { let was = world coordinators.old records.now replies.now (P.Memory.words primaries.now) (F.Memory.words firsts.now) (S.Memory.words seconds.now) in
        let after = world coordinators.new records.now replies.now (P.Memory.words primaries.now) (F.Memory.words firsts.now) (S.Memory.words seconds.now) in
        Does plan.now was after result (Take c m) }
{
    admit(
        plan,
        coordinators,
        records,
        replies,
        primaries,
        firsts,
        seconds,
        c,
    )?;
    admit_machine(plan, m)?;
    let own = &coordinators[c as usize];
    let Phase::Locking(locking) = own.work.phase else {
        return Err(Refusal::WrongPhase);
    };
    let slots = slots_of(plan, c, m, replies, 4);
    let Some(reply) = own.queues[m as usize].peek(slots, 0) else {
        return Err(Refusal::Nothing);
    };
    let own = &mut coordinators[c as usize];
    own.queues[m as usize].drop_front(slots, 1);
    let outcome = own.work.note_reply(plan, locking.replied(m, reply.yes));
    Ok(Answer::new(u64::from(reply.yes), 0, outcome))
}
