// Set-up: every word at the start version, every ring empty, every coordinator idle.
ghost use Rattle.std.specs.Prelude.{◌≡◌, ◌^◌, ◌<◌, length, replicate};
ghost use Rattle.memory.specs.Words.{word};
ghost use Rattle.directory.specs.View.{world};
ghost use Rattle.directory.specs.Fresh.{Fresh};
ghost use Rattle.directory.specs.Calls.{SetsUp};

use crate::checks::{plan_ok, tables_ok};
use crate::tables::{Coordinator, Phase, Work};
use memory::interface::Memory;
use protocol::call::Refusal;
use protocol::lines::LineVec;
use protocol::plan::Plan;
use protocol::record::{Record, Reply};
use ring::Ring;

// An idle coordinator with empty rings.
pub fn fresh(first: u64) -> Coordinator
    ensures { Fresh first result }
{
    let ring = Ring::new();
    let work = Work {
        phase: Phase::Idle,
        next: Some(first),
        reads: LineVec::new(),
        writes: LineVec::new(),
    };
    Coordinator {
        work,
        logs: [ring; 5],
        queues: [ring; 5],
    }
}

// Puts the version and the value 0 into every word. A memory lends no words to go through, so each is named by its address.
fn reset<M: Memory>(memory: &mut M, version: u64)
    requires { version < 2 ^ 60 }
    ensures { M.words memory.new ≡ replicate (length (M.words memory.old)) (word version 0 0) }
{
    let n = memory.size();
    for address in 0..n {
        memory.put(address, version, 0);
    }
}

pub fn set_up<P: Memory, F: Memory, S: Memory>(
    plan: &Plan,
    coordinators: &mut [Coordinator],
    records: &[Record],
    replies: &[Reply],
    primaries: &mut P,
    firsts: &mut F,
    seconds: &mut S,
) -> Result<u64, Refusal>
    ensures { let was = world coordinators.old records.now replies.now (P.Memory.words primaries.old) (F.Memory.words firsts.old) (S.Memory.words seconds.old) in
        let after = world coordinators.new records.now replies.now (P.Memory.words primaries.new) (F.Memory.words firsts.new) (S.Memory.words seconds.new) in
        SetsUp plan.now was after result }
{
    // the first two checks of every call, and not a function of both: that would need an equation of its own
    let true = plan_ok(plan) else {
        return Err(Refusal::BadPlan);
    };
    let true = tables_ok(
        plan,
        coordinators,
        records,
        replies,
        primaries,
        firsts,
        seconds,
    ) else {
        return Err(Refusal::BadTables);
    };
    reset(primaries, plan.start);
    reset(firsts, plan.start);
    reset(seconds, plan.start);
    let count = plan.coordinators as usize;
    coordinators[0..count].fill(fresh(plan.first));
    Ok(plan.size() as u64)
}
