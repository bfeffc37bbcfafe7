// The checks that every call makes first.
ghost use Rattle.std.specs.Prelude.{◌≡◌, ◌<◌, length, OnOk};
ghost use Rattle.std.specs.List.{list_all};
ghost use Rattle.protocol.specs.Plan.{is_fine, has_fine_sizes, is_fine_home};
ghost use Rattle.directory.specs.View.{world, is_fitting};
ghost use Rattle.directory.specs.Checks.{admitted, machine_admitted};

use crate::tables::Coordinator;
use memory::interface::Memory;
use memory::word::VERSION_END;
use protocol::call::Refusal;
use protocol::plan::{Home, Plan};
use protocol::record::{Record, Reply};

// Three different machines of those there are.
fn home_ok(home: &Home, machines: u8) -> bool
    ensures { result ≡ is_fine_home machines home.now }
{
    home.primary < machines
        && home.first < machines
        && home.second < machines
        && home.primary != home.first
        && home.primary != home.second
        && home.first != home.second
}

fn homes_ok(homes: &[Home], machines: u8) -> bool
    ensures { result ≡ list_all (is_fine_home machines) homes.now }
{
    homes.iter().all(|home| home_ok(home, machines))
}

fn sizes_ok(plan: &Plan) -> bool
    ensures { result ≡ has_fine_sizes plan.now }
{
    (3..=5).contains(&plan.machines)
        && (1..=4).contains(&plan.coordinators)
        && (1..=8).contains(&plan.regions)
        && (4..=16).contains(&plan.capacity)
        && plan.start < VERSION_END
}

pub fn plan_ok(plan: &Plan) -> bool
    ensures { result ≡ is_fine plan.now }
{
    if !sizes_ok(plan) {
        return false;
    }
    let count = plan.regions as usize;
    homes_ok(&plan.homes[0..count], plan.machines)
}

// The tables are long enough, and each memory has the plan's words.
pub(crate) fn tables_ok<P: Memory, F: Memory, S: Memory>(
    plan: &Plan,
    coordinators: &[Coordinator],
    records: &[Record],
    replies: &[Reply],
    primaries: &P,
    firsts: &F,
    seconds: &S,
) -> bool
    ensures { result ≡ is_fitting plan.now (world coordinators.now records.now replies.now (P.Memory.words primaries.now) (F.Memory.words firsts.now) (S.Memory.words seconds.now)) }
{
    let count = plan.coordinators as usize;
    let logs = count * plan.machines as usize;
    let size = plan.size();
    count <= coordinators.len()
        && logs * plan.capacity as usize <= records.len()
        && logs * 4 <= replies.len()
        && primaries.size() == size
        && firsts.size() == size
        && seconds.size() == size
}

// The plan and the tables are fit for a call, and the coordinator is there. What a call is lent is not one struct: each call
// asks for just those tables and memories as `&mut` that it changes, and a struct of references would ask for all of them.
pub(crate) fn admit<P: Memory, F: Memory, S: Memory>(
    plan: &Plan,
    coordinators: &[Coordinator],
    records: &[Record],
    replies: &[Reply],
    primaries: &P,
    firsts: &F,
    seconds: &S,
    c: u8,
) -> Result<(), Refusal>
    ensures answers { result ≡ admitted plan.now (world coordinators.now records.now replies.now (P.Memory.words primaries.now) (F.Memory.words firsts.now) (S.Memory.words seconds.now)) c }
    ensures within { OnOk result (c < length coordinators.now) }
{
    let true = plan_ok(plan) else {
        return Err(Refusal::BadPlan);
    };
    let true = tables_ok(
        plan,
        coordinators,
        records,
        replies,
        primaries,
        firsts,
        seconds,
    ) else {
        return Err(Refusal::BadTables);
    };
    let true = c < plan.coordinators else {
        return Err(Refusal::NoCoordinator);
    };
    Ok(())
}

// The machine is there: poll, take and trim name one.
pub(crate) fn admit_machine(plan: &Plan, m: u8) -> Result<(), Refusal>
    ensures answers { result ≡ machine_admitted plan.now m }
    ensures within { OnOk result (m < plan.now.machines) }
{
    let true = m < plan.machines else {
        return Err(Refusal::NoMachine);
    };
    Ok(())
}
