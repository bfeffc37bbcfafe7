// A commit begins: a number is given, and room is kept. A plan of at most five machines is asked for, and is not a type of its
// own: that would be opened again for each function of handling, which take any plan.
ghost use Rattle.std.specs.Prelude.{◌≡◌, suc, ◌*◌, ◌^◌, ◌<◌, ◌≤◌, [], ◌∷◌, length};
ghost use Rattle.std.specs.List.{list_all};
ghost use Rattle.protocol.specs.declared.call.Call.TheVariants.{Commit};
ghost use Rattle.protocol.specs.Plan.{machine_list};
ghost use Rattle.protocol.specs.Room.{is_at_primary};
ghost use Rattle.protocol.specs.Commit.{first_phase, first_outcome};
ghost use Rattle.directory.specs.View.{world, phase_of, next_of, reads_of, writes_of};
ghost use Rattle.directory.specs.Sound.{Rings};
ghost use Rattle.directory.specs.Commits.{roomy_at};
ghost use Rattle.directory.specs.Work.{StandsFor};
ghost use Rattle.directory.specs.Calls.{Does};

use crate::checks::admit;
use crate::slots::slots_of;
use crate::tables::{Coordinator, Locking, Phase, Work};
use handling::logs::Log;
use handling::room::{at_primary, to_write};
use memory::interface::Memory;
use protocol::call::{Answer, Outcome, Refusal};
use protocol::plan::Plan;
use protocol::record::{Line, Record, Reply};

// The number after this one, if there is one.
fn after(number: u64) -> Option<u64>
    ensures next { next_of result ≡ suc number }
    ensures fits { number < 2 ^ 64 }
{
    number.checked_add(1)
}

// Which machines have primary lines, and so get a LOCK and reply to it.
fn locked_machines(plan: &Plan, lines: &[Line]) -> [bool; 5]
    ensures { let p = plan.now in let ls = lines.now in result ≡ is_at_primary p ls 0 ∷ is_at_primary p ls 1 ∷ is_at_primary p ls 2 ∷ is_at_primary p ls 3 ∷ is_at_primary p ls 4 ∷ [] }
{
    std::array::from_fn(|m| at_primary(plan, lines, m as u8))
}

impl Work {
    // The phase in which a commit begins.
    fn first_phase(&self, plan: &Plan) -> Phase
        ensures { plan.now.machines ≤ 5 → phase_of plan.now self.now result ≡ first_phase plan.now (reads_of self.now) (writes_of self.now) }
    {
        if !self.writes.is_empty() {
            return Phase::Locking(Locking {
                due: 0,
                awaited: locked_machines(plan, self.writes.as_slice()),
                denied: false,
            });
        }
        if self.reads.is_empty() {
            Phase::Idle
        } else {
            Phase::Checking { passed: 0 }
        }
    }

    // A commit of nothing is reported at once.
    fn first_outcome(&self) -> Outcome
        ensures { result ≡ first_outcome (reads_of self.now) (writes_of self.now) }
    {
        if self.reads.is_empty() && self.writes.is_empty() {
            Outcome::Committed
        } else {
            Outcome::Going
        }
    }

    // The transaction as its commit begins.
    fn begin_commit(&mut self, plan: &Plan, next: Option<u64>)
        ensures { let p = plan.now in let rs = reads_of self.old in let ws = writes_of self.old in (p.machines ≤ 5 → StandsFor p self.new (first_phase p rs ws) (next_of next) rs ws) }
    {
        self.phase = self.first_phase(plan);
        self.next = next;
    }
}

impl Coordinator {
    // The log of machine m has room for all that the commit writes there.
    fn has_room_at(&self, plan: &Plan, c: u8, records: &[Record], m: u8) -> bool
        requires machines { plan.now.machines ≤ 5 }
        requires c { c < plan.now.coordinators }
        requires m { m < plan.now.machines }
        requires records { plan.now.coordinators * plan.now.machines * plan.now.capacity ≤ length records.now }
        ensures { Rings plan.now self.now → result ≡ roomy_at plan.now c self.now records.now m }
    {
        let capacity = plan.capacity as usize;
        let log = Log {
            ring: &self.logs[m as usize],
            slots: slots_of(plan, c, m, records, capacity),
        };
        let n = to_write(plan, self.work.writes.as_slice(), m);
        log.has_place(n, capacity)
    }

    // Every log has room for the commit.
    fn has_room(&self, plan: &Plan, c: u8, records: &[Record]) -> bool
        requires machines { plan.now.machines ≤ 5 }
        requires c { c < plan.now.coordinators }
        requires records { plan.now.coordinators * plan.now.machines * plan.now.capacity ≤ length records.now }
        ensures { Rings plan.now self.now → result ≡ list_all (roomy_at plan.now c self.now records.now) (machine_list plan.now) }
    {
        (0..plan.machines).all(|m| self.has_room_at(plan, c, records, m))
    }
}

// Answers the coordinator's next transaction number; what was written is then locked, else what was read is checked.
pub fn commit<P: Memory, F: Memory, S: Memory>(
    plan: &Plan,
    coordinators: &mut [Coordinator],
    records: &[Record],
    replies: &[Reply],
    primaries: &P,
    firsts: &F,
    seconds: &S,
    c: u8,
) -> Result<Answer, Refusal>
    ensures { let was = world coordinators.old records.now replies.now (P.Memory.words primaries.now) (F.Memory.words firsts.now) (S.Memory.words seconds.now) in
        let after = world coordinators.new records.now replies.now (P.Memory.words primaries.now) (F.Memory.words firsts.now) (S.Memory.words seconds.now) in
        Does plan.now was after result (Commit c) }
{
    admit(
        plan,
        coordinators,
        records,
        replies,
        primaries,
        firsts,
        seconds,
        c,
    )?;
    let own = &coordinators[c as usize];
    let Phase::Open = own.work.phase else {
        return Err(Refusal::WrongPhase);
    };
    let Some(number) = own.work.next else {
        return Err(Refusal::UsedUp);
    };
    let next = after(number);
    let true = own.has_room(plan, c, records) else {
        return Err(Refusal::NoRoom);
    };
    let outcome = own.work.first_outcome();
    coordinators[c as usize].work.begin_commit(plan, next);
    Ok(Answer::new(number, 0, outcome))
}
