// What a coordinator sends next, and how its transaction goes on from there.
ghost use Rattle.std.specs.Prelude.{◌≡◌, pred, ◌<◌};
ghost use Rattle.protocol.specs.Record.{note};
ghost use Rattle.handling.specs.Sending.{due_from, first_machine, OfPlan, InEightRegions, record_of};
ghost use Rattle.directory.specs.View.{next_of, writes_of};
ghost use Rattle.directory.specs.Due.{due_in, IsNext, reports, GoesOn, GoneOn};

use crate::tables::{Phase, Work};
use handling::records::{next_due, record_for};
use protocol::call::{Outcome, Refusal};
use protocol::plan::Plan;
use protocol::record::{Kind, Record};

impl Work {
    // The kind of the records that are sent in this phase, and the first machine that may still be due one.
    fn due(&self) -> Option<(Kind, u8)>
        ensures { result ≡ due_in self.now.phase }
    {
        match self.phase {
            Phase::Locking(locking) => Some((Kind::Lock, locking.due)),
            Phase::Backing { due } => Some((Kind::CommitBackup, due)),
            Phase::Installing { due, .. } => Some((Kind::CommitPrimary, due)),
            Phase::Aborting { due } => Some((Kind::Abort, due)),
            Phase::Idle | Phase::Open | Phase::Checking { .. } => None,
        }
    }

    // The lowest machine from `from` on that a record of that kind is due to.
    #[tactic(auto, using(handling::proofs::Due::found_first))]
    fn machine_due(&self, plan: &Plan, kind: Kind, from: u8) -> Option<u8>
        ensures lowest { result ≡ first_machine (due_from plan.now kind (writes_of self.now) from) }
        ensures within { OfPlan plan.now result }
    {
        next_due(plan, kind, from, self.writes.as_slice())
    }

    // The kind of the next record and its machine, the lowest that is still due one.
    pub(crate) fn next_record(&self, plan: &Plan) -> Result<(Kind, u8), Refusal>
        ensures { IsNext plan.now self.now result }
    {
        let Some((kind, from)) = self.due() else {
            return Err(Refusal::WrongPhase);
        };
        let Some(m) = self.machine_due(plan, kind, from) else {
            return Err(Refusal::Nothing);
        };
        Ok((kind, m))
    }

    // The last number given: all are where there is no next one.
    pub(crate) fn last_given(&self) -> u64
        ensures { result ≡ pred (next_of self.now.next) }
    {
        self.next.map_or(u64::MAX, |next| next.saturating_sub(1))
    }

    // The record of that kind for machine m.
    pub(crate) fn record_due(&self, plan: &Plan, c: u8, kind: Kind, m: u8) -> Record
        ensures { InEightRegions (writes_of self.now) → note result ≡ record_of plan.now c (pred (next_of self.now.next)) kind m (writes_of self.now) }
    {
        record_for(plan, c, self.last_given(), kind, m, self.writes.as_slice())
    }

    // What the next record reports: the first COMMIT-PRIMARY the commit, any other nothing.
    fn outcome(&self) -> Outcome
        ensures { result ≡ reports self.now.phase }
    {
        match self.phase {
            Phase::Installing {
                reported: false,
                ..
            } => Outcome::Committed,
            _ => Outcome::Going,
        }
    }

    // The phase with records due to the machines from `due` on, or after the last the phase that follows.
    fn phase_from(&self, plan: &Plan, due: u8) -> Phase
        ensures { GoesOn plan.now self.now due result }
    {
        match self.phase {
            Phase::Locking(locking) => {
                // a field of a copy, since a struct with a ghost field has no literal with the rest of another
                let mut locking = locking;
                locking.due = due;
                Phase::Locking(locking)
            }
            Phase::Backing { .. } => match self.machine_due(plan, Kind::CommitBackup, due) {
                Some(_) => Phase::Backing { due },
                None => Phase::Installing {
                    due: 0,
                    reported: false,
                },
            },
            Phase::Installing { .. } => match self.machine_due(plan, Kind::CommitPrimary, due) {
                Some(_) => Phase::Installing {
                    due,
                    reported: true,
                },
                None => Phase::Idle,
            },
            Phase::Aborting { .. } => match self.machine_due(plan, Kind::Abort, due) {
                Some(_) => Phase::Aborting { due },
                None => Phase::Idle,
            },
            phase => phase,
        }
    }

    // Machine m has its record: on to the next that is due one, or after the last to the next phase. Answers what this reports.
    pub(crate) fn go_on(&mut self, plan: &Plan, m: u8) -> Outcome
        requires { m < 5 }
        ensures reports { result ≡ reports self.old.phase }
        ensures stands { GoneOn plan.now self.old m self.new }
    {
        let outcome = self.outcome();
        self.phase = self.phase_from(plan, m + 1);
        outcome
    }
}
