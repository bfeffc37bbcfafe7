// How a transaction goes on after a reply and after a check. A plan of at most five machines is asked for, as in commit.rt.
ghost use Rattle.std.specs.Prelude.{◌≡◌, ◌<◌, ◌≤◌, not, is_some};
ghost use Rattle.std.specs.List.{list_all};
ghost use Rattle.protocol.specs.Lists.{is_empty};
ghost use Rattle.protocol.specs.Coordinator.{line_at};
ghost use Rattle.directory.specs.View.{writes_of, awaited_of};
ghost use Rattle.directory.specs.Progress.{NextUnwritten, ChecksFrom, Came, AfterReply, AfterCheck};

use crate::tables::{Locking, Phase, Work};
use protocol::call::Outcome;
use protocol::plan::Plan;
use protocol::record::Line;

// No flag is up.
fn all_down(flags: &[bool]) -> bool
    ensures { result ≡ list_all not flags.now }
{
    flags.iter().all(|flag| !*flag)
}

impl Locking {
    // The reply of machine m came.
    pub(crate) fn replied(mut self, m: u8, yes: bool) -> Locking
        requires { m < 5 }
        ensures { Came self m yes result }
    {
        self.awaited[m as usize] = false;
        self.denied |= !yes;
        self
    }

    // No reply is awaited any more.
    fn all_came(&self, plan: &Plan) -> bool
        requires { plan.now.machines ≤ 5 }
        ensures { result ≡ is_empty (awaited_of plan.now self.now) }
    {
        let count = plan.machines as usize;
        all_down(&self.awaited[0..count])
    }
}

impl Work {
    // The next word to check behind the first `passed` reads, one that was not written, with the number of reads up to it.
    // At most eight words are read, so the numbers do not run out.
    pub(crate) fn next_unwritten(&self, passed: u8) -> Option<(u8, Line)>
        ensures { NextUnwritten self.now passed result }
    {
        let left = self.reads.as_slice().get(passed as usize..)?;
        (passed + 1..)
            .zip(left.iter().copied())
            .find(|(_, line)| !self.is_written(line.address))
    }

    // The words read and not written are checked, and where there are none the backups are due.
    fn checks(&self) -> Phase
        ensures { ChecksFrom self.now result }
    {
        match self.next_unwritten(0) {
            Some(_) => Phase::Checking { passed: 0 },
            None => Phase::Backing { due: 0 },
        }
    }

    // A machine replied, and `locking` is what is left to come. After the last reply a no aborts; else the words read and not
    // written are checked.
    pub(crate) fn note_reply(&mut self, plan: &Plan, locking: Locking) -> Outcome
        requires { plan.now.machines ≤ 5 }
        ensures { AfterReply plan.now self.old locking self.new result }
    {
        if !locking.all_came(plan) {
            self.phase = Phase::Locking(locking);
            return Outcome::Going;
        }
        if locking.denied {
            self.phase = Phase::Aborting { due: 0 };
            return Outcome::Aborted;
        }
        self.phase = self.checks();
        Outcome::Going
    }

    // The next word to check, the last of the first `count` reads, was looked at. One that is not current aborts; after the last
    // that is, the backups are due, and a transaction that wrote nothing is committed.
    pub(crate) fn note_check(&mut self, count: u8, current: bool) -> Outcome
        ensures { AfterCheck self.old count current self.new result }
    {
        if !current {
            self.phase = if self.writes.is_empty() {
                Phase::Idle
            } else {
                Phase::Aborting { due: 0 }
            };
            return Outcome::Aborted;
        }
        if let Some(_) = self.next_unwritten(count) {
            self.phase = Phase::Checking { passed: count };
            return Outcome::Going;
        }
        if self.writes.is_empty() {
            self.phase = Phase::Idle;
            return Outcome::Committed;
        }
        self.phase = Phase::Backing { due: 0 };
        Outcome::Going
    }
}
