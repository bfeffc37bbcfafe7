// A transaction from its commit to its end.
ghost use Rattle.std.specs.Prelude.{◌≡◌};
ghost use Rattle.protocol.specs.declared.call.Outcome.TheVariants.{Going};
ghost use Rattle.protocol.specs.declared.call.Call.TheVariants.{Send, Take, Check};
ghost use Rattle.protocol.specs.Coordinator.{is_idle};
ghost use Rattle.directory.specs.View.{view};
ghost use Rattle.service.specs.Owned.{plan_of, owned};
ghost use Rattle.tickets.specs.Answers.{latest, progress, carried};
ghost use Rattle.tickets.specs.Holding.{filing_coordinator, filing_reported};
ghost use Rattle.tickets.specs.Promises.{Carries};

use memory::interface::Memory;
use memory::make::Rejected;
use protocol::call::{Answer, Outcome, Refusal};
use service::owner::Directory;

// The ticket of a transaction whose commit was accepted. Its number is its coordinator, and it remembers whether a commit or an
// abort was reported while records are still due.
pub struct Filing {
    coordinator: u8,
    reported: Outcome,
}

// What an accepted call leaves: the ticket, beside what the call answered, or once the coordinator is idle the outcome alone.
pub enum Progress {
    GoesOn(Filing, Answer),
    Ended(Outcome),
}

// What is reported of a transaction, once a call has this outcome.
fn latest(reported: Outcome, outcome: Outcome) -> Outcome
    ensures { result ≡ latest reported outcome }
{
    match outcome {
        Outcome::Going => reported,
        told => told,
    }
}

impl Filing {
    // Of a transaction whose commit is being accepted: nothing is reported yet.
    pub(crate) fn new(coordinator: u8) -> Filing
        ensures coordinator { filing_coordinator result ≡ coordinator }
        ensures reported { filing_reported result ≡ Going }
    {
        Filing {
            coordinator,
            reported: Outcome::Going,
        }
    }

    // What an accepted call leaves.
    pub(crate) fn after<P: Memory, F: Memory, S: Memory>(
        self,
        directory: &Directory<P, F, S>,
        answer: Answer,
    ) -> Progress
        ensures { let after = view (plan_of directory.now) (owned P.Memory.words F.Memory.words S.Memory.words directory.now) in
            result ≡ progress (filing_coordinator self) (filing_reported self) (is_idle (after.coordinators (filing_coordinator self)).phase) answer }
    {
        let Filing {
            coordinator,
            reported,
        } = self;
        let reported = latest(reported, answer.outcome);
        if directory.is_idle(coordinator) {
            Progress::Ended(reported)
        } else {
            Progress::GoesOn(
                Filing {
                    coordinator,
                    reported,
                },
                answer,
            )
        }
    }

    // What a call leaves: a refused one hands the ticket back.
    fn answered<P: Memory, F: Memory, S: Memory>(
        self,
        directory: &Directory<P, F, S>,
        answer: Result<Answer, Refusal>,
    ) -> Result<Progress, Rejected<Refusal, Filing>>
        ensures { let after = view (plan_of directory.now) (owned P.Memory.words F.Memory.words S.Memory.words directory.now) in
            result ≡ carried self (is_idle (after.coordinators (filing_coordinator self)).phase) answer }
    {
        match answer {
            Ok(answer) => Ok(self.after(directory, answer)),
            Err(error) => Err(Rejected { error, given: self }),
        }
    }

    // What was reported of the transaction so far.
    pub fn reported(&self) -> Outcome
        ensures { result ≡ filing_reported self.now }
    {
        self.reported
    }

    // Writes the next record that is due.
    #[tactic(auto, using(crate::proofs::Keeping::keeping))]
    pub fn send<P: Memory, F: Memory, S: Memory>(
        self,
        directory: &mut Directory<P, F, S>,
    ) -> Result<Progress, Rejected<Refusal, Filing>>
        ensures carries { Carries (plan_of directory.old) (owned P.Memory.words F.Memory.words S.Memory.words directory.old) (owned P.Memory.words F.Memory.words S.Memory.words directory.new) self (Send (filing_coordinator self)) result }
        ensures plan { plan_of directory.new ≡ plan_of directory.old }
    {
        let answer = directory.send(self.coordinator);
        self.answered(directory, answer)
    }

    // Takes a machine's reply.
    #[tactic(auto, using(crate::proofs::Keeping::keeping))]
    pub fn take<P: Memory, F: Memory, S: Memory>(
        self,
        directory: &mut Directory<P, F, S>,
        machine: u8,
    ) -> Result<Progress, Rejected<Refusal, Filing>>
        ensures carries { Carries (plan_of directory.old) (owned P.Memory.words F.Memory.words S.Memory.words directory.old) (owned P.Memory.words F.Memory.words S.Memory.words directory.new) self (Take (filing_coordinator self) machine) result }
        ensures plan { plan_of directory.new ≡ plan_of directory.old }
    {
        let answer = directory.take(self.coordinator, machine);
        self.answered(directory, answer)
    }

    // Checks the next word read and not written.
    #[tactic(auto, using(crate::proofs::Keeping::keeping))]
    pub fn check<P: Memory, F: Memory, S: Memory>(
        self,
        directory: &mut Directory<P, F, S>,
    ) -> Result<Progress, Rejected<Refusal, Filing>>
        ensures carries { Carries (plan_of directory.old) (owned P.Memory.words F.Memory.words S.Memory.words directory.old) (owned P.Memory.words F.Memory.words S.Memory.words directory.new) self (Check (filing_coordinator self)) result }
        ensures plan { plan_of directory.new ≡ plan_of directory.old }
    {
        let answer = directory.check(self.coordinator);
        self.answered(directory, answer)
    }

    // Lets a directory go, and with it the transaction that the filing stood for: its coordinator.
    pub fn close<P: Drop, F: Drop, S: Drop>(self, _directory: Directory<P, F, S>) -> u8
        ensures { result ≡ filing_coordinator self }
    {
        let Filing {
            coordinator: left,
            reported: _,
        } = self;
        left
    }
}
