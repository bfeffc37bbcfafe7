// A transaction from its open to its commit.
ghost use Rattle.std.specs.Prelude.{◌≡◌, IfOk, IfErr};
ghost use Rattle.protocol.specs.declared.call.Call.TheVariants.{Open, Read, Write, Abandon};
ghost use Rattle.protocol.specs.Coordinator.{Opened, is_idle};
ghost use Rattle.directory.specs.View.{view};
ghost use Rattle.service.specs.Owned.{plan_of, owned};
ghost use Rattle.tickets.specs.Answers.{opened, abandoned, given_up, committed};
ghost use Rattle.directory.specs.Sound.{Sound};
ghost use Rattle.directory.specs.Calls.{Does};
ghost use Rattle.tickets.specs.Holding.{draft_coordinator};
ghost use Rattle.tickets.specs.Standing.{phase_at, IsOpen, StaysOpen, DraftEnds};
ghost use Rattle.tickets.specs.Promises.{Commits};

use crate::filing::{Filing, Progress};
use memory::interface::Memory;
use memory::make::Rejected;
use protocol::call::{Answer, Outcome, Refusal};
use service::owner::Directory;

// The ticket of an open transaction. Its number is its coordinator.
pub struct Draft {
    coordinator: u8,
}

impl Draft {
    // Starts a transaction.
    pub fn open<P: Memory, F: Memory, S: Memory>(
        directory: &mut Directory<P, F, S>,
        c: u8,
    ) -> Result<Draft, Refusal>
        ensures does { Does (plan_of directory.old) (owned P.Memory.words F.Memory.words S.Memory.words directory.old) (owned P.Memory.words F.Memory.words S.Memory.words directory.new) (opened result) (Open c) }
        ensures number { IfOk result (λ d. draft_coordinator d ≡ c) }
        ensures stands { Sound (plan_of directory.old) (owned P.Memory.words F.Memory.words S.Memory.words directory.old) → IfOk result (λ _. phase_at (view (plan_of directory.old) (owned P.Memory.words F.Memory.words S.Memory.words directory.new)) c ≡ Opened) }
        ensures plan { plan_of directory.new ≡ plan_of directory.old }
    {
        directory.open(c)?;
        Ok(Draft { coordinator: c })
    }

    // Answers version and value of a word.
    pub fn read<P: Memory, F: Memory, S: Memory>(
        &self,
        directory: &mut Directory<P, F, S>,
        address: u16,
    ) -> Result<Answer, Refusal>
        ensures does { Does (plan_of directory.old) (owned P.Memory.words F.Memory.words S.Memory.words directory.old) (owned P.Memory.words F.Memory.words S.Memory.words directory.new) result (Read (draft_coordinator self.now) address) }
        ensures stands { StaysOpen (plan_of directory.old) (owned P.Memory.words F.Memory.words S.Memory.words directory.old) (owned P.Memory.words F.Memory.words S.Memory.words directory.new) self.now }
        ensures plan { plan_of directory.new ≡ plan_of directory.old }
    {
        directory.read(self.coordinator, address)
    }

    // Buffers a value for a word that was read.
    pub fn write<P: Memory, F: Memory, S: Memory>(
        &self,
        directory: &mut Directory<P, F, S>,
        address: u16,
        value: u64,
    ) -> Result<Answer, Refusal>
        ensures does { Does (plan_of directory.old) (owned P.Memory.words F.Memory.words S.Memory.words directory.old) (owned P.Memory.words F.Memory.words S.Memory.words directory.new) result (Write (draft_coordinator self.now) address value) }
        ensures stands { StaysOpen (plan_of directory.old) (owned P.Memory.words F.Memory.words S.Memory.words directory.old) (owned P.Memory.words F.Memory.words S.Memory.words directory.new) self.now }
        ensures plan { plan_of directory.new ≡ plan_of directory.old }
    {
        directory.write(self.coordinator, address, value)
    }

    // Gives the transaction up.
    pub fn abandon<P: Memory, F: Memory, S: Memory>(
        self,
        directory: &mut Directory<P, F, S>,
    ) -> Result<Outcome, Rejected<Refusal, Draft>>
        ensures does { Does (plan_of directory.old) (owned P.Memory.words F.Memory.words S.Memory.words directory.old) (owned P.Memory.words F.Memory.words S.Memory.words directory.new) (abandoned result) (Abandon (draft_coordinator self)) }
        ensures handed_back { IfErr result (λ h. h.given ≡ self) }
        ensures ends { Sound (plan_of directory.old) (owned P.Memory.words F.Memory.words S.Memory.words directory.old) → IsOpen (view (plan_of directory.old) (owned P.Memory.words F.Memory.words S.Memory.words directory.old)) self → DraftEnds (view (plan_of directory.old) (owned P.Memory.words F.Memory.words S.Memory.words directory.new)) (draft_coordinator self) result }
        ensures plan { plan_of directory.new ≡ plan_of directory.old }
    {
        let answer = directory.abandon(self.coordinator);
        self.given_up(answer)
    }

    // Begins the commit: the draft is used up, and a filing takes its place.
    #[tactic(auto, using(crate::proofs::Keeping::keeping))]
    pub fn commit<P: Memory, F: Memory, S: Memory>(
        self,
        directory: &mut Directory<P, F, S>,
    ) -> Result<Progress, Rejected<Refusal, Draft>>
        ensures commits { Commits (plan_of directory.old) (owned P.Memory.words F.Memory.words S.Memory.words directory.old) (owned P.Memory.words F.Memory.words S.Memory.words directory.new) self result }
        ensures plan { plan_of directory.new ≡ plan_of directory.old }
    {
        let answer = directory.commit(self.coordinator);
        self.committed(directory, answer)
    }

    // Lets a directory go, and with it the transaction that the draft stood for: its coordinator.
    pub fn close<P: Drop, F: Drop, S: Drop>(self, _directory: Directory<P, F, S>) -> u8
        ensures { result ≡ draft_coordinator self }
    {
        let Draft { coordinator: left } = self;
        left
    }

    // What an abandon leaves: the outcome alone, or the draft that was refused.
    fn given_up(self, answer: Result<Answer, Refusal>) -> Result<Outcome, Rejected<Refusal, Draft>>
        ensures { result ≡ given_up self answer }
    {
        match answer {
            Ok(answer) => {
                let Draft { coordinator: _ } = self;
                Ok(answer.outcome)
            }
            Err(error) => Err(Rejected { error, given: self }),
        }
    }

    // What a commit leaves: a filing or the outcome, or the draft that was refused.
    fn committed<P: Memory, F: Memory, S: Memory>(
        self,
        directory: &Directory<P, F, S>,
        answer: Result<Answer, Refusal>,
    ) -> Result<Progress, Rejected<Refusal, Draft>>
        ensures { let after = view (plan_of directory.now) (owned P.Memory.words F.Memory.words S.Memory.words directory.now) in
            result ≡ committed self (is_idle (after.coordinators (draft_coordinator self)).phase) answer }
    {
        match answer {
            Ok(answer) => {
                let Draft { coordinator } = self;
                Ok(Filing::new(coordinator).after(directory, answer))
            }
            Err(error) => Err(Rejected { error, given: self }),
        }
    }
}
