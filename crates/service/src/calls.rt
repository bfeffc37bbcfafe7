// The calls of a directory that owns what they are made on. Each hands on its parts, as `&mut` only those that the call changes.
// That the plan stays is a clause of each: no type can say it of a field that is handed on.
ghost use Rattle.std.specs.Prelude.{◌≡◌};
ghost use Rattle.protocol.specs.declared.call.Call.TheVariants.{Open, Read, Write, Abandon, Commit, Send, Poll, Take, Check, Trim};
ghost use Rattle.directory.specs.Calls.{Does};
ghost use Rattle.service.specs.Owned.{plan_of, owned};

use crate::owner::Directory;
use directory::{check, commit, poll, send, take, transact, trim};
use memory::interface::Memory;
use protocol::call::{Answer, Call, Refusal};

impl<P: Memory, F: Memory, S: Memory> Directory<P, F, S> {
    // Starts a transaction.
    pub fn open(&mut self, c: u8) -> Result<Answer, Refusal>
        ensures does { Does (plan_of self.old) (owned P.Memory.words F.Memory.words S.Memory.words self.old) (owned P.Memory.words F.Memory.words S.Memory.words self.new) result (Open c) }
        ensures plan { plan_of self.new ≡ plan_of self.old }
    {
        transact::open(
            &self.plan,
            &mut self.tables.coordinators,
            &self.tables.records,
            &self.tables.replies,
            &self.primaries,
            &self.firsts,
            &self.seconds,
            c,
        )
    }

    // Answers version and value of a word.
    pub fn read(&mut self, c: u8, address: u16) -> Result<Answer, Refusal>
        ensures does { Does (plan_of self.old) (owned P.Memory.words F.Memory.words S.Memory.words self.old) (owned P.Memory.words F.Memory.words S.Memory.words self.new) result (Read c address) }
        ensures plan { plan_of self.new ≡ plan_of self.old }
    {
        transact::read(
            &self.plan,
            &mut self.tables.coordinators,
            &self.tables.records,
            &self.tables.replies,
            &self.primaries,
            &self.firsts,
            &self.seconds,
            c,
            address,
        )
    }

    // Buffers a value for a word that was read.
    pub fn write(&mut self, c: u8, address: u16, value: u64) -> Result<Answer, Refusal>
        ensures does { Does (plan_of self.old) (owned P.Memory.words F.Memory.words S.Memory.words self.old) (owned P.Memory.words F.Memory.words S.Memory.words self.new) result (Write c address value) }
        ensures plan { plan_of self.new ≡ plan_of self.old }
    {
        transact::write(
            &self.plan,
            &mut self.tables.coordinators,
            &self.tables.records,
            &self.tables.replies,
            &self.primaries,
            &self.firsts,
            &self.seconds,
            c,
            address,
            value,
        )
    }

    // Gives the transaction up.
    pub fn abandon(&mut self, c: u8) -> Result<Answer, Refusal>
        ensures does { Does (plan_of self.old) (owned P.Memory.words F.Memory.words S.Memory.words self.old) (owned P.Memory.words F.Memory.words S.Memory.words self.new) result (Abandon c) }
        ensures plan { plan_of self.new ≡ plan_of self.old }
    {
        transact::abandon(
            &self.plan,
            &mut self.tables.coordinators,
            &self.tables.records,
            &self.tables.replies,
            &self.primaries,
            &self.firsts,
            &self.seconds,
            c,
        )
    }

    // Begins the commit, and answers its number.
    pub fn commit(&mut self, c: u8) -> Result<Answer, Refusal>
        ensures does { Does (plan_of self.old) (owned P.Memory.words F.Memory.words S.Memory.words self.old) (owned P.Memory.words F.Memory.words S.Memory.words self.new) result (Commit c) }
        ensures plan { plan_of self.new ≡ plan_of self.old }
    {
        commit::commit(
            &self.plan,
            &mut self.tables.coordinators,
            &self.tables.records,
            &self.tables.replies,
            &self.primaries,
            &self.firsts,
            &self.seconds,
            c,
        )
    }

    // Writes the next record that is due, and answers its machine and kind.
    pub fn send(&mut self, c: u8) -> Result<Answer, Refusal>
        ensures does { Does (plan_of self.old) (owned P.Memory.words F.Memory.words S.Memory.words self.old) (owned P.Memory.words F.Memory.words S.Memory.words self.new) result (Send c) }
        ensures plan { plan_of self.new ≡ plan_of self.old }
    {
        send::send(
            &self.plan,
            &mut self.tables.coordinators,
            &mut self.tables.records,
            &self.tables.replies,
            &self.primaries,
            &self.firsts,
            &self.seconds,
            c,
        )
    }

    // Handles the next record of a log, and answers its kind and count.
    pub fn poll(&mut self, c: u8, m: u8) -> Result<Answer, Refusal>
        ensures does { Does (plan_of self.old) (owned P.Memory.words F.Memory.words S.Memory.words self.old) (owned P.Memory.words F.Memory.words S.Memory.words self.new) result (Poll c m) }
        ensures plan { plan_of self.new ≡ plan_of self.old }
    {
        poll::poll(
            &self.plan,
            &mut self.tables.coordinators,
            &self.tables.records,
            &mut self.tables.replies,
            &mut self.primaries,
            &mut self.firsts,
            &mut self.seconds,
            c,
            m,
        )
    }

    // Takes a machine's reply, and answers 1 or 0.
    pub fn take(&mut self, c: u8, m: u8) -> Result<Answer, Refusal>
        ensures does { Does (plan_of self.old) (owned P.Memory.words F.Memory.words S.Memory.words self.old) (owned P.Memory.words F.Memory.words S.Memory.words self.new) result (Take c m) }
        ensures plan { plan_of self.new ≡ plan_of self.old }
    {
        take::take(
            &self.plan,
            &mut self.tables.coordinators,
            &self.tables.records,
            &self.tables.replies,
            &self.primaries,
            &self.firsts,
            &self.seconds,
            c,
            m,
        )
    }

    // Checks the next word read and not written, and answers its address and 1 or 0.
    pub fn check(&mut self, c: u8) -> Result<Answer, Refusal>
        ensures does { Does (plan_of self.old) (owned P.Memory.words F.Memory.words S.Memory.words self.old) (owned P.Memory.words F.Memory.words S.Memory.words self.new) result (Check c) }
        ensures plan { plan_of self.new ≡ plan_of self.old }
    {
        check::check(
            &self.plan,
            &mut self.tables.coordinators,
            &self.tables.records,
            &self.tables.replies,
            &self.primaries,
            &self.firsts,
            &self.seconds,
            c,
        )
    }

    // Writes a TRUNCATE, and answers its number.
    pub fn trim(&mut self, c: u8, m: u8) -> Result<Answer, Refusal>
        ensures does { Does (plan_of self.old) (owned P.Memory.words F.Memory.words S.Memory.words self.old) (owned P.Memory.words F.Memory.words S.Memory.words self.new) result (Trim c m) }
        ensures plan { plan_of self.new ≡ plan_of self.old }
    {
        trim::trim(
            &self.plan,
            &mut self.tables.coordinators,
            &mut self.tables.records,
            &self.tables.replies,
            &self.primaries,
            &self.firsts,
            &self.seconds,
            c,
            m,
        )
    }

    // Makes a call.
    pub fn call(&mut self, call: Call) -> Result<Answer, Refusal>
        ensures does { Does (plan_of self.old) (owned P.Memory.words F.Memory.words S.Memory.words self.old) (owned P.Memory.words F.Memory.words S.Memory.words self.new) result call }
        ensures plan { plan_of self.new ≡ plan_of self.old }
    {
        match call {
            Call::Open(c) => self.open(c),
            Call::Read(c, address) => self.read(c, address),
            Call::Write(c, address, value) => self.write(c, address, value),
            Call::Abandon(c) => self.abandon(c),
            Call::Commit(c) => self.commit(c),
            Call::Send(c) => self.send(c),
            Call::Poll(c, m) => self.poll(c, m),
            Call::Take(c, m) => self.take(c, m),
            Call::Check(c) => self.check(c),
            Call::Trim(c, m) => self.trim(c, m),
        }
    }
}
