// Looking through a log.
ghost use Rattle.std.specs.Prelude.{◌≡◌, length, take};
ghost use Rattle.std.specs.List.{find};
ghost use Rattle.ring.specs.Contents.{Sound, contents};
ghost use Rattle.ring.specs.Left.{left};
ghost use Rattle.protocol.specs.LineVec.{listed};
ghost use Rattle.protocol.specs.declared.record.Kind.TheVariants.{Truncate};
ghost use Rattle.protocol.specs.Record.{note, kind_eq, is_untrimmed};
ghost use Rattle.protocol.specs.Poll.{is_lock_of, locked_lines};
ghost use Rattle.handling.specs.Notes.{notes, polled, noted, NextIs};

use protocol::lines::LineVec;
use protocol::record::{Kind, Record};
use ring::{Entries, Ring};

// A log: its ring, and the slots that its records lie in. That the ring is sound is a premise of what the methods promise and
// not a ghost field, since a call returns on any tables that it is lent.
#[derive(Clone, Copy)]
pub struct Log<'a> {
    pub ring: &'a Ring,
    pub slots: &'a [Record],
}

impl<'a> Log<'a> {
    // The record i places after the front.
    pub(crate) fn record(&self, i: usize) -> Option<Record>
        ensures { Sound self.now.ring.now (length self.now.slots.now) → NextIs (notes self.now.ring.now self.now.slots.now) i result }
    {
        self.ring.peek(self.slots, i)
    }

    // The polled records, from the oldest on.
    pub(crate) fn polled(&self) -> Entries<'a, Record>
        ensures { Sound self.now.ring.now (length self.now.slots.now) → left result ≡ take self.now.ring.now.cursor (contents self.now.ring.now self.now.slots.now) }
    {
        self.ring.polled(self.slots)
    }

    // The next record to be polled.
    pub fn next(&self) -> Option<Record>
        ensures { Sound self.now.ring.now (length self.now.slots.now) → NextIs (notes self.now.ring.now self.now.slots.now) self.now.ring.now.cursor result }
    {
        self.record(self.ring.cursor)
    }

    // The LOCK of a transaction: the newest with its number among the polled records.
    pub fn find_lock(&self, number: u64) -> Option<Record>
        ensures { Sound self.now.ring.now (length self.now.slots.now) → noted result ≡ find (is_lock_of number) (polled self.now.ring.now self.now.slots.now) }
    {
        self.polled()
            .rev()
            .find(|entry| is_lock_of(entry, number))
            .copied()
    }

    // The lines of that LOCK.
    pub fn locked_lines(&self, number: u64) -> LineVec<4>
        ensures { Sound self.now.ring.now (length self.now.slots.now) → listed result ≡ locked_lines number (polled self.now.ring.now self.now.slots.now) }
    {
        self.find_lock(number)
            .map_or(LineVec::new(), |entry| entry.lines)
    }

    // The last record is no TRUNCATE.
    pub fn is_untrimmed(&self) -> bool
        ensures { Sound self.now.ring.now (length self.now.slots.now) → result ≡ is_untrimmed (notes self.now.ring.now self.now.slots.now) }
    {
        let Some(last) = self.ring.entries(self.slots).next_back() else {
            return false;
        };
        !is_truncate(last)
    }
}

fn is_lock_of(entry: &Record, number: u64) -> bool
    ensures { result ≡ is_lock_of number (note entry.now) }
{
    entry.kind == Kind::Lock && entry.number == number
}

fn is_truncate(entry: &Record) -> bool
    ensures { result ≡ kind_eq (note entry.now).kind Truncate }
{
    entry.kind == Kind::Truncate
}
