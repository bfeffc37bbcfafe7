// A machine handles the next unpolled record of a log.
ghost use Rattle.std.specs.Prelude.{◌≡◌, ◌+◌, ◌<◌, List, length, drop, Some};
ghost use Rattle.ring.specs.Contents.{Sound, contents};
ghost use Rattle.protocol.specs.declared.record.Record.{Record};
ghost use Rattle.protocol.specs.declared.call.Call.TheVariants.{Poll};
ghost use Rattle.protocol.specs.declared.call.Outcome.TheVariants.{Going};
ghost use Rattle.protocol.specs.Call.{answered};
ghost use Rattle.protocol.specs.Record.{note, number_of};
ghost use Rattle.handling.specs.Notes.{notes, polled, NextIs};
ghost use Rattle.directory.specs.View.{log_of, world};
ghost use Rattle.directory.specs.Polls.{passed_log, replied, Passes};
ghost use Rattle.directory.specs.Calls.{Does};

use crate::checks::{admit, admit_machine};
use crate::slots::{block_of, slots_of};
use crate::tables::Coordinator;
use handling::handle::handle;
use handling::logs::Log;
use memory::interface::Memory;
use protocol::call::{Answer, Outcome, Refusal};
use protocol::plan::Plan;
use protocol::record::{Kind, Record, Reply};
use ring::Ring;

// The log goes on past its next record: a TRUNCATE drops all before it and itself.
fn pass_log(log: &mut Ring, slots: &[Record], kind: Kind)
    ensures stands { Sound log.old (length slots.now) → Sound log.new (length slots.now) }
    ensures after { Sound log.old (length slots.now) → (x : Record) → NextIs (notes log.old slots.now) log.old.cursor (Some x)
        → log_of log.new slots.now ≡ passed_log (polled log.old slots.now) (note x) (drop (log.old.cursor + 1) (notes log.old slots.now)) kind }
{
    match kind {
        Kind::Truncate => {
            let n = log.cursor.saturating_add(1);
            log.drop_front(slots, n);
        }
        _ => {
            log.advance();
        }
    }
}

// What a LOCK is replied to goes into the queue.
fn answer_lock(queue: &mut Ring, slots: &mut [Reply], number: u64, reply: Option<bool>)
    ensures stands { Sound queue.old (length slots.old) → Sound queue.new (length slots.old) }
    ensures after { Sound queue.old (length slots.old) → queue.old.len < length slots.old → contents queue.new slots.new ≡ replied (contents queue.old slots.old) number reply }
{
    if let Some(yes) = reply {
        queue.append(slots, Reply { number, yes });
    }
}

impl Coordinator {
    // The record found is polled: the log of machine m goes on past it, and what a LOCK is replied to is queued.
    fn pass(
        &mut self,
        m: u8,
        slots: &[Record],
        places: &mut [Reply],
        found: &Record,
        reply: Option<bool>,
    )
        requires { m < 5 }
        ensures { Passes m self.old self.new slots.now places.old places.new found.now reply }
    {
        pass_log(&mut self.logs[m as usize], slots, found.kind);
        answer_lock(&mut self.queues[m as usize], places, found.number, reply);
    }
}

// A poll answers the record's kind and a count, and reports nothing.
fn polled(kind: Kind, count: u64) -> Answer
    ensures { result ≡ answered (number_of kind) count Going }
{
    Answer::new(kind.into(), count, Outcome::Going)
}

// Handles the next unpolled record of the pair, and answers its kind and how many lines it locked, put or freed.
pub fn poll<P: Memory, F: Memory, S: Memory>(
    plan: &Plan,
    coordinators: &mut [Coordinator],
    records: &[Record],
    replies: &mut [Reply],
    primaries: &mut P,
    firsts: &mut F,
    seconds: &mut S,
    c: u8,
    m: u8,
) -> Result<Answer, Refusal>
    ensures { let was = world coordinators.old records.now replies.old (P.Memory.words primaries.old) (F.Memory.words firsts.old) (S.Memory.words seconds.old) in
        let after = world coordinators.new records.now replies.new (P.Memory.words primaries.new) (F.Memory.words firsts.new) (S.Memory.words seconds.new) in
        Does plan.now was after result (Poll c m) }
{
    admit(
        plan,
        coordinators,
        records,
        replies,
        primaries,
        firsts,
        seconds,
        c,
    )?;
    admit_machine(plan, m)?;
    let slots = slots_of(plan, c, m, records, plan.capacity as usize);
    let own = &coordinators[c as usize];
    let ring = &own.logs[m as usize];
    let log = Log { ring, slots };
    let Some(found) = log.next() else {
        return Err(Refusal::Nothing);
    };
    let done = handle(plan, c, m, &log, &found, primaries, firsts, seconds);
    let own = &mut coordinators[c as usize];
    let block = block_of(plan, c, m);
    let places = &mut replies[block * 4..block * 4 + 4];
    own.pass(m, slots, places, &found, done.reply);
    Ok(polled(found.kind, done.count))
}
