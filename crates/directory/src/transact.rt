// The calls of an open transaction: open, read, write and abandon.
ghost use Rattle.protocol.specs.declared.call.Call.TheVariants.{Open, Read, Write, Abandon};
ghost use Rattle.directory.specs.View.{world};
ghost use Rattle.directory.specs.Calls.{Does};

use crate::checks::admit;
use crate::tables::{Coordinator, Phase};
use memory::interface::Memory;
use protocol::call::{Answer, Outcome, Refusal};
use protocol::plan::Plan;
use protocol::record::{Line, Record, Reply};

// Starts a transaction of an idle coordinator.
pub fn open<P: Memory, F: Memory, S: Memory>(
    plan: &Plan,
    coordinators: &mut [Coordinator],
    records: &[Record],
    replies: &[Reply],
    primaries: &P,
    firsts: &F,
    seconds: &S,
    c: u8,
) -> Result<Answer, Refusal>
    ensures { let was = world coordinators.old records.now replies.now (P.Memory.words primaries.now) (F.Memory.words firsts.now) (S.Memory.words seconds.now) in
        let after = world coordinators.new records.now replies.now (P.Memory.words primaries.now) (F.Memory.words firsts.now) (S.Memory.words seconds.now) in
        Does plan.now was after result (Open c) }
{
    admit(
        plan,
        coordinators,
        records,
        replies,
        primaries,
        firsts,
        seconds,
        c,
    )?;
    let own = &coordinators[c as usize];
    let Phase::Idle = own.work.phase else {
        return Err(Refusal::WrongPhase);
    };
    coordinators[c as usize].work.begin();
    Ok(Answer::new(0, 0, Outcome::Going))
}

// Answers version and value of a word: as recorded where it was read before, with the value last written, else as the primary memory has it.
pub fn read<P: Memory, F: Memory, S: Memory>(
    plan: &Plan,
    coordinators: &mut [Coordinator],
    records: &[Record],
    replies: &[Reply],
    primaries: &P,
    firsts: &F,
    seconds: &S,
    c: u8,
    address: u16,
) -> Result<Answer, Refusal>
    ensures { let was = world coordinators.old records.now replies.now (P.Memory.words primaries.now) (F.Memory.words firsts.now) (S.Memory.words seconds.now) in
        let after = world coordinators.new records.now replies.now (P.Memory.words primaries.now) (F.Memory.words firsts.now) (S.Memory.words seconds.now) in
        Does plan.now was after result (Read c address) }
{
    admit(
        plan,
        coordinators,
        records,
        replies,
        primaries,
        firsts,
        seconds,
        c,
    )?;
    let own = &coordinators[c as usize];
    let Phase::Open = own.work.phase else {
        return Err(Refusal::WrongPhase);
    };
    let true = (address as usize) < plan.size() else {
        return Err(Refusal::NoAddress);
    };
    if let Some(line) = own.work.reads.find(address) {
        let value = own.work.value_of(line, address);
        return Ok(Answer::new(line.version, value, Outcome::Going));
    }
    let line = own.work.look_up(primaries, address)?;
    coordinators[c as usize].work.note_read(line);
    Ok(Answer::new(line.version, line.value, Outcome::Going))
}

// Buffers a value for a word that was read.
pub fn write<P: Memory, F: Memory, S: Memory>(
    plan: &Plan,
    coordinators: &mut [Coordinator],
    records: &[Record],
    replies: &[Reply],
    primaries: &P,
    firsts: &F,
    seconds: &S,
    c: u8,
    address: u16,
    value: u64,
) -> Result<Answer, Refusal>
    ensures { let was = world coordinators.old records.now replies.now (P.Memory.words primaries.now) (F.Memory.words firsts.now) (S.Memory.words seconds.now) in
        let after = world coordinators.new records.now replies.now (P.Memory.words primaries.now) (F.Memory.words firsts.now) (S.Memory.words seconds.now) in
        Does plan.now was after result (Write c address value) }
{
    admit(
        plan,
        coordinators,
        records,
        replies,
        primaries,
        firsts,
        seconds,
        c,
    )?;
    let own = &coordinators[c as usize];
    let Phase::Open = own.work.phase else {
        return Err(Refusal::WrongPhase);
    };
    let true = (address as usize) < plan.size() else {
        return Err(Refusal::NoAddress);
    };
    let line = own.work.may_write(address)?;
    let own = &mut coordinators[c as usize];
    own.work.note_write(Line { value, ..line });
    Ok(Answer::new(0, 0, Outcome::Going))
}

// Gives the transaction up: an abort is reported, and the coordinator is idle.
pub fn abandon<P: Memory, F: Memory, S: Memory>(
    plan: &Plan,
    coordinators: &mut [Coordinator],
    records: &[Record],
    replies: &[Reply],
    primaries: &P,
    firsts: &F,
    seconds: &S,
    c: u8,
) -> Result<Answer, Refusal>
    ensures { let was = world coordinators.old records.now replies.now (P.Memory.words primaries.now) (F.Memory.words firsts.now) (S.Memory.words seconds.now) in
        let after = world coordinators.new records.now replies.now (P.Memory.words primaries.now) (F.Memory.words firsts.now) (S.Memory.words seconds.now) in
        Does plan.now was after result (Abandon c) }
{
    admit(
        plan,
        coordinators,
        records,
        replies,
        primaries,
        firsts,
        seconds,
        c,
    )?;
    let own = &coordinators[c as usize];
    let Phase::Open = own.work.phase else {
        return Err(Refusal::WrongPhase);
    };
    coordinators[c as usize].work.rest();
    Ok(Answer::new(0, 0, Outcome::Aborted))
}
