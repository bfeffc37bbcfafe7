// What an entry's bytes stand for.
ghost use Rattle.std.specs.Prelude.{◌≡◌, ◌+◌, ◌*◌, ◌<◌, ◌≤◌, length, IfOk, Some};
ghost use Rattle.std.specs.List.{slice_get};
ghost use Rattle.protocol.specs.declared.call.Call.TheVariants.{Read, Write};
ghost use Rattle.steps.specs.Bytes.{eight_at};
ghost use Rattle.steps.specs.Encoding.{EncodesBack};
ghost use Rattle.steps.specs.Kinds.{kind_number};
ghost use Rattle.steps.specs.Entries.{coordinator, machine, address, value, regions, home, homes, plan, sized, steps, is_in_order, decoded};

use crate::fault::EntryFault;
use crate::frame::FIRST_PLACE;
use crate::kind::EntryKind;
use protocol::call::Call;
use protocol::plan::{Home, Plan};

// What an entry asks for: a directory to be set up, or a call to be made.
#[derive(Clone, Copy, Debug, PartialEq, Eq)]
pub enum Step {
    SetUp(Plan),
    Call(Call),
}

// The functions below answer none where the entry has another length than theirs.
fn just_coordinator(e: &[u8]) -> Option<u8>
    ensures { result ≡ sized e.now 2 (coordinator e.now) }
{
    let [_, coordinator] = e else {
        return None;
    };
    Some(*coordinator)
}

fn with_machine(e: &[u8]) -> Option<(u8, u8)>
    ensures { result ≡ sized e.now 3 (coordinator e.now, machine e.now) }
{
    let [_, coordinator, machine] = e else {
        return None;
    };
    Some((*coordinator, *machine))
}

fn read(e: &[u8]) -> Option<Call>
    ensures { result ≡ sized e.now 4 (Read (coordinator e.now) (address e.now)) }
{
    let [_, coordinator, high, low] = e else {
        return None;
    };
    let address = u16::from_be_bytes([*high, *low]);
    Some(Call::Read(*coordinator, address))
}

fn write(e: &[u8]) -> Option<Call>
    ensures { result ≡ sized e.now 12 (Write (coordinator e.now) (address e.now) (value e.now)) }
{
    let [_, coordinator, high, low, value @ ..] = e else {
        return None;
    };
    let address = u16::from_be_bytes([*high, *low]);
    let value = u64::from_be_bytes(value.try_into().ok()?);
    Some(Call::Write(*coordinator, address, value))
}

// A region that the bytes do not reach has a blank home.
#[tactic(auto, using(crate::proofs::Homes::in_chunk))]
fn home_of(bytes: &[u8], region: usize) -> Home
    ensures { result ≡ home bytes.now region }
{
    let (homes, _) = bytes.as_chunks::<3>();
    let Some([primary, first, second]) = homes.get(region) else {
        return Home::default();
    };
    Home {
        primary: *primary,
        first: *first,
        second: *second,
    }
}

fn homes_of(bytes: &[u8]) -> [Home; 8]
    ensures { result ≡ homes bytes.now }
{
    std::array::from_fn(|region| home_of(bytes, region))
}

// An entry that is too short to say how many regions it has is of another length, too.
fn plan_of(e: &[u8]) -> Option<Plan>
    ensures { result ≡ sized e.now (21 + 3 * regions e.now) (plan e.now) }
{
    let [_, machines, coordinators, regions, capacity, rest @ ..] = e else {
        return None;
    };
    let (start, rest) = rest.split_first_chunk::<8>()?;
    let (first, homes) = rest.split_first_chunk::<8>()?;
    if homes.len() != 3 * *regions as usize {
        return None;
    }
    Some(Plan {
        machines: *machines,
        coordinators: *coordinators,
        regions: *regions,
        capacity: *capacity,
        start: u64::from_be_bytes(*start),
        first: u64::from_be_bytes(*first),
        homes: homes_of(homes),
    })
}

// The step of an entry of this kind, or none where its length is wrong.
fn step_of(kind: EntryKind, e: &[u8]) -> Option<Step>
    ensures { slice_get (steps e.now) (kind_number kind) ≡ Some result }
{
    let call = match kind {
        EntryKind::SetUp => return Some(Step::SetUp(plan_of(e)?)),
        EntryKind::Open => Call::Open(just_coordinator(e)?),
        EntryKind::Read => read(e)?,
        EntryKind::Write => write(e)?,
        EntryKind::Abandon => Call::Abandon(just_coordinator(e)?),
        EntryKind::Commit => Call::Commit(just_coordinator(e)?),
        EntryKind::Send => Call::Send(just_coordinator(e)?),
        EntryKind::Poll => {
            let (c, machine) = with_machine(e)?;
            Call::Poll(c, machine)
        }
        EntryKind::Take => {
            let (c, machine) = with_machine(e)?;
            Call::Take(c, machine)
        }
        EntryKind::Check => Call::Check(just_coordinator(e)?),
        EntryKind::Trim => {
            let (c, machine) = with_machine(e)?;
            Call::Trim(c, machine)
        }
    };
    Some(Step::Call(call))
}

fn in_order(place: usize, step: &Step) -> bool
    ensures { result ≡ is_in_order place step.now }
{
    match step {
        Step::SetUp(_) => place == FIRST_PLACE,
        Step::Call(_) => place != FIRST_PLACE,
    }
}

// The step of the entry at a place.
pub fn decode(place: usize, content: &[u8]) -> Result<Step, EntryFault>
    ensures step { result ≡ decoded place content.now }
    ensures encodes_back { IfOk result (EncodesBack content.now) }
{
    let [kind, ..] = content else {
        return Err(EntryFault::WrongLength { place });
    };
    let Ok(kind) = EntryKind::try_from(*kind) else {
        return Err(EntryFault::UnknownKind { place });
    };
    let Some(step) = step_of(kind, content) else {
        return Err(EntryFault::WrongLength { place });
    };
    if !in_order(place, &step) {
        return Err(EntryFault::OutOfOrder { place });
    }
    Ok(step)
}
