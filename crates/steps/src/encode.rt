// Writes a step as an entry.
ghost use Rattle.std.specs.Prelude.{◌≡◌, ◌++◌, IfOk, OnOk};
ghost use Rattle.std.specs.List.{flat_map};
ghost use Rattle.protocol.specs.declared.call.Call.TheVariants.{Write};
ghost use Rattle.steps.specs.Encoding.{home_bytes, encoded_call, encoded_plan, encoded, DecodesBack};

use crate::decode::Step;
use crate::kind::EntryKind;
use protocol::call::Call;
use protocol::plan::{Home, Plan};
use std::alloc::{AllocError, Global};

fn encode_write(
    heap: Global,
    coordinator: u8,
    address: u16,
    value: u64,
) -> Result<Vec<u8>, AllocError>
    ensures { IfOk result (λ v. v.items ≡ encoded_call (Write coordinator address value)) }
{
    let [high, low] = address.to_be_bytes();
    let mut out = [EntryKind::Write.into(), coordinator, high, low].to_vec(heap)?;
    out.extend_from_slice(&value.to_be_bytes())?;
    Ok(out)
}

fn encode_call(heap: Global, call: Call) -> Result<Vec<u8>, AllocError>
    ensures { IfOk result (λ v. v.items ≡ encoded_call call) }
{
    match call {
        Call::Open(c) => [EntryKind::Open.into(), c].to_vec(heap),
        Call::Read(c, address) => {
            let [high, low] = address.to_be_bytes();
            [EntryKind::Read.into(), c, high, low].to_vec(heap)
        }
        Call::Write(c, address, value) => encode_write(heap, c, address, value),
        Call::Abandon(c) => [EntryKind::Abandon.into(), c].to_vec(heap),
        Call::Commit(c) => [EntryKind::Commit.into(), c].to_vec(heap),
        Call::Send(c) => [EntryKind::Send.into(), c].to_vec(heap),
        Call::Poll(c, machine) => [EntryKind::Poll.into(), c, machine].to_vec(heap),
        Call::Take(c, machine) => [EntryKind::Take.into(), c, machine].to_vec(heap),
        Call::Check(c) => [EntryKind::Check.into(), c].to_vec(heap),
        Call::Trim(c, machine) => [EntryKind::Trim.into(), c, machine].to_vec(heap),
    }
}

// A loop, since a chain of `flat_map` was tried and its goal `returns` stayed open.
fn add_homes(out: &mut Vec<u8>, homes: &[Home]) -> Result<(), AllocError>
    ensures { OnOk result (out.new.items ≡ out.old.items ++ flat_map home_bytes homes.now) }
{
    for home in homes {
        out.extend_from_slice(&[home.primary, home.first, home.second])?;
    }
    Ok(())
}

fn encode_plan(heap: Global, plan: &Plan) -> Result<Vec<u8>, AllocError>
    ensures { IfOk result (λ v. v.items ≡ encoded_plan plan.now) }
{
    let mut out = [
        EntryKind::SetUp.into(),
        plan.machines,
        plan.coordinators,
        plan.regions,
        plan.capacity,
    ]
    .to_vec(heap)?;
    out.extend_from_slice(&plan.start.to_be_bytes())?;
    out.extend_from_slice(&plan.first.to_be_bytes())?;
    // a plan of more regions has no more homes
    let count = (plan.regions as usize).min(8);
    add_homes(&mut out, &plan.homes[0..count])?;
    Ok(out)
}

// The bytes of a step's entry, without its length.
pub fn encode(heap: Global, step: &Step) -> Result<Vec<u8>, AllocError>
    ensures bytes { IfOk result (λ v. v.items ≡ encoded step.now) }
    ensures decodes_back { IfOk result (λ v. DecodesBack v.items step.now) }
{
    match *step {
        Step::SetUp(plan) => encode_plan(heap, &plan),
        Step::Call(call) => encode_call(heap, call),
    }
}
