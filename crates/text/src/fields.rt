// The fields of an entry: how wide they are, and the numbers in them.
ghost use Rattle.std.specs.Prelude.{◌≡◌, ◌++◌, ◌<◌, ◌≤◌, Ok, Err, length, drop, IfOk, MatchOption, MatchResult, vec_items};
ghost use Rattle.std.specs.Option.{option_map};
ghost use Rattle.text.specs.Faults.{Unless, Answers};
ghost use Rattle.text.specs.Fields.{size, limit, number_at, number_bytes, leading, widths, regions, numbers_in, bytes_of, entry_of, behind};
ghost use Rattle.text.specs.declared.fault.LineFault.TheVariants.{TooBig};

use crate::fault::LineFault;
use std::alloc::{AllocError, Global};
use steps::kind::EntryKind;

// How many bytes a field has.
#[derive(Clone, Copy, Debug, PartialEq, Eq)]
pub(crate) enum Width {
    One,
    Two,
    Eight,
}

impl Width {
    // The number at the front of the bytes, and the bytes behind it; none where there are too few.
    fn split(self, bytes: &[u8]) -> Option<(u64, &[u8])>
        ensures { MatchOption result
            (length bytes.now < size self)
            (λ r. (size self ≤ length bytes.now)
            × (r.0 ≡ number_at self bytes.now)
            × (r.1.now ≡ drop (size self) bytes.now)) }
    {
        match self {
            Width::One => {
                let (number, rest) = bytes.split_first()?;
                Some(((*number).into(), rest))
            }
            Width::Two => {
                let (number, rest) = bytes.split_first_chunk::<2>()?;
                Some((u16::from_be_bytes(*number).into(), rest))
            }
            Width::Eight => {
                let (number, rest) = bytes.split_first_chunk::<8>()?;
                Some((u64::from_be_bytes(*number), rest))
            }
        }
    }

    // Adds the bytes of a number that fits.
    fn push(self, out: &mut Vec<u8>, number: u64) -> Result<(), LineFault>
        ensures { MatchResult result
            (λ _. (number < limit self) × (out.new.items ≡ out.old.items ++ number_bytes self number))
            (λ e. Unless e ((e ≡ TooBig) × (limit self ≤ number))) }
    {
        match self {
            Width::One => {
                let number = u8::try_from(number).map_err(|_| LineFault::TooBig)?;
                out.extend_from_slice(&[number])?;
            }
            Width::Two => {
                let number = u16::try_from(number).map_err(|_| LineFault::TooBig)?;
                out.extend_from_slice(&number.to_be_bytes())?;
            }
            Width::Eight => out.extend_from_slice(&number.to_be_bytes())?,
        }
        Ok(())
    }
}

// The fields that an entry of a kind has at least.
fn leading(kind: EntryKind) -> &'static [Width]
    ensures { result.now ≡ leading kind }
{
    match kind {
        EntryKind::SetUp => &[
            Width::One,
            Width::One,
            Width::One,
            Width::One,
            Width::Eight,
            Width::Eight,
        ],
        EntryKind::Open
        | EntryKind::Abandon
        | EntryKind::Commit
        | EntryKind::Send
        | EntryKind::Check => &[Width::One],
        EntryKind::Read => &[Width::One, Width::Two],
        EntryKind::Write => &[Width::One, Width::Two, Width::Eight],
        EntryKind::Poll | EntryKind::Take | EntryKind::Trim => &[Width::One, Width::One],
    }
}

// All fields of an entry of a kind with so many regions.
fn widths(heap: Global, kind: EntryKind, regions: u8) -> Result<Vec<Width>, AllocError>
    ensures { IfOk result (λ v. v.items ≡ widths kind regions) }
{
    let mut widths = leading(kind).to_vec(heap)?;
    widths.resize(widths.len() + 3 * regions as usize, Width::One)?;
    Ok(widths)
}

// The numbers in the bytes, or none where the bytes are not just these fields.
fn split_all(heap: Global, widths: &[Width], bytes: &[u8]) -> Result<Option<Vec<u64>>, AllocError>
    ensures { IfOk result (λ o. option_map vec_items o ≡ numbers_in widths.now bytes.now) }
{
    let mut numbers = Vec::new(heap);
    let mut rest = bytes;
    for width in widths {
        let Some((number, behind)) = width.split(rest) else {
            return Ok(None);
        };
        numbers.push(number)?;
        rest = behind;
    }
    if rest.is_empty() {
        Ok(Some(numbers))
    } else {
        Ok(None)
    }
}

// Adds the bytes of the numbers, each in its field.
fn push_all(out: &mut Vec<u8>, widths: &[Width], numbers: &[u64]) -> Result<(), LineFault>
    ensures { MatchResult result
        (λ _. behind out.old.items (bytes_of widths.now numbers.now) ≡ Ok out.new.items)
        (λ e. Unless e (bytes_of widths.now numbers.now ≡ Err e)) }
{
    for (width, number) in widths.iter().zip(numbers) {
        width.push(out, *number)?;
    }
    Ok(())
}

// How many regions an entry has, if it is long enough to say.
fn regions_in(kind: EntryKind, fields: &[u8]) -> u8
    ensures { result ≡ regions kind fields.now }
{
    match kind {
        EntryKind::SetUp => fields.get(2).copied().unwrap_or(0),
        _ => 0,
    }
}

// The numbers in the fields of an entry, or none where it has not just the fields of its kind.
pub(crate) fn numbers_in(
    heap: Global,
    kind: EntryKind,
    fields: &[u8],
) -> Result<Option<Vec<u64>>, AllocError>
    ensures { IfOk result
        (λ o. option_map vec_items o ≡ numbers_in (widths kind (regions kind fields.now)) fields.now) }
{
    let widths = widths(heap, kind, regions_in(kind, fields))?;
    split_all(heap, &widths, fields)
}

// How many regions the numbers of a line say.
fn regions_of(kind: EntryKind, numbers: &[u64]) -> u64
    ensures { result ≡ regions kind numbers.now }
{
    match kind {
        EntryKind::SetUp => numbers.get(2).copied().unwrap_or(0),
        _ => 0,
    }
}

// The entry of a kind with these numbers in its fields.
pub(crate) fn entry_of(heap: Global, kind: EntryKind, numbers: &[u64]) -> Result<Vec<u8>, LineFault>
    ensures { Answers vec_items (entry_of kind numbers.now) result }
{
    let regions = u8::try_from(regions_of(kind, numbers)).map_err(|_| LineFault::TooBig)?;
    let widths = widths(heap, kind, regions)?;
    let (wanted, found) = (widths.len(), numbers.len());
    if found != wanted {
        return Err(LineFault::WrongCount { wanted, found });
    }
    let mut entry = [kind.into()].to_vec(heap)?;
    push_all(&mut entry, &widths, numbers)?;
    Ok(entry)
}
