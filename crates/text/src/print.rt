// A step file is written as a text.
ghost use Rattle.std.specs.Prelude.{◌≡◌, ◌++◌, Ok, IfOk, OnOk, MatchResult};
ghost use Rattle.std.specs.String.{string_bytes};
ghost use Rattle.text.specs.Laws.{ReadsBack, FaultsOfSteps};
ghost use Rattle.text.specs.Printing.{line, entry_line, text_of};
ghost use Rattle.text.specs.Faults.{Faulty};
ghost use Rattle.text.specs.Fields.{behind};

use crate::fault::FileFault;
use crate::fields::numbers_in;
use std::alloc::{AllocError, Global};
use std::fmt::Write;
use steps::fault::EntryFault;
use steps::frame::Reader;
use steps::kind::EntryKind;

// Adds the line of a step.
fn add_step(out: &mut String, kind: EntryKind, numbers: &[u64]) -> Result<(), AllocError>
    ensures { OnOk result (string_bytes out.new ≡ string_bytes out.old ++ line kind numbers.now) }
{
    out.push_str(kind.name())?;
    for number in numbers {
        write!(out, " {number}")?;
    }
    out.push_str("\n")
}

// Adds the line of an entry.
fn add_entry(heap: Global, out: &mut String, place: usize, content: &[u8]) -> Result<(), FileFault>
    ensures { MatchResult result
        (λ _. behind (string_bytes out.old) (entry_line place content.now) ≡ Ok (string_bytes out.new))
        (Faulty (entry_line place content.now)) }
{
    let [kind, fields @ ..] = content else {
        return Err(EntryFault::WrongLength { place }.into());
    };
    let Ok(kind) = EntryKind::try_from(*kind) else {
        return Err(EntryFault::UnknownKind { place }.into());
    };
    let Some(numbers) = numbers_in(heap, kind, fields)? else {
        return Err(EntryFault::WrongLength { place }.into());
    };
    add_step(out, kind, &numbers)?;
    Ok(())
}

// The text of a step file.
pub fn to_text(heap: Global, bytes: &[u8]) -> Result<String, FileFault>
    ensures text { MatchResult result
        (λ t. text_of bytes.now ≡ Ok (string_bytes t))
        (Faulty (text_of bytes.now)) }
    ensures faults_of_steps { FaultsOfSteps }
    ensures reads_back { IfOk result (λ t. ReadsBack bytes.now (string_bytes t)) }
{
    let mut text = String::new(heap);
    let mut reader = Reader::open(bytes)?;
    while let Some(entry) = reader.next()? {
        add_entry(heap, &mut text, entry.place, entry.content)?;
    }
    Ok(text)
}
