// Writes entries into a step file.
ghost use Rattle.std.specs.Prelude.{◌≡◌};
ghost use Rattle.steps.specs.declared.write.WriteFault.TheVariants.{NoMemory};
ghost use Rattle.steps.specs.Writing.{Wrote};

use std::alloc::AllocError;

#[derive(Clone, Copy, Debug, PartialEq, Eq)]
pub enum WriteFault {
    EntryTooLong,
    NoMemory(AllocError),
}

impl From<AllocError> for WriteFault {
    ghost from_gives = { λ e r. r ≡ NoMemory e };

    fn from(e: AllocError) -> WriteFault {
        WriteFault::NoMemory(e)
    }
}

// Adds an entry to the bytes of a file, behind its length in two bytes.
pub fn write_entry(out: &mut Vec<u8>, entry: &[u8]) -> Result<(), WriteFault>
    ensures { Wrote out.old.items out.new.items entry.now result }
{
    let Ok(size) = u16::try_from(entry.len()) else {
        return Err(WriteFault::EntryTooLong);
    };
    out.reserve(2 + entry.len())?;
    out.extend_from_slice(&size.to_be_bytes())?;
    out.extend_from_slice(entry)?;
    Ok(())
}
