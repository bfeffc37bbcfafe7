// Cuts a step file into entries.
ghost use Rattle.std.specs.Prelude.{◌≡◌, IfOk};
ghost use Rattle.std.specs.Result.{result_map_both};
ghost use Rattle.steps.specs.Frames.{opened, entry_at, passed};
ghost use Rattle.steps.specs.Laws.{Lossless, ReadsBack};
ghost use Rattle.steps.specs.Reading.{position, said};

use crate::fault::FrameFault;

// The most bytes that a file may have.
pub const LIMIT: usize = 65536;

pub const VERSION: u8 = 1;

// Where the first entry begins: behind the version byte.
pub const FIRST_PLACE: usize = 1;

// An entry of a file: where its two length bytes begin, and its kind byte and fields.
#[derive(Clone, Copy)]
pub struct Entry<'a> {
    pub place: usize,
    pub content: &'a [u8],
}

// A file, read up to `place`.
#[derive(Clone, Copy)]
pub struct Reader<'a> {
    bytes: &'a [u8],
    place: usize,
}

impl<'a> Reader<'a> {
    pub fn open(bytes: &'a [u8]) -> Result<Reader<'a>, FrameFault>
        ensures position { result_map_both position (λ f. f) result ≡ opened bytes.now }
        ensures lossless { IfOk result (λ x. Lossless bytes.now (position x)) }
        ensures reads_back { IfOk result (λ x. ReadsBack bytes.now (position x)) }
    {
        if bytes.len() > LIMIT {
            return Err(FrameFault::TooLong);
        }
        let [VERSION, ..] = bytes else {
            return Err(FrameFault::BadVersion);
        };
        Ok(Reader {
            bytes,
            place: FIRST_PLACE,
        })
    }

    // The next entry, or none at the end of the file. After a fault the reader stays where it was.
    pub fn next(&mut self) -> Result<Option<Entry<'a>>, FrameFault>
        ensures entry { said result ≡ entry_at (position self.old) }
        ensures after { position self.new ≡ passed (position self.old) }
    {
        let place = self.place;
        if self.bytes.len() <= place {
            return Ok(None);
        }
        let Some((size, behind)) = self.bytes[place..].split_first_chunk::<2>() else {
            return Err(FrameFault::CutShort { place });
        };
        let size = u16::from_be_bytes(*size) as usize;
        let Some(content) = behind.get(..size) else {
            return Err(FrameFault::CutShort { place });
        };
        self.place = place + 2 + size;
        Ok(Some(Entry { place, content }))
    }
}
