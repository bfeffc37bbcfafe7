// The steps of a file, one after the other.
ghost use Rattle.std.specs.Prelude.{◌≡◌, IfOk};
ghost use Rattle.std.specs.Result.{result_map_both};
ghost use Rattle.steps.specs.declared.fault.EntryFault.TheVariants.{Frame};
ghost use Rattle.steps.specs.Frames.{opened};
ghost use Rattle.steps.specs.Laws.{Lossless, ReadsBack};
ghost use Rattle.std.specs.Iterator.{YieldsFirst, item_count};
ghost use Rattle.steps.specs.Sequence.{step_at, moved, steps_from};
ghost use Rattle.steps.specs.Reading.{steps_position, steps_left};

use crate::decode::{Step, decode};
use crate::fault::EntryFault;
use crate::frame::Reader;

// A step and where its entry begins.
#[derive(Clone, Copy, Debug, PartialEq, Eq)]
pub struct Placed {
    pub place: usize,
    pub step: Step,
}

// A file whose entries are read as steps.
#[derive(Clone, Copy)]
pub struct Steps<'a> {
    reader: Reader<'a>,
}

impl<'a> Steps<'a> {
    pub fn open(bytes: &'a [u8]) -> Result<Steps<'a>, EntryFault>
        ensures position { result_map_both steps_position (λ f. f) result ≡ result_map_both (λ p. p) Frame (opened bytes.now) }
        ensures lossless { IfOk result (λ x. Lossless bytes.now (steps_position x)) }
        ensures reads_back { IfOk result (λ x. ReadsBack bytes.now (steps_position x)) }
    {
        let reader = Reader::open(bytes)?;
        Ok(Steps { reader })
    }

    // The next step, or none at the end of the file. After a fault the same is answered again.
    pub fn next(&mut self) -> Result<Option<Placed>, EntryFault>
        ensures step { result ≡ step_at (steps_position self.old) }
        ensures after { steps_position self.new ≡ moved (steps_position self.old) result }
    {
        let mut reader = self.reader;
        let Some(entry) = reader.next()? else {
            return Ok(None);
        };
        let place = entry.place;
        let step = decode(place, entry.content)?;
        self.reader = reader;
        Ok(Some(Placed { place, step }))
    }
}

// The steps of a file up to the first fault, behind which nothing is read.
#[derive(Clone, Copy)]
pub struct IntoIter<'a> {
    left: Option<Steps<'a>>,
}

impl<'a> IntoIterator for Steps<'a> {
    type Item = Result<Placed, EntryFault>;

    type IntoIter = IntoIter<'a>;

    ghost into_iter_gives = { λ steps it. steps_left it ≡ steps_from (steps_position steps) };

    fn into_iter(self) -> IntoIter<'a> {
        IntoIter { left: Some(self) }
    }
}

impl<'a> Iterator for IntoIter<'a> {
    type Item = Result<Placed, EntryFault>;

    ghost next_gives = { YieldsFirst steps_left };

    ghost remaining = { item_count steps_left };

    #[tactic(auto, using(crate::proofs::Unrolling::unrolled))]
    fn next(&mut self) -> Option<Result<Placed, EntryFault>> {
        let mut steps = self.left.take()?;
        let next = steps.next().transpose()?;
        if next.is_ok() {
            self.left = Some(steps);
        }
        Some(next)
    }
}
