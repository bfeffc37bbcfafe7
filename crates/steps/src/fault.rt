// What can be wrong with a step file, in three layers: its frame, an entry, the run.
ghost use Rattle.std.specs.Prelude.{◌≡◌, Some};
ghost use Rattle.steps.specs.Faults.{frame_numbers, entry_numbers, run_numbers, text};
ghost use Rattle.steps.specs.declared.fault.EntryFault.TheVariants.{Frame};
ghost use Rattle.steps.specs.declared.fault.RunFault.TheVariants.{Entry};

use crate::frame::LIMIT;
use protocol::call::Refusal;
use std::fmt;

// The bytes do not make a row of entries. `place` is where an entry begins.
#[derive(Clone, Copy, Debug, PartialEq, Eq)]
pub enum FrameFault {
    TooLong,
    BadVersion,
    CutShort { place: usize },
}

// The entries do not make a row of steps.
#[derive(Clone, Copy, Debug, PartialEq, Eq)]
pub enum EntryFault {
    Frame(FrameFault),
    UnknownKind { place: usize },
    WrongLength { place: usize },
    OutOfOrder { place: usize },
}

// The steps do not make a run.
#[derive(Clone, Copy, Debug, PartialEq, Eq)]
pub enum RunFault {
    Entry(EntryFault),
    SetUp { refusal: Refusal, place: usize },
}

impl From<FrameFault> for EntryFault {
    ghost from_gives = { λ fault r. (r ≡ Frame fault) × (entry_numbers r ≡ frame_numbers fault) };

    fn from(fault: FrameFault) -> EntryFault {
        EntryFault::Frame(fault)
    }
}

impl From<EntryFault> for RunFault {
    ghost from_gives = { λ fault r. (r ≡ Entry fault) × (run_numbers r ≡ entry_numbers fault) };

    fn from(fault: EntryFault) -> RunFault {
        RunFault::Entry(fault)
    }
}

// Numbers, since these three are what is printed; the enum stands beside them.
impl RunFault {
    pub fn cause(self) -> u8
        ensures { result ≡ (run_numbers self).cause }
    {
        match self {
            RunFault::Entry(EntryFault::Frame(FrameFault::TooLong)) => 12,
            RunFault::Entry(EntryFault::Frame(FrameFault::BadVersion)) => 13,
            RunFault::Entry(EntryFault::Frame(FrameFault::CutShort { .. })) => 14,
            RunFault::Entry(EntryFault::UnknownKind { .. }) => 15,
            RunFault::Entry(EntryFault::WrongLength { .. }) => 16,
            RunFault::Entry(EntryFault::OutOfOrder { .. }) => 17,
            RunFault::SetUp { refusal, .. } => u8::from(refusal),
        }
    }

    pub fn place(self) -> usize
        ensures { result ≡ (run_numbers self).place }
    {
        match self {
            RunFault::Entry(EntryFault::Frame(FrameFault::TooLong)) => LIMIT,
            RunFault::Entry(EntryFault::Frame(FrameFault::BadVersion)) => 0,
            RunFault::Entry(EntryFault::Frame(FrameFault::CutShort { place }))
            | RunFault::Entry(EntryFault::UnknownKind { place })
            | RunFault::Entry(EntryFault::WrongLength { place })
            | RunFault::Entry(EntryFault::OutOfOrder { place })
            | RunFault::SetUp { place, .. } => place,
        }
    }

    pub fn layer(self) -> u8
        ensures { result ≡ (run_numbers self).layer }
    {
        match self {
            RunFault::Entry(EntryFault::Frame(_)) => 1,
            RunFault::Entry(_) => 2,
            RunFault::SetUp { .. } => 3,
        }
    }
}

impl fmt::Display for RunFault {
    ghost output = { λ fault. Some (text (run_numbers fault)) };

    fn fmt<W: fmt::Write>(&self, f: &mut fmt::Formatter<W>) -> fmt::Result {
        let cause = self.cause();
        let place = self.place();
        let layer = self.layer();
        write!(f, "fault {cause} {place} {layer}")
    }
}
