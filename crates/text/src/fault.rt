// What can be wrong with a text, and why a step file has no text.
ghost use Rattle.std.specs.Prelude.{◌≡◌, Some};
ghost use Rattle.steps.specs.declared.fault.EntryFault.TheVariants.{Frame};
ghost use Rattle.text.specs.Faults.{line_fault_text, text_fault_text, file_fault_text, write_fault};
ghost use Rattle.text.specs.declared.fault.LineFault.TheVariants as line;
ghost use Rattle.text.specs.declared.fault.FileFault.TheVariants as file;

use std::alloc::AllocError;
use std::fmt;
use steps::fault::{EntryFault, FrameFault, RunFault};
use steps::kind::UnknownName;
use steps::write::WriteFault;

// What is wrong with a line of a text.
#[derive(Clone, Copy, Debug, PartialEq, Eq)]
pub enum LineFault {
    UnknownStep,
    NotANumber,
    TooBig,
    WrongCount { wanted: usize, found: usize },
    FileTooLong,
    NoMemory(AllocError),
}

impl From<AllocError> for LineFault {
    ghost from_gives = { λ e r. r ≡ line.NoMemory e };

    fn from(e: AllocError) -> LineFault {
        LineFault::NoMemory(e)
    }
}

impl From<UnknownName> for LineFault {
    ghost from_gives = { λ _ r. r ≡ line.UnknownStep };

    fn from(_: UnknownName) -> LineFault {
        LineFault::UnknownStep
    }
}

// An entry that is too long for its length bytes makes the file too long, too.
impl From<WriteFault> for LineFault {
    ghost from_gives = { λ e r. r ≡ write_fault e };

    fn from(fault: WriteFault) -> LineFault {
        match fault {
            WriteFault::EntryTooLong => LineFault::FileTooLong,
            WriteFault::NoMemory(e) => LineFault::NoMemory(e),
        }
    }
}

impl fmt::Display for LineFault {
    ghost output = { λ fault. Some (line_fault_text fault) };

    fn fmt<W: fmt::Write>(&self, f: &mut fmt::Formatter<W>) -> fmt::Result {
        match *self {
            LineFault::UnknownStep => write!(f, "unknown step"),
            LineFault::NotANumber => write!(f, "not a number"),
            LineFault::TooBig => write!(f, "a number is too big for its field"),
            LineFault::WrongCount { wanted, found } => {
                write!(f, "wants {wanted} numbers and has {found}")
            }
            LineFault::FileTooLong => write!(f, "the file has more than 65536 bytes"),
            LineFault::NoMemory(_) => write!(f, "out of memory"),
        }
    }
}

// Lines are counted from 1.
#[derive(Clone, Copy, Debug, PartialEq, Eq)]
pub struct TextFault {
    pub line: usize,
    pub fault: LineFault,
}

// Memory that is wanting before a line is read is wanting at the first.
impl From<AllocError> for TextFault {
    ghost from_gives = { λ e r. (r.line ≡ 1) × (r.fault ≡ line.NoMemory e) };

    fn from(e: AllocError) -> TextFault {
        TextFault {
            line: 1,
            fault: e.into(),
        }
    }
}

impl fmt::Display for TextFault {
    ghost output = { λ fault. Some (text_fault_text fault) };

    fn fmt<W: fmt::Write>(&self, f: &mut fmt::Formatter<W>) -> fmt::Result {
        let line = self.line;
        let fault = self.fault;
        write!(f, "line {line}: {fault}")
    }
}

// Why a step file has no text.
#[derive(Clone, Copy, Debug, PartialEq, Eq)]
pub enum FileFault {
    Entry(EntryFault),
    NoMemory(AllocError),
}

impl From<EntryFault> for FileFault {
    ghost from_gives = { λ fault r. r ≡ file.Entry fault };

    fn from(fault: EntryFault) -> FileFault {
        FileFault::Entry(fault)
    }
}

impl From<FrameFault> for FileFault {
    ghost from_gives = { λ fault r. r ≡ file.Entry (Frame fault) };

    fn from(fault: FrameFault) -> FileFault {
        FileFault::Entry(fault.into())
    }
}

impl From<AllocError> for FileFault {
    ghost from_gives = { λ e r. r ≡ file.NoMemory e };

    fn from(e: AllocError) -> FileFault {
        FileFault::NoMemory(e)
    }
}

impl fmt::Display for FileFault {
    ghost output = { λ fault. Some (file_fault_text fault) };

    fn fmt<W: fmt::Write>(&self, f: &mut fmt::Formatter<W>) -> fmt::Result {
        match *self {
            FileFault::Entry(entry) => {
                let fault = RunFault::from(entry);
                write!(f, "{fault}")
            }
            FileFault::NoMemory(_) => write!(f, "out of memory"),
        }
    }
}
