// What a log and a reply queue hold.
use crate::lines::LineVec;

// A word of a transaction: its address, the version read, and the value read or to be written.
#[derive(Clone, Copy, Debug, Default, PartialEq, Eq)]
pub struct Line {
    pub address: u16,
    pub version: u64,
    pub value: u64,
}

#[derive(Clone, Copy, Debug, PartialEq, Eq)]
pub enum Kind {
    Lock = 1,
    CommitBackup = 2,
    CommitPrimary = 3,
    Abort = 4,
    Truncate = 5,
}

// `regions` has bit r set for each region that the transaction writes.
#[derive(Clone, Copy)]
pub struct Record {
    pub kind: Kind,
    pub coordinator: u8,
    pub number: u64,
    pub regions: u8,
    pub lines: LineVec<4>,
}

// A machine's answer to a LOCK.
#[derive(Clone, Copy, Debug, Default, PartialEq, Eq)]
pub struct Reply {
    pub number: u64,
    pub yes: bool,
}
