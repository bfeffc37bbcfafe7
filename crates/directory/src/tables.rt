// The entries of the table of coordinators.
ghost use Rattle.std.specs.Prelude.{◌≡◌, length};

use protocol::lines::LineVec;
use ring::Ring;

// LOCKs are due to the machines from `due` on; a reply is awaited from each machine that is marked, of five in fixed memory;
// `denied` once one was no.
#[derive(Clone, Copy)]
pub struct Locking {
    pub due: u8,
    pub awaited: [bool; 5],
    pub denied: bool,
    ghost five: { length awaited ≡ 5 },
}

// Where a transaction stands, with what counts there. Records are due to the machines from `due` on; the first `passed`
// reads are checked or need no check; `reported` once the commit is.
#[derive(Clone, Copy)]
pub enum Phase {
    Idle,
    Open,
    Locking(Locking),
    Checking { passed: u8 },
    Backing { due: u8 },
    Installing { due: u8, reported: bool },
    Aborting { due: u8 },
}

// A coordinator's transaction. `next` is the number that the next commit gives, nothing once the last is given.
#[derive(Clone, Copy)]
pub struct Work {
    pub phase: Phase,
    pub next: Option<u64>,
    pub reads: LineVec<8>,
    pub writes: LineVec<4>,
}

// A log and a reply queue for each machine: the rings, whose slots stand in the tables of records and replies. There are five
// machines at most, and the memory is fixed. Two arrays and not one of pairs: each lies over a table of its own, and most calls
// use one of the two.
#[derive(Clone, Copy)]
pub struct Coordinator {
    pub work: Work,
    pub logs: [Ring; 5],
    pub queues: [Ring; 5],
}
