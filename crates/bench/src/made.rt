// The directory that the calls are made on: four coordinators, five machines, eight regions, logs of 16 records.
use memory::cells::Cells;
use protocol::plan::{Home, Plan};
use service::owner::Directory;
use std::alloc::{AllocError, Global};

pub type OfCells = Directory<Cells, Cells, Cells>;

// The copies of a region on the machines a, b and c.
fn home(a: u8, b: u8, c: u8) -> Home {
    Home {
        primary: a,
        first: b,
        second: c,
    }
}

fn plan() -> Plan {
    Plan {
        machines: 5,
        coordinators: 4,
        regions: 8,
        capacity: 16,
        start: 0,
        first: 1,
        homes: [
            home(0, 1, 2),
            home(1, 2, 3),
            home(2, 3, 4),
            home(3, 4, 0),
            home(4, 0, 1),
            home(0, 2, 4),
            home(1, 4, 2),
            home(3, 0, 1),
        ],
    }
}

fn cells(heap: Global) -> Result<Cells, AllocError> {
    Cells::new(heap, 512).map_err(|_| AllocError)
}

// A new one. The plan is fine and the sizes fit it, so want of memory is the only reason that there is none.
pub fn directory(heap: Global) -> Result<OfCells, AllocError> {
    let primaries = cells(heap)?;
    let firsts = cells(heap)?;
    let seconds = cells(heap)?;
    Directory::new(heap, plan(), primaries, firsts, seconds).map_err(|_| AllocError)
}
