// Making a directory: its tables are made, and it is set up.
ghost use Rattle.std.specs.Prelude.{◌≡◌};
ghost use Rattle.service.specs.declared.make.Unmade.TheVariants.{NoMemory};
ghost use Rattle.service.specs.Making.{Makes, MakesTables, unmade};

use crate::owner::{Directory, Tables};
use directory::checks::plan_ok;
use directory::setup::{fresh, set_up};
use memory::interface::Memory;
use memory::make::{MakeError, Rejected};
use protocol::call::Refusal;
use protocol::lines::LineVec;
use protocol::plan::Plan;
use protocol::record::{Kind, Record, Reply};
use std::alloc::{AllocError, Global};

// Why a directory was not made.
#[derive(Clone, Copy, Debug, PartialEq, Eq)]
pub enum Unmade {
    Refused(Refusal),
    NoMemory(AllocError),
}

// A size that no memory has is that of a bad plan.
impl From<MakeError> for Unmade {
    ghost from_gives = { λ error r. r ≡ unmade error };

    fn from(error: MakeError) -> Unmade {
        match error {
            MakeError::BadSize => Unmade::Refused(Refusal::BadPlan),
            MakeError::NoMemory(e) => Unmade::NoMemory(e),
        }
    }
}

impl From<AllocError> for Unmade {
    ghost from_gives = { λ error r. r ≡ NoMemory error };

    fn from(error: AllocError) -> Unmade {
        Unmade::NoMemory(error)
    }
}

// Tables of just the entries that a fine plan needs.
fn make_tables(heap: Global, plan: &Plan) -> Result<Tables, Unmade>
    ensures { MakesTables plan.now result }
{
    if !plan_ok(plan) {
        return Err(Unmade::Refused(Refusal::BadPlan));
    }
    let entry = Record {
        kind: Kind::Truncate,
        coordinator: 0,
        number: 0,
        regions: 0,
        lines: LineVec::new(),
    };
    let count = plan.coordinators as usize;
    let logs = count * plan.machines as usize;
    let coordinators = vec![in heap; fresh(plan.first); count]?;
    let records = vec![in heap; entry; logs * plan.capacity as usize]?;
    let replies = vec![in heap; Reply::default(); logs * 4]?;
    Ok(Tables {
        coordinators,
        records,
        replies,
    })
}

impl<P: Memory, F: Memory, S: Memory> Directory<P, F, S> {
    // A directory of the plan over these memories, set up; or the reason why not, and the memories handed back.
    pub fn new(
        heap: Global,
        plan: Plan,
        mut primaries: P,
        mut firsts: F,
        mut seconds: S,
    ) -> Result<Directory<P, F, S>, Rejected<Unmade, (P, F, S)>>
        ensures { Makes P.Memory.words F.Memory.words S.Memory.words plan primaries firsts seconds result }
    {
        // the memories move into the answer on every way, so no closure may take them
        let mut tables = match make_tables(heap, &plan) {
            Ok(tables) => tables,
            Err(error) => return Err(Rejected {
                error,
                given: (primaries, firsts, seconds),
            }),
        };
        match set_up(
            &plan,
            &mut tables.coordinators,
            &tables.records,
            &tables.replies,
            &mut primaries,
            &mut firsts,
            &mut seconds,
        ) {
            Ok(_) => Ok(Directory {
                plan,
                tables,
                primaries,
                firsts,
                seconds,
            }),
            Err(refusal) => Err(Rejected {
                error: Unmade::Refused(refusal),
                given: (primaries, firsts, seconds),
            }),
        }
    }
}
