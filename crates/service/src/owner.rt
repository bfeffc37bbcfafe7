// What a directory owns.
ghost use Rattle.std.specs.Prelude.{◌≡◌, ◌*◌, length};

use directory::tables::Coordinator;
use protocol::plan::Plan;
use protocol::record::{Record, Reply};

// Tables of just the entries that a plan needs.
#[derive(Drop)]
pub(crate) struct Tables {
    pub(crate) coordinators: Vec<Coordinator>,
    pub(crate) records: Vec<Record>,
    pub(crate) replies: Vec<Reply>,
}

#[derive(Drop)]
pub struct Directory<P, F, S> {
    pub(crate) plan: Plan,
    pub(crate) tables: Tables,
    pub(crate) primaries: P,
    pub(crate) firsts: F,
    pub(crate) seconds: S,
    ghost coordinators_fit: { length tables.coordinators.items ≡ plan.coordinators },
    ghost records_fit: { length tables.records.items ≡ plan.coordinators * plan.machines * plan.capacity },
    ghost replies_fit: { length tables.replies.items ≡ plan.coordinators * plan.machines * 4 },
}
