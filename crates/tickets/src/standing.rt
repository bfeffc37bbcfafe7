ghost use Rattle.tickets.specs.Standing.{KeptByOthers};

// Every other call, as a poll, a trim or one of another coordinator, leaves a ticket standing.
pub fn tickets_keep_standing() -> u8
    ensures { KeptByOthers }
{
    0
}
