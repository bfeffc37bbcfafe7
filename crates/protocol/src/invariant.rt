ghost use Rattle.protocol.specs.Kept.{KeptByCalls, Always};

// Every accepted call keeps the invariant of the coordinator that makes it.
pub fn calls_keep_the_invariant()
    ensures { KeptByCalls }
{}

// Set-up establishes the invariants of the whole state, and every call, accepted or refused, keeps them.
pub fn invariants_always_hold()
    ensures { Always }
{}
