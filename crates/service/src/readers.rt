// What a directory shows without a call: whether a coordinator is idle, and the three copies of a word.
ghost use Rattle.std.specs.Prelude.{◌≡◌};
ghost use Rattle.protocol.specs.Coordinator.{is_idle};
ghost use Rattle.directory.specs.View.{view};
ghost use Rattle.service.specs.Owned.{plan_of, owned, copies, is_resting};

use crate::owner::Directory;
use directory::tables::Phase;
use memory::interface::Memory;

// A word's version, holder and value, or nothing where there is no such word.
type Seen = Option<(u64, u8, u64)>;

// There is no transaction.
fn is_resting(phase: &Phase) -> bool
    ensures { result ≡ is_resting phase.now }
{
    matches!(phase, Phase::Idle)
}

impl<P: Memory, F: Memory, S: Memory> Directory<P, F, S> {
    // Whether coordinator c has no transaction under way. One that is not there has none.
    pub fn is_idle(&self, c: u8) -> bool
        ensures { result ≡ is_idle ((view (plan_of self.now) (owned P.Memory.words F.Memory.words S.Memory.words self.now)).coordinators c).phase }
    {
        if c >= self.plan.coordinators {
            return true;
        }
        match self.tables.coordinators.get(c as usize) {
            Some(own) => is_resting(&own.work.phase),
            None => true,
        }
    }

    // The primary, the first and the second backup copy of a word.
    pub fn copies(&self, address: u16) -> [Seen; 3]
        ensures { result ≡ copies (owned P.Memory.words F.Memory.words S.Memory.words self.now) address }
    {
        let address = address as usize;
        [
            self.primaries.look(address),
            self.firsts.look(address),
            self.seconds.look(address),
        ]
    }
}
