ghost use Rattle.std.specs.Prelude.{◌≡◌, ◌<◌};
ghost use Rattle.protocol.specs.Plan.{size};

use super::Plan;

// The addresses of a region.
const REGION: usize = 64;

impl Plan {
    // How many words each of the three memories has.
    pub fn size(&self) -> usize
        ensures words { result ≡ size self.now }
        ensures few { result < 65536 }
    {
        REGION * self.regions as usize
    }
}
