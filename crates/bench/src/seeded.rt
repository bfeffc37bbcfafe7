// Numbers that look random and are the same on every machine.
ghost use Rattle.std.specs.Prelude.{◌≤◌};

// Marsaglia's xorshift of 64 bits. The state is never 0.
#[derive(Clone, Copy)]
pub struct Seeded {
    state: u64,
}

impl Seeded {
    pub fn new(seed: u64) -> Seeded {
        Seeded { state: seed.max(1) }
    }

    // A number below n, or 0 where n is 0.
    pub fn below(&mut self, n: u8) -> u8
        ensures { result ≤ n }
    {
        let mut x = self.state;
        x ^= x << 13;
        x ^= x >> 7;
        x ^= x << 17;
        self.state = x;
        ((x >> 32) % u64::from(n.max(1))) as u8
    }
}
