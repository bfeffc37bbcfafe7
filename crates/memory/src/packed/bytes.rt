ghost use Rattle.std.specs.Prelude.{◌≡◌, ◌+◌, ◌≤◌, length};
ghost use Rattle.memory.specs.Packing.{number_at, with_number};

// The number that stands in the eight bytes from `place` on.
pub fn load(bytes: &[u8], place: usize) -> u64
    requires { place + 8 ≤ length bytes.now }
    ensures { result ≡ number_at bytes.now place }
{
    u64::from_be_bytes(bytes[place..place + 8].try_into().unwrap())
}

// Writes a number into the eight bytes from `place` on.
pub fn store(bytes: &mut [u8], place: usize, x: u64)
    requires { place + 8 ≤ length bytes.old }
    ensures { bytes.new ≡ with_number bytes.old place x }
{
    bytes[place..place + 8].copy_from_slice(&x.to_be_bytes());
}
