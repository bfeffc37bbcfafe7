// Plays the step file on standard input: makes each call in its turn, and prints what it answered.
#![tactic(auto)]

use memory::cells::Cells;
use playback::transcript::transcript;
use std::io;
use std::io::Read;

fn main(rt: HostRuntime) -> io::Result<()> {
    let mut bytes = Vec::new(rt.alloc());
    rt.stdin().read_to_end(&mut bytes)?;
    let lines = transcript::<Cells, Cells, Cells>(rt.alloc(), &bytes)?;
    rt.print(lines.as_str())
}
