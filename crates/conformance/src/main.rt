// Plays every step file that its list names, on memories of several makes, and compares the lines with those that stand beside
// it.
#![tactic(auto)]

ghost use Rattle.std.specs.Prelude.{◌≡◌, IfOk, string_bytes};
ghost use Rattle.playback.specs.Transcript.{told};

use memory::cells::Cells;
use memory::joined::Joined;
use memory::packed::Packed;
use playback::transcript::transcript;
use std::alloc::{AllocError, Global};
use std::{fs, io};

type Pair = Joined<Cells, Packed>;

// The four choices of makes promise the same lines, and the gate runs them all.
fn on_cells(heap: Global, bytes: &[u8]) -> Result<String, AllocError>
    ensures { IfOk result (λ s. string_bytes s ≡ told bytes.now) }
{
    transcript::<Cells, Cells, Cells>(heap, bytes)
}

fn on_packed(heap: Global, bytes: &[u8]) -> Result<String, AllocError>
    ensures { IfOk result (λ s. string_bytes s ≡ told bytes.now) }
{
    transcript::<Packed, Packed, Packed>(heap, bytes)
}

fn on_joined(heap: Global, bytes: &[u8]) -> Result<String, AllocError>
    ensures { IfOk result (λ s. string_bytes s ≡ told bytes.now) }
{
    transcript::<Pair, Pair, Pair>(heap, bytes)
}

fn on_mixed(heap: Global, bytes: &[u8]) -> Result<String, AllocError>
    ensures { IfOk result (λ s. string_bytes s ≡ told bytes.now) }
{
    transcript::<Joined<Packed, Pair>, Packed, Cells>(heap, bytes)
}

// The lines of a step file are those expected, whatever the makes.
fn conforms(rt: &HostRuntime, name: &str) -> io::Result<bool> {
    let heap = rt.alloc();
    let steps = format!(in heap; "{name}.steps")?;
    let lines = format!(in heap; "{name}.lines")?;
    let bytes = fs::read(rt, steps.as_str())?;
    let expected = fs::read_to_string(rt, lines.as_str())?;
    let played = [
        on_cells(heap, &bytes)?,
        on_packed(heap, &bytes)?,
        on_joined(heap, &bytes)?,
        on_mixed(heap, &bytes)?,
    ];
    Ok(played.iter().all(|p| p.as_str() == expected.as_str()))
}

fn main(rt: HostRuntime) -> io::Result<()> {
    let names = fs::read_to_string(&rt, "names")?;
    let mut good = 0u32;
    let mut bad = 0u32;
    for name in names.lines() {
        if conforms(&rt, name)? {
            good = good.saturating_add(1);
        } else {
            bad = bad.saturating_add(1);
            println!(rt; "{name} differs")?;
        }
    }
    println!(rt; "{good} files as expected on each of 4 choices of makes, {bad} not")
}
