// Makes a list of a million calls, plays it, and prints what became of them. With the argument --time it also prints how long
// they took.
#![tactic(auto)]

mod list;
mod made;
mod seeded;
mod tally;
mod timing;

use crate::list::list;
use crate::made::{OfCells, directory};
use crate::tally::{KINDS, Tally, kind};
use playback::row::name;
use protocol::call::Call;
use std::{env, io};

const CALLS: usize = 1_000_000;

// Plays the list, and counts.
fn play(directory: &mut OfCells, calls: &[Call]) -> [Tally; 10] {
    let mut tallies = [Tally::default(); 10];
    for call in calls {
        let answer = directory.call(*call);
        tallies[kind(*call)].note(&answer);
    }
    tallies
}

fn show(rt: &impl Print, name: &str, tally: &Tally) -> io::Result<()> {
    let Tally {
        made,
        accepted,
        committed,
        aborted,
    } = *tally;
    println!(rt; "{name:<8}{made:>9}{accepted:>10}{committed:>11}{aborted:>9}")
}

fn show_all(rt: &impl Print, tallies: &[Tally; 10]) -> io::Result<()> {
    println!(rt; "call         made  accepted  committed  aborted")?;
    for (call, tally) in KINDS.iter().zip(tallies.iter()) {
        show(rt, name(*call), tally)?;
    }
    let all = tallies
        .iter()
        .fold(Tally::default(), |sum, tally| sum.with(tally));
    show(rt, "all", &all)
}

fn main(rt: HostRuntime) -> io::Result<()> {
    let heap = rt.alloc();
    let timed = env::args(&rt)?.any(|arg| arg.as_str() == "--time");
    let calls = list(heap, CALLS)?;
    let tallies = play(&mut directory(heap)?, &calls);
    show_all(&rt, &tallies)?;
    if timed {
        timing::report(&rt, heap, &calls, &tallies)?;
    }
    Ok(())
}
