// How long the calls take: the list is played five times, each time on a new directory, and the best time counts, since the
// machine may do other work besides. Nothing is printed while it is played.
use crate::made::directory;
use crate::tally::{KINDS, Tally, kind};
use playback::row::name;
use protocol::call::Call;
use std::alloc::Global;
use std::io;
use std::rt::Clock;
use std::time::{Duration, Instant};

const PASSES: u8 = 5;

// Nanoseconds that the calls of one kind took.
#[derive(Clone, Copy)]
struct Spent {
    accepted: u64,
    refused: u64,
}

impl Spent {
    fn note(&mut self, accepted: bool, time: u64) {
        if accepted {
            self.accepted = self.accepted.saturating_add(time);
        } else {
            self.refused = self.refused.saturating_add(time);
        }
    }

    fn least(&self, other: &Spent) -> Spent {
        Spent {
            accepted: self.accepted.min(other.accepted),
            refused: self.refused.min(other.refused),
        }
    }
}

fn nanos(spent: Duration) -> u64 {
    u64::try_from(spent.as_nanos()).unwrap_or(u64::MAX)
}

// The whole list, with the clock read at its ends alone.
fn whole(rt: &impl Clock, heap: Global, calls: &[Call]) -> io::Result<u64> {
    let mut directory = directory(heap)?;
    let start = Instant::now(rt)?;
    for call in calls {
        let _ = directory.call(*call);
    }
    Ok(nanos(start.elapsed(rt)?))
}

// The list with the clock read around each call.
fn each(rt: &impl Clock, heap: Global, calls: &[Call]) -> io::Result<[Spent; 10]> {
    let mut directory = directory(heap)?;
    let mut spent = [Spent {
        accepted: 0,
        refused: 0,
    }; 10];
    for call in calls {
        let start = Instant::now(rt)?;
        let accepted = directory.call(*call).is_ok();
        let time = nanos(start.elapsed(rt)?);
        spent[kind(*call)].note(accepted, time);
    }
    Ok(spent)
}

// A thousand times what it takes to read the clock around nothing.
fn clock(rt: &impl Clock) -> io::Result<u64> {
    let mut sum = 0u64;
    for _ in 0..100_000 {
        let start = Instant::now(rt)?;
        sum = sum.saturating_add(nanos(start.elapsed(rt)?));
    }
    Ok(sum / 100)
}

// A call's share of the time, less the clock's.
fn share(time: u64, calls: u64, clock: u64) -> u64 {
    let thousand = time.saturating_mul(1000) / calls.max(1);
    thousand.saturating_sub(clock) / 1000
}

fn show_whole(rt: &(impl Print + Clock), heap: Global, calls: &[Call]) -> io::Result<()> {
    let mut best = u64::MAX;
    for _ in 0..PASSES {
        best = best.min(whole(rt, heap, calls)?);
    }
    let n = calls.len() as u64;
    let rate = n.saturating_mul(1_000_000_000) / best.max(1);
    println!(rt; "{n} calls in {best} ns, {rate} calls a second")
}

fn show_each(
    rt: &(impl Print + Clock),
    spent: &[Spent; 10],
    tallies: &[Tally; 10],
) -> io::Result<()> {
    let clock = clock(rt)?;
    println!(rt; "ns a call  accepted   refused")?;
    for ((call, spent), tally) in KINDS.iter().zip(spent.iter()).zip(tallies.iter()) {
        let name = name(*call);
        let accepted = share(spent.accepted, tally.accepted, clock);
        let refused = share(
            spent.refused,
            tally.made.saturating_sub(tally.accepted),
            clock,
        );
        println!(rt; "{name:<9}{accepted:>10}{refused:>10}")?;
    }
    Ok(())
}

// Prints what the list takes, and what a call of each kind takes in it.
pub fn report(
    rt: &(impl Print + Clock),
    heap: Global,
    calls: &[Call],
    tallies: &[Tally; 10],
) -> io::Result<()> {
    show_whole(rt, heap, calls)?;
    let mut best = each(rt, heap, calls)?;
    for _ in 1..PASSES {
        let spent = each(rt, heap, calls)?;
        for (least, other) in best.iter_mut().zip(spent.iter()) {
            *least = least.least(other);
        }
    }
    show_each(rt, &best, tallies)
}
