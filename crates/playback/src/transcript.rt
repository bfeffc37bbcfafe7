// The lines that a step file is answered with.
ghost use Rattle.std.specs.Prelude.{◌≡◌, ◌++◌, OnOk, IfOk, string_bytes};
ghost use Rattle.std.specs.Iterator.Adapters.{enumerate_source};
ghost use Rattle.service.specs.Owned.{plan_of, owned};
ghost use Rattle.steps.specs.declared.fault.RunFault.TheVariants.{Entry};
ghost use Rattle.steps.specs.Reading.{steps_left};
ghost use Rattle.playback.specs.declared.transcript.Stop.TheVariants.{Fault, NoMemory};
ghost use Rattle.playback.specs.Playing.{Tells, Plays, Ends, Numbered, Opens, Starts, Sets, stop_at};
ghost use Rattle.playback.specs.Laws.{HasALineForEach, KeepsFronts};
ghost use Rattle.playback.specs.Transcript.{answer_line, calls_told, set_up_told, made, told_by, told, each_fits, FitsPlans};

use crate::row::{Row, name};
use memory::blank::Blank;
use memory::interface::Memory;
use protocol::call::{Answer, Call, Outcome, Refusal};
use protocol::plan::Plan;
use service::make::Unmade;
use service::owner::Directory;
use std::alloc::{AllocError, Global};
use std::fmt::Write;
use std::iter::Enumerate;
use steps::decode::Step;
use steps::fault::{EntryFault, RunFault};
use steps::sequence::{IntoIter, Steps};

// Why a file is not played to its end.
enum Stop {
    Fault(RunFault),
    NoMemory(AllocError),
}

impl From<EntryFault> for Stop {
    ghost from_gives = { λ fault r. r ≡ Fault (Entry fault) };

    fn from(fault: EntryFault) -> Stop {
        Stop::Fault(fault.into())
    }
}

impl From<AllocError> for Stop {
    ghost from_gives = { λ e r. r ≡ NoMemory e };

    fn from(e: AllocError) -> Stop {
        Stop::NoMemory(e)
    }
}

impl Stop {
    // Adds the line of the fault. Want of memory has none, and is handed on.
    fn tell(self, out: &mut String) -> Result<(), AllocError>
        ensures { Ends self (string_bytes out.old) (string_bytes out.new) result }
    {
        match self {
            Stop::Fault(fault) => writeln!(out, "{fault}"),
            Stop::NoMemory(e) => Err(e),
        }
    }
}

// A set-up at a place made no directory.
fn unmade(cause: Unmade, place: usize) -> Stop
    ensures { result ≡ stop_at place cause }
{
    match cause {
        Unmade::Refused(refusal) => Stop::Fault(RunFault::SetUp { refusal, place }),
        Unmade::NoMemory(e) => Stop::NoMemory(e),
    }
}

// A directory of the plan over new memories.
fn directory<P: Blank, F: Blank, S: Blank>(
    heap: Global,
    plan: Plan,
) -> Result<Directory<P, F, S>, Unmade>
    ensures { Sets P.words F.words S.words (each_fits P.fits F.fits S.fits) plan result }
{
    let n = plan.size();
    let primaries = P::blank(heap, n)?;
    let firsts = F::blank(heap, n)?;
    let seconds = S::blank(heap, n)?;
    Directory::new(heap, plan, primaries, firsts, seconds).map_err(|r| r.error)
}

// Adds the line of an entry: its number, its name, and the numbers of its answer.
fn add_line(
    out: &mut String,
    entry: usize,
    name: &str,
    answer: Result<Answer, Refusal>,
) -> Result<(), AllocError>
    ensures { OnOk result (string_bytes out.new ≡ string_bytes out.old ++ answer_line entry name.now answer) }
{
    let row = Row::from(answer);
    writeln!(out, "{entry} {name} {row}")
}

// Makes the call of an entry, and adds its line.
fn play_call<P: Memory, F: Memory, S: Memory>(
    out: &mut String,
    directory: &mut Directory<P, F, S>,
    entry: usize,
    call: Call,
) -> Result<(), AllocError>
    ensures tells { OnOk result (Tells (plan_of directory.old) (owned P.words F.words S.words directory.old) (owned P.words F.words S.words directory.new) entry call (string_bytes out.old) (string_bytes out.new)) }
    ensures plan { plan_of directory.new ≡ plan_of directory.old }
{
    let answer = directory.call(call);
    add_line(out, entry, name(call), answer)
}

// Makes the calls behind the set-up.
fn play_calls<P: Memory + Drop, F: Memory + Drop, S: Memory + Drop>(
    out: &mut String,
    mut directory: Directory<P, F, S>,
    steps: Enumerate<IntoIter>,
) -> Result<(), Stop>
    requires starts { Starts P.Memory.words F.Memory.words S.Memory.words directory }
    requires numbered { Numbered 1 steps }
    ensures { Plays (string_bytes out.old) (string_bytes out.new) (calls_told (plan_of directory) (steps_left (enumerate_source steps.entry))) result }
{
    for (entry, placed) in steps {
        let Step::Call(call) = placed?.step else {
            return Ok(());
        };
        play_call(out, &mut directory, entry, call)?;
    }
    Ok(())
}

// The steps of the file, each with its entry's number.
fn numbered<'a>(bytes: &'a [u8]) -> Result<Enumerate<IntoIter<'a>>, EntryFault>
    ensures { Opens bytes.now result }
{
    Ok(Steps::open(bytes)?.into_iter().enumerate())
}

// Sets up a directory, and plays the steps behind the set-up, which is entry 0.
fn play_plan<P: Blank, F: Blank, S: Blank>(
    heap: Global,
    out: &mut String,
    plan: Plan,
    place: usize,
    steps: Enumerate<IntoIter>,
) -> Result<(), Stop>
    requires { Numbered 1 steps }
    ensures { Plays (string_bytes out.old) (string_bytes out.new) (set_up_told plan place (steps_left (enumerate_source steps.entry)) (made (each_fits P.fits F.fits S.fits) plan)) result }
{
    let directory = directory::<P, F, S>(heap, plan).map_err(|cause| unmade(cause, place))?;
    let ready = Answer::new(plan.size() as u64, 0, Outcome::Going);
    add_line(out, 0, "setup", Ok(ready))?;
    play_calls(out, directory, steps)
}

// The set-up, and then the other entries.
fn play<P: Blank, F: Blank, S: Blank>(
    heap: Global,
    out: &mut String,
    bytes: &[u8],
) -> Result<(), Stop>
    ensures { Plays (string_bytes out.old) (string_bytes out.new) (told_by (each_fits P.fits F.fits S.fits) bytes.now) result }
{
    let mut steps = numbered(bytes)?;
    let Some(head) = steps.next() else {
        return Ok(());
    };
    let (_, first) = head;
    let first = first?;
    let Step::SetUp(plan) = first.step else {
        return Ok(());
    };
    play_plan::<P, F, S>(heap, out, plan, first.place, steps)
}

// Plays the file, and gives all the lines. A fault is the last of them.
#[tactic(auto, using(crate::proofs::Sizes::told_same))]
pub fn transcript<P: Blank, F: Blank, S: Blank>(
    heap: Global,
    bytes: &[u8],
) -> Result<String, AllocError>
    ensures by_size { IfOk result (λ s. string_bytes s ≡ told_by (each_fits P.fits F.fits S.fits) bytes.now) }
    ensures lines { IfOk result (λ s. HasALineForEach (each_fits P.fits F.fits S.fits) bytes.now (string_bytes s)) }
    ensures fronts { IfOk result (λ s. KeepsFronts (told_by (each_fits P.fits F.fits S.fits)) bytes.now (string_bytes s)) }
    ensures whatever_makes { FitsPlans (each_fits P.fits F.fits S.fits) → IfOk result (λ s. string_bytes s ≡ told bytes.now) }
{
    let mut out = String::new(heap);
    if let Err(stop) = play::<P, F, S>(heap, &mut out, bytes) {
        stop.tell(&mut out)?;
    }
    Ok(out)
}
