// Files of a few bytes, sound and damaged.
use crate::decode::Step;
use crate::fault::RunFault;
use crate::sequence::{Placed, Steps};
use crate::write::{WriteFault, write_entry};
use protocol::call::{Call, Refusal};
use std::alloc::Global;
use std::test::Fail;

// Three machines, two coordinators, one region, logs of four places, start version 7, first number 1, home 0 1 2.
const SET_UP: &[u8; 24] = b"\0\x03\x02\x01\x04\0\0\0\0\0\0\0\x07\0\0\0\0\0\0\0\x01\0\x01\x02";

// That set-up, then open 0, read 0 5, write 0 5 112.
const SHEET: &[u8; 51] =
    b"\x01\0\x18\0\x03\x02\x01\x04\0\0\0\0\0\0\0\x07\0\0\0\0\0\0\0\x01\0\x01\x02\0\x02\x01\0\0\x04\x02\0\0\x05\0\x0c\x03\0\0\x05\0\0\0\0\0\0\0\x70";

fn count(bytes: &[u8]) -> Result<u8, RunFault> {
    let mut count = 0;
    for (n, step) in (1..).zip(Steps::open(bytes)?) {
        let _ = step?;
        count = n;
    }
    Ok(count)
}

// The numbers of the fault in a file, or two zeros and how many steps it has.
fn numbers(bytes: &[u8]) -> (u8, usize, u8) {
    match count(bytes) {
        Ok(n) => (0, 0, n),
        Err(fault) => (fault.cause(), fault.place(), fault.layer()),
    }
}

fn behind_set_up(heap: Global, entry: &[u8]) -> Result<Vec<u8>, WriteFault> {
    let mut file = [1].to_vec(heap)?;
    write_entry(&mut file, SET_UP)?;
    write_entry(&mut file, entry)?;
    Ok(file)
}

#[test]
fn frames(rt: HostRuntime) -> Result<(), Fail> {
    assert_eq!(rt; numbers(b""), (13, 0, 1));
    assert_eq!(rt; numbers(b"\x02"), (13, 0, 1));
    assert_eq!(rt; numbers(b"\x01"), (0, 0, 0));
    assert_eq!(rt; numbers(b"\x01\0"), (14, 1, 1));
    assert_eq!(rt; numbers(b"\x01\0\x03\x09\x09"), (14, 1, 1));
    let mut long = vec![in rt.alloc(); 0; 65536]?;
    assert!(rt; long.len() == 65536);
    long[0] = 1;
    assert_eq!(rt; numbers(&long), (16, 1, 2));
    long.push(0)?;
    assert_eq!(rt; numbers(&long), (12, 65536, 1));
    Ok(())
}

#[test]
fn entries(rt: HostRuntime) -> Result<(), Fail> {
    let heap = rt.alloc();
    assert_eq!(rt; numbers(&behind_set_up(heap, b"\x0b\0")?), (15, 27, 2));
    assert_eq!(rt; numbers(&behind_set_up(heap, b"")?), (16, 27, 2));
    assert_eq!(rt; numbers(&behind_set_up(heap, b"\x01")?), (16, 27, 2));
    assert_eq!(rt; numbers(&behind_set_up(heap, SET_UP)?), (17, 27, 2));
    assert_eq!(rt; numbers(b"\x01\0\x02\x01\0"), (17, 1, 2));
    let refused = RunFault::SetUp {
        refusal: Refusal::BadTables,
        place: 1,
    };
    assert_eq!(rt;
        (refused.cause(), refused.place(), refused.layer()),
        (2, 1, 3)
    );
    assert_eq!(rt; format!(in heap; "{refused}")?.as_str(), "fault 2 1 3");
    Ok(())
}

// The step behind the first `n` steps.
fn step(bytes: &[u8], n: usize) -> Option<Placed> {
    let steps = Steps::open(bytes).ok()?;
    steps.into_iter().nth(n)?.ok()
}

#[test]
fn sheet(rt: HostRuntime) -> Result<(), Fail> {
    assert_eq!(rt; numbers(SHEET), (0, 0, 4));
    let Some(first) = step(SHEET, 0) else {
        return Err(Fail::new("no first step"));
    };
    let Step::SetUp(plan) = first.step else {
        return Err(Fail::new("no set-up"));
    };
    assert_eq!(rt;
        (first.place, plan.machines, plan.coordinators, plan.capacity),
        (1, 3, 2, 4)
    );
    assert_eq!(rt; (plan.start, plan.first), (7, 1));
    assert_eq!(rt;
        (
            plan.homes[0].first,
            plan.homes[0].second,
            plan.homes[1].second,
        ),
        (1, 2, 0)
    );
    let last = Placed {
        place: 37,
        step: Step::Call(Call::Write(0, 5, 112)),
    };
    assert_eq!(rt; step(SHEET, 3), Some(last));
    Ok(())
}
