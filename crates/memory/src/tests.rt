ghost use Rattle.std.specs.Prelude.{◌≤◌, ◌+◌, length};

use crate::blank::Blank;
use crate::cells::Cells;
use crate::interface::Memory;
use crate::joined::Joined;
use crate::packed::Packed;
use crate::request::{Request, Response};
use crate::runs::{alike, run};
use std::alloc::Global;
use std::process::Abort;
use std::test::Fail;

const REQUESTS: [Request; 9] = [
    Request::Size,
    Request::Put(2, 7, 9),
    Request::Put(2, 1 << 60, 9),
    Request::Lock(2, 7, 15),
    Request::Lock(2, 7, 1),
    Request::Look(2),
    Request::Free(2, 1),
    Request::Free(2, 15),
    Request::Look(3),
];

// The requests made of a new memory of three words, whatever its make.
fn follows_rules<M: Memory>(rt: &impl Abort, heap: Global, memory: &mut M) -> Result<(), Fail> {
    let expected = [
        Response::Count(3),
        Response::Done(true),
        Response::Done(false),
        Response::Done(true),
        Response::Done(false),
        Response::Shown(Some((7, 15, 9))),
        Response::Done(false),
        Response::Done(true),
        Response::Shown(None),
    ];
    assert!(rt; run(heap, memory, &REQUESTS)?.as_slice() == expected.as_slice());
    Ok(())
}

#[test]
fn each_make_follows_rules(rt: HostRuntime) -> Result<(), Fail> {
    follows_rules(&rt, rt.alloc(), &mut Cells::new(rt.alloc(), 3)?)?;
    follows_rules(&rt, rt.alloc(), &mut Packed::new(rt.alloc(), 3)?)?;
    let Ok(mut joined) = Joined::new(Cells::new(rt.alloc(), 1)?, Packed::new(rt.alloc(), 2)?) else {
        return Err(Fail::new("not joined"));
    };
    follows_rules(&rt, rt.alloc(), &mut joined)
}

fn blank_follows_rules<M: Blank>(rt: &impl Abort, heap: Global) -> Result<(), Fail> {
    assert!(rt; M::fits(3));
    follows_rules(rt, heap, &mut M::blank(heap, 3)?)
}

#[test]
fn each_make_is_made_blank(rt: HostRuntime) -> Result<(), Fail> {
    blank_follows_rules::<Cells>(&rt, rt.alloc())?;
    blank_follows_rules::<Packed>(&rt, rt.alloc())?;
    blank_follows_rules::<Joined<Cells, Packed>>(&rt, rt.alloc())?;
    assert!(rt; Joined::<Cells, Packed>::blank(rt.alloc(), 1).is_err());
    assert!(rt; !Joined::<Cells, Joined<Cells, Packed>>::fits(2));
    Ok(())
}

#[test]
fn pairs_nest(rt: HostRuntime) -> Result<(), Fail> {
    let Ok(pair) = Joined::new(Cells::new(rt.alloc(), 1)?, Packed::new(rt.alloc(), 1)?) else {
        return Err(Fail::new("no pair"));
    };
    let Ok(mut joined) = Joined::new(pair, Cells::new(rt.alloc(), 1)?) else {
        return Err(Fail::new("no pair of a pair"));
    };
    follows_rules(&rt, rt.alloc(), &mut joined)
}

#[test]
fn bytes_are_big_endian(rt: HostRuntime) -> Result<(), Fail> {
    let mut memory = Packed::new(rt.alloc(), 1)?;
    assert!(rt; memory.put(0, 258, 772));
    assert!(rt; memory.lock(0, 258, 15));
    let bytes = memory.into_bytes();
    assert_eq!(rt;
        bytes.as_slice(),
        [0xf0, 0, 0, 0, 0, 0, 1, 2, 0, 0, 0, 0, 0, 0, 3, 4].as_slice()
    );
    let Ok(memory) = Packed::from_bytes(bytes) else {
        return Err(Fail::new("16 bytes refused"));
    };
    assert_eq!(rt; memory.look(0), Some((258, 15, 772)));
    Ok(())
}

#[test]
fn refusals_hand_back(rt: HostRuntime) -> Result<(), Fail> {
    let Err(rejected) = Packed::from_bytes(vec![in rt.alloc(); 1; 24]?) else {
        return Err(Fail::new("24 bytes taken"));
    };
    assert_eq!(rt; rejected.given.len(), 24);
    let Err(rejected) = Joined::new(Cells::new(rt.alloc(), 65536)?, Cells::new(rt.alloc(), 1)?)
    else {
        return Err(Fail::new("65537 words joined"));
    };
    assert_eq!(rt; rejected.given.0.size(), 65536);
    Ok(())
}

#[test]
fn makes_answer_alike(rt: HostRuntime) -> Result<(), Fail> {
    let mut cells = Cells::new(rt.alloc(), 3)?;
    assert!(rt; alike(&mut cells, &mut Packed::new(rt.alloc(), 3)?, &REQUESTS));
    assert!(rt; !alike(&mut cells, &mut Packed::new(rt.alloc(), 2)?, &REQUESTS));
    Ok(())
}

// A make as another crate may write it: its type says something of its parts' words.
#[derive(Drop)]
struct Backed<A: Memory, B: Memory> {
    front: A,
    back: B,
    ghost few: { length (A.Memory.words front) + length (B.Memory.words back) ≤ 65536 },
}

impl<A: Memory, B: Memory> Memory for Backed<A, B> {
    ghost words = { λ m. A.Memory.words m.front };

    ghost sized = { λ m. A.Memory.sized m.front };

    ghost proper = { λ m. A.Memory.proper m.front };

    fn size(&self) -> usize {
        self.front.size()
    }

    fn look(&self, address: usize) -> Option<(u64, u8, u64)> {
        self.front.look(address)
    }

    fn lock(&mut self, address: usize, version: u64, holder: u8) -> bool {
        self.front.lock(address, version, holder)
    }

    fn put(&mut self, address: usize, version: u64, value: u64) -> bool {
        self.front.put(address, version, value)
    }

    fn free(&mut self, address: usize, holder: u8) -> bool {
        self.front.free(address, holder)
    }
}

fn back_of_pairs(pairs: &Backed<Backed<Cells, Packed>, Cells>) -> usize {
    pairs.back.size() + pairs.front.back.size()
}

#[test]
fn another_make_is_a_part_of_itself(rt: HostRuntime) -> Result<(), Fail> {
    let front = Backed {
        front: Cells::new(rt.alloc(), 3)?,
        back: Packed::new(rt.alloc(), 5)?,
    };
    let mut pairs = Backed {
        front,
        back: Cells::new(rt.alloc(), 7)?,
    };
    assert_eq!(rt; back_of_pairs(&pairs), 12);
    follows_rules(&rt, rt.alloc(), &mut pairs)
}
