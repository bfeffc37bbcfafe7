// The list of calls: made from a seed, and tried on a directory, so that most of them are accepted.
use crate::made::directory;
use crate::seeded::Seeded;
use protocol::call::Call;
use std::alloc::{AllocError, Global};

// Makes up calls of four coordinators. `latest` is the address that each coordinator read last, and the one that it writes.
#[derive(Drop)]
struct Maker {
    seeded: Seeded,
    latest: [u16; 4],
}

impl Maker {
    // One of 64 words, eight of each region, so that transactions meet. Now and then there is no such word.
    fn address(&mut self) -> u16 {
        let word = u16::from(self.seeded.below(64));
        if self.seeded.below(100) == 0 {
            512 + word
        } else {
            8 * word
        }
    }

    fn read(&mut self, c: u8) -> Call {
        let address = self.address();
        if let Some(latest) = self.latest.get_mut(c as usize) {
            *latest = address;
        }
        Call::Read(c, address)
    }

    fn write(&mut self, c: u8) -> Call {
        let address = self.latest.get(c as usize).copied().unwrap_or(0);
        Call::Write(c, address, u64::from(self.seeded.below(255)))
    }

    // A call that fits some phase. Reads, sends and polls are the most, since a transaction has several.
    fn next(&mut self) -> Call {
        let c = self.seeded.below(4);
        let m = self.seeded.below(5);
        match self.seeded.below(200) {
            0..=19 => Call::Open(c),
            20..=59 => self.read(c),
            60..=84 => self.write(c),
            85 => Call::Abandon(c),
            86..=95 => Call::Commit(c),
            96..=119 => Call::Send(c),
            120..=159 => Call::Poll(c, m),
            160..=174 => Call::Take(c, m),
            175..=184 => Call::Check(c),
            _ => Call::Trim(c, m),
        }
    }
}

// A list of n calls, each tried on a directory of its own. Of the refused ones one in sixteen is kept.
pub fn list(heap: Global, n: usize) -> Result<Vec<Call>, AllocError> {
    let mut directory = directory(heap)?;
    let mut calls = Vec::with_capacity(heap, n)?;
    let mut maker = Maker {
        seeded: Seeded::new(2015),
        latest: [0; 4],
    };
    for _ in 0..n.saturating_mul(100) {
        if calls.len() >= n {
            break;
        }
        let call = maker.next();
        if directory.call(call).is_ok() || maker.seeded.below(16) == 0 {
            calls.push(call)?;
        }
    }
    Ok(calls)
}
