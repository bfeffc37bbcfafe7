ghost use Rattle.std.specs.Prelude.{◌≡◌, ◌/◌, ◌<◌, length, vec_len, slice_set};
ghost use Rattle.memory.specs.Make.{sizeable, packable, Making, Taking};
ghost use Rattle.memory.specs.Meanings.{packed_bytes, packed_words};
ghost use Rattle.memory.specs.Packing.{unpacked};
ghost use Rattle.memory.specs.Words.{at, blanks, Proper};
ghost use Rattle.memory.specs.PackingLemmas.{unpacked-proper, unpacked-sized};

use super::Packed;
use super::bytes::{load, store};
use crate::interface::Memory;
use crate::make::{MakeError, Rejected, is_size};
use crate::store::{Store, free, lock, look, put};
use crate::word::{VERSION_END, Word};
use std::alloc::Global;

impl Packed {
    // A memory of n words, all zero.
    #[tactic(auto, using(crate::proofs::Packing::packing))]
    pub fn new(heap: Global, n: usize) -> Result<Self, MakeError>
        ensures { Making packed_words (sizeable n) (blanks n) result }
    {
        if !is_size(n) {
            return Err(MakeError::BadSize);
        }
        let bytes = vec![in heap; 0; 16 * n]?;
        Ok(Packed { bytes })
    }

    // A memory of the words that the bytes hold, or the bytes handed back.
    pub fn from_bytes(bytes: Vec<u8>) -> Result<Self, Rejected<MakeError, Vec<u8>>>
        ensures { Taking packed_words (packable (vec_len bytes)) (unpacked bytes.items) bytes result }
    {
        let n = bytes.len();
        if n % 16 != 0 || !is_size(n / 16) {
            return Err(Rejected {
                error: MakeError::BadSize,
                given: bytes,
            });
        }
        Ok(Packed { bytes })
    }

    // The bytes that hold the words.
    pub fn into_bytes(self) -> Vec<u8>
        ensures { result ≡ packed_bytes self }
    {
        let Packed { bytes } = self;
        bytes
    }
}

#[tactic(auto, using(crate::proofs::Packing::packing))]
impl Store for Packed {
    ghost words = { packed_words };

    ghost proper = { λ m. unpacked-proper m.bytes.items };

    fn count(&self) -> usize {
        self.bytes.len() / 16
    }

    fn word(&self, address: usize) -> Word {
        let bytes = self.bytes.as_slice();
        let head = load(bytes, 16 * address);
        let value = load(bytes, 16 * address + 8);
        Word {
            version: head % VERSION_END,
            holder: (head / VERSION_END) as u8,
            value,
        }
    }

    fn set_word(&mut self, address: usize, word: Word) {
        let bytes = self.bytes.as_mut_slice();
        let head = u64::from(word.holder) * VERSION_END + word.version;
        store(bytes, 16 * address, head);
        store(bytes, 16 * address + 8, word.value);
    }
}

// The five functions of a store, by name.
impl Memory for Packed {
    ghost words = { packed_words };

    ghost sized = { λ m. unpacked-sized m.bytes.items m.some m.few };

    ghost proper = { λ m. unpacked-proper m.bytes.items };

    fn size(&self) -> usize {
        self.count()
    }

    fn look(&self, address: usize) -> Option<(u64, u8, u64)> {
        look(self, address)
    }

    fn lock(&mut self, address: usize, version: u64, holder: u8) -> bool {
        lock(self, address, version, holder)
    }

    fn put(&mut self, address: usize, version: u64, value: u64) -> bool {
        put(self, address, version, value)
    }

    fn free(&mut self, address: usize, holder: u8) -> bool {
        free(self, address, holder)
    }
}
