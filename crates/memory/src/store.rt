ghost use Rattle.std.specs.Prelude.{◌≡◌, ℕ, ◌<◌, ◌≤◌, List, length, slice_set, Some};
ghost use Rattle.memory.specs.declared.word.Word.{Word};
ghost use Rattle.memory.specs.Words.{at, Proper, look_at, lockable, locked, puttable, put_to, freeable, freed};
ghost use Rattle.memory.specs.Changing.{Changes};

use crate::word::{VERSION_END, Word};

// Words in a row, each read and written whole. Such a row makes a memory, however it keeps its words.
pub trait Store {
    ghost words: { Self → List Word };

    // How many words there are.
    fn count(&self) -> usize
        ensures { result ≡ length (words self.now) };

    // The word at an address.
    fn word(&self, address: usize) -> Word
        requires { address < length (words self.now) }
        ensures { result ≡ at (words self.now) address };

    // Writes a word at an address.
    fn set_word(&mut self, address: usize, word: Word)
        requires within { address < length (words self.old) }
        requires proper { Proper word }
        ensures { words self.new ≡ slice_set (words self.old) address word };

    ghost proper: { (s : Self) (a : ℕ) → Proper (at (words s) a) };
}

// Writes what `next` makes of the word at an address, or answers false where there is no word or nothing is made of it.
fn change<S: Store, F: FnOnce(Word) -> Option<Word>>(store: &mut S, address: usize, next: F) -> bool
    requires callable { F.IsAlwaysCallable next }
    requires proper { (w : Word) → F.post next (at (S.Store.words store.old) address) (Some w) → Proper w }
    ensures { Changes (F.post next) (S.Store.words store.old) address result (S.Store.words store.new) }
{
    if address >= store.count() {
        return false;
    }
    let Some(w) = next(store.word(address)) else {
        return false;
    };
    store.set_word(address, w);
    true
}

// What a memory of such a row does. Each make has an `impl` of its own that calls these, and not one `impl` for every store:
// beside that one the check finds no single `impl` for a make of another crate, and does not cover a pair of pairs whose type
// says something of its parts' words.
pub(crate) fn look<S: Store>(store: &S, address: usize) -> Option<(u64, u8, u64)>
    ensures { result ≡ look_at (S.Store.words store.now) address }
{
    if address >= store.count() {
        return None;
    }
    Some(store.word(address).into())
}

pub(crate) fn lock<S: Store>(store: &mut S, address: usize, version: u64, holder: u8) -> bool
    ensures answer { result ≡ lockable (S.Store.words store.old) address version holder }
    ensures after { S.Store.words store.new ≡ locked (S.Store.words store.old) address version holder }
{
    change(store, address, |w| {
        w.is_free_at(version, holder).then(|| w.held_by(holder))
    })
}

pub(crate) fn put<S: Store>(store: &mut S, address: usize, version: u64, value: u64) -> bool
    ensures answer { result ≡ puttable (S.Store.words store.old) address version }
    ensures after { S.Store.words store.new ≡ put_to (S.Store.words store.old) address version value }
{
    change(store, address, |_| {
        (version < VERSION_END).then(|| Word::free(version, value))
    })
}

pub(crate) fn free<S: Store>(store: &mut S, address: usize, holder: u8) -> bool
    ensures answer { result ≡ freeable (S.Store.words store.old) address holder }
    ensures after { S.Store.words store.new ≡ freed (S.Store.words store.old) address holder }
{
    change(store, address, |w| {
        w.is_held_as(holder).then(|| w.held_by(0))
    })
}
