// Appends and drops, one after the other, on a ring that was empty: it does what a plain queue does.
ghost use Rattle.std.specs.Prelude.{◌≡◌, ◌<◌, ◌≤◌, true, false, [], length, if◌then◌else◌};
ghost use Rattle.ring.specs.Contents.{empty_ring, contents, Sound};
ghost use Rattle.ring.specs.Queue.{after, takes, takes_all, queue, served_all, Plain};

use crate::Ring;

// One entry more behind the last, or the first entries out.
#[derive(Clone, Copy, Debug, PartialEq, Eq)]
pub enum Operation<T> {
    Append(T),
    DropFront(usize),
}

// The ring after the operations, and how many of them it refused.
#[derive(Clone, Copy, Debug, PartialEq, Eq)]
pub struct Replayed {
    pub ring: Ring,
    pub refused: usize,
}

// Makes one operation, or answers false where the ring refuses it.
fn apply<T: Copy>(ring: &mut Ring, slots: &mut [T], operation: Operation<T>) -> bool
    ensures answers { Sound ring.old (length slots.old) → result ≡ takes (length slots.old) (contents ring.old slots.old) operation }
    ensures holds { contents ring.new slots.new ≡ (if result then after (contents ring.old slots.old) operation else contents ring.old slots.old) }
    ensures stands { Sound ring.old (length slots.old) → Sound ring.new (length slots.new) }
    ensures polled { ring.new.cursor ≤ ring.old.cursor }
    ensures kept { result ≡ false → ring.new ≡ ring.old }
    ensures empty { length slots.old ≡ 0 → result ≡ false }
{
    match operation {
        Operation::Append(entry) => ring.append(slots, entry),
        Operation::DropFront(n) => ring.drop_front(slots, n),
    }
}

// Makes the operations in their order on an empty ring over the slots. With at least one slot, the ring holds and refuses
// what a queue of that size does; where a plain queue would never be over that size, and would always have what is
// dropped, the ring refuses nothing and shows at every place what the plain queue has there. Without a slot it refuses all.
// No entry is polled.
#[tactic(auto, using(crate::proofs::Queues::starts_sound, crate::proofs::Rotated::contents_empty))]
pub fn replay<T: Copy>(slots: &mut [T], operations: &[Operation<T>]) -> Replayed
    ensures stands { 0 < length slots.old → Sound result.ring (length slots.new) }
    ensures served { 0 < length slots.old → queue (contents result.ring slots.new) result.refused ≡ served_all (length slots.old) operations.now }
    ensures plain { 0 < length slots.old → takes_all (length slots.old) [] operations.now ≡ true → Plain operations.now result.ring slots.new result.refused }
    ensures unpolled { result.ring.cursor ≡ 0 }
    ensures none { length slots.old ≡ 0 → (result.ring ≡ empty_ring) × (result.refused ≡ length operations.now) }
{
    let mut ring = Ring::new();
    let mut refused = 0;
    for operation in operations {
        if !apply(&mut ring, slots, *operation) {
            refused += 1;
        }
    }
    Replayed { ring, refused }
}
