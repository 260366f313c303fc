// A queue in a ring of 32 places, specified by the list of its entries, oldest first: nothing is shifted, and what stands in its unused places is forgotten.
ghost use Rattle.std.specs.Prelude.{◌≡◌, ◌<◌, ◌≤◌, List, [], ◌∷◌, ◌++◌, length, get_or};
ghost use mathlib.Core.List.{tail};
ghost use Rattle.figure.specs.Refusals.{most_depth};
ghost use Rattle.store.specs.Pieces.{window};

use crate::queue::Queue;
use figure::{DEPTH, MOST_DEPTH};
use std::marker::Model;

// Kept: places of our own, since a run has fixed memory and no heap, and the blocks of a VecDeque or of the kit's circular_buffer come from an allocator.
#[derive(Drop)]
pub(crate) struct Ring<E> {
    oldest: u8,
    len: u8,
    entries: [E; DEPTH],
}

impl<E> Model for Ring<E> {
    ghost Value = { List E };

    ghost view = { λ r. window r.oldest r.len r.entries };

    ghost invariant = { λ r. (r.oldest < most_depth) × (r.len ≤ most_depth) × (length r.entries ≡ most_depth) };
}

impl<E: Copy> Ring<E> {
    // The entry given fills the places, and is none of the queue's.
    pub(crate) fn empty(unused: E) -> Self
        ensures { result ≡ [] }
    {
        Ring {
            oldest: 0,
            len: 0,
            entries: [unused; DEPTH],
        }
    }

    pub(crate) fn len(&self) -> u8
        ensures { (result ≡ length self.now) × (result ≤ most_depth) }
    {
        self.len
    }

    // The oldest entry, where there is one.
    pub(crate) fn oldest(&self) -> E
        ensures { (d : E) → 0 < length self.now → result ≡ get_or self.now 0 d }
    {
        self.entries[usize::from(self.oldest)]
    }
}

impl<E: Copy> Queue<E> for Ring<E> {
    ghost waiting = { length };

    ghost joined = { λ q x. q ++ x ∷ [] };

    ghost left = { tail };

    fn join(&mut self, x: E) {
        self.entries[usize::from((self.oldest + self.len) % MOST_DEPTH)] = x;
        self.len += 1;
    }

    fn leave(&mut self) {
        self.oldest = (self.oldest + 1) % MOST_DEPTH;
        self.len -= 1;
    }
}
