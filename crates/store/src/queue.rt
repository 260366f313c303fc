// What a store's queues and a run's have in common, and what a move makes of either where it stands.
ghost use Rattle.std.specs.Prelude.{◌≡◌, true, ℕ, ◌≤◌, ◌<◌, ◌++◌, ◌∷◌, [], eqb, take, length};
ghost use mathlib.Core.List.{tail};
ghost use Rattle.figure.specs.Refusals.{pick, most_depth};
ghost use Rattle.shape.specs.Parts.{over, out_joined, out_left, in_joined, in_left};
ghost use Rattle.shape.specs.Step.{out_entry};
ghost use Rattle.decide.specs.Turned.{turned_of};

use decide::Move;
use figure::DEPTH;
use shape::{InEntry, InQueue, OutEntry, OutQueue};

// First in, first out: an entry joins at the end, and the oldest leaves.
pub(crate) trait Queue<E> {
    ghost waiting: { Self → ℕ };

    ghost joined: { Self → E → Self };

    ghost left: { Self → Self };

    fn join(&mut self, x: E)
        requires { waiting self.old < most_depth }
        ensures { self.new ≡ joined self.old x };

    fn leave(&mut self)
        requires { (0 < waiting self.old) × (waiting self.old ≤ most_depth) }
        ensures { self.new ≡ left self.old };
}

impl Queue<OutEntry> for OutQueue {
    ghost waiting = { λ q. q.len };

    ghost joined = { λ q x. out_joined x q };

    ghost left = { out_left };

    fn join(&mut self, x: OutEntry) {
        join(&mut self.entries, &mut self.len, x);
    }

    fn leave(&mut self) {
        leave(&mut self.entries, &mut self.len);
    }
}

impl Queue<InEntry> for InQueue {
    ghost waiting = { λ q. q.len };

    ghost joined = { λ q x. in_joined x q };

    ghost left = { in_left };

    fn join(&mut self, x: InEntry) {
        join(&mut self.entries, &mut self.len, x);
    }

    fn leave(&mut self) {
        leave(&mut self.entries, &mut self.len);
    }
}

// Kept: an out queue and an in queue are two structs, and each lends its entries and how many they are, since the export that C calls may name no generic struct (unsupported-generic-in-c).
fn join<E: Copy>(entries: &mut [E; DEPTH], len: &mut u8, x: E)
    requires { len.old < most_depth }
    ensures longer { len.new ≡ length (take len.old entries.old ++ (x ∷ [])) }
    ensures joined { entries.new ≡ over (take len.old entries.old ++ (x ∷ [])) entries.old }
{
    entries[usize::from(*len)] = x;
    *len += 1;
}

fn leave<E: Copy>(entries: &mut [E; DEPTH], len: &mut u8)
    requires { (0 < len.old) × (len.old ≤ most_depth) }
    ensures shorter { len.new ≡ length (tail (take len.old entries.old)) }
    ensures left { entries.new ≡ over (tail (take len.old entries.old)) entries.old }
{
    entries.copy_within(1..usize::from(*len), 0);
    *len -= 1;
}

// The out queue of the engine whose turn it is.
pub(crate) fn out_moved<Q: Queue<OutEntry>>(q: &mut Q, m: Move)
    requires leaving { m.out_left ≡ true → (0 < Q.waiting q.old) × (Q.waiting q.old ≤ most_depth) }
    requires joining { m.out_joins ≡ true → Q.waiting q.old < most_depth }
    ensures { let t = turned_of m in q.new ≡ pick (eqb t.out_left 1) (Q.left q.old) (pick (eqb t.out_joins 1) (Q.joined q.old (out_entry t.entry.address.0 t.entry.«data»)) q.old) }
{
    if m.out_left {
        q.leave();
    } else if m.out_joins {
        q.join(OutEntry {
            address: m.entry.address,
            data: m.entry.data,
        });
    }
}

// Its in queue, before the entry joins any.
pub(crate) fn in_left<Q: Queue<InEntry>>(q: &mut Q, m: Move)
    requires { m.in_left ≡ true → (0 < Q.waiting q.old) × (Q.waiting q.old ≤ most_depth) }
    ensures { q.new ≡ pick (eqb (turned_of m).in_left 1) (Q.left q.old) q.old }
{
    if m.in_left {
        q.leave();
    }
}
