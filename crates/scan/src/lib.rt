// What an action sees of a store that is lent: its queues are tested and looked at where they stand, and none is copied.
#![tactic(auto)]

ghost use Rattle.std.specs.Prelude.{◌≡◌, take};
ghost use Rattle.shape.specs.Parts.{own_waits};
ghost use Rattle.shape.specs.Sound.{sound_of, sound_out, sound_in};
ghost use Rattle.shape.specs.Step.{some_full};
ghost use Rattle.scan.specs.Scan.{PlaceIn, WordIn, Looked};

use decide::Look;
use figure::{ADDRESSES, Address, DEPTH, ENGINES, Engine, Record, Sizes};
use shape::{InQueue, OutQueue, Store};

// Where the parts of an engine and the word of an address stand, also for a record that names none of the store's.
pub fn place_in(i: Engine) -> usize
    ensures { PlaceIn i.0 result }
{
    decide::place_of(i) % ENGINES
}

pub fn word_in(a: Address) -> usize
    ensures { WordIn a.0 result }
{
    usize::from(a.0) % ADDRESSES
}

// The entries that wait in a queue: all of its array, where it claims more.
fn waiting<E>(entries: &[E; DEPTH], len: u8) -> &[E]
    ensures { result.now ≡ take len entries.now }
{
    &entries[..usize::from(len).min(DEPTH)]
}

// An out queue is sound: no longer than the depth, and each of its entries names an address of the store's.
fn out_sound(z: Sizes, outs: &OutQueue) -> bool
    ensures { result ≡ sound_out z outs.now }
{
    outs.len <= z.depth
        && waiting(&outs.entries, outs.len)
            .iter()
            .all(|e| e.address.0 < z.addresses)
}

// The same of an in queue, whose entries also name the engine that they come from, or none.
// Kept: two functions of two lines; one for both would take the test as a closure, whose `post` each caller has to turn back into sound_out and sound_in.
fn in_sound(z: Sizes, ins: &InQueue) -> bool
    ensures { result ≡ sound_in z ins.now }
{
    ins.len <= z.depth
        && waiting(&ins.entries, ins.len)
            .iter()
            .all(|e| e.origin.0 <= z.engines && e.address.0 < z.addresses)
}

// The test of refusal 17, engine by engine: past one whose queues are not sound nothing is looked at.
pub fn is_sound(s: &Store) -> bool
    ensures { result ≡ sound_of s.now }
{
    let z = s.sizes;
    let n = usize::from(z.engines);
    figure::judge_sizes(z).is_ok()
        && s.outs
            .iter()
            .zip(s.ins.iter())
            .take(n)
            .all(|(outs, ins)| out_sound(z, outs) && in_sound(z, ins))
}

// An entry of engine i's own waits in the in queue.
fn own_waits(i: Engine, ins: &InQueue) -> bool
    ensures { result ≡ own_waits i ins.now }
{
    waiting(&ins.entries, ins.len).iter().any(|e| e.origin == i)
}

// Some in queue of the engines 1 to the engine count is full.
fn some_full(s: &Store) -> bool
    ensures { result ≡ some_full s.now }
{
    let z = s.sizes;
    s.ins
        .iter()
        .take(usize::from(z.engines))
        .any(|q| z.depth <= q.len)
}

// What the action sees: whether the store is sound, its engine's queues and its word, and what only R or MW asks.
pub fn look(s: &Store, x: Record) -> Look
    ensures { Looked s.now x result }
{
    let k = place_in(x.engine);
    let a = word_in(x.address);
    let outs = &s.outs[k];
    let ins = &s.ins[k];
    let cache = &s.caches[k];
    Look {
        sound: is_sound(s),
        outs: outs.len,
        ins: ins.len,
        first_out: outs.entries[0],
        first_in: ins.entries[0],
        own: decide::asks_own(x.kind) && own_waits(x.engine, ins),
        blocked: decide::asks_all(x.kind) && some_full(s),
        cached: cache.present[a].then_some(cache.data[a]),
        stored: s.memory[a],
    }
}
