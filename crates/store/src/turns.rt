// The turns of a run from a fresh store, taken over parts that are altered where they stand.
ghost use Rattle.std.specs.Prelude.{◌≡◌, ◌+◌, ◌≤◌, ◌<◌, replicate, take};
ghost use Rattle.figure.specs.Refusals.{most_engines, most_depth};
ghost use Rattle.shape.specs.Fresh.{fresh_of};
ghost use Rattle.shape.specs.Step.{stepped, answer_of, answer_by};
ghost use Rattle.shape.specs.Turns.{FreshTurned};
ghost use Rattle.shape.specs.declared.Store.{Store};
ghost use Rattle.decide.specs.Turned.{turned_of};
ghost use Rattle.scan.specs.Scan.{Looked, Decided};
ghost use Rattle.store.specs.Pieces.{own_after};
ghost use Rattle.store.specs.Running.{fresh_side, side_after, Moves, Holds, some_long};

use crate::given::Given;
use crate::parts;
use crate::queue::{self, Queue};
use crate::ring::Ring;
use decide::{Look, Move, Word};
use figure::{ADDRESSES, ENGINES, Record, Refused, Sizes};
use lists::bytes::RECORD;
use shape::{Cache, InEntry, OutEntry};
use std::array;

// What a run holds of one engine: its cache, the writes and the updates that wait, and how many of these updates are its own.
#[derive(Drop)]
struct Side {
    cache: Cache,
    writes: Ring<OutEntry>,
    updates: Ring<InEntry>,
    own: u8,
}

impl Side {
    fn fresh() -> Self
        ensures { result ≡ fresh_side }
    {
        Side {
            cache: parts::NO_WORDS,
            writes: Ring::empty(parts::NO_WRITE),
            updates: Ring::empty(parts::NO_UPDATE),
            own: 0,
        }
    }

    // What a move makes of the side of engine k + 1 when it is its turn, before the entry joins any in queue.
    fn moved(&mut self, k: usize, m: Move)
        requires { Moves (turned_of m) k self.old }
        ensures { self.new ≡ side_after (turned_of m) k self.old }
    {
        queue::out_moved(&mut self.writes, m);
        queue::in_left(&mut self.updates, m);
        parts::cache_moved(&mut self.cache, m);
        self.own = own_after(m, k, self.own);
    }
}

fn fresh_sides() -> [Side; ENGINES]
    ensures { result ≡ replicate most_engines fresh_side }
{
    array::from_fn(
        |_| -> Side
            ensures { result ≡ fresh_side }
        { Side::fresh() },
    )
}

// How many entries of its own wait in the in queue of engine k + 1: one more when its write is published, one less when it takes one of its own.
fn own_after(m: Move, k: usize, own: u8) -> u8
    requires { (own ≤ most_depth) × (k < most_engines) }
    ensures { result ≡ own_after (turned_of m) (k + 1) own }
{
    if m.word == Word::Stored {
        own + 1
    } else if m.in_left && usize::from(m.entry.origin.0) == k + 1 {
        own.saturating_sub(1)
    } else {
        own
    }
}

// All of a store but the unused places of its queues.
// Kept: Holds stands in each contract and is no view, since a run forgets what unused places hold: no Store is its value.
#[derive(Drop)]
struct Running {
    sizes: Sizes,
    memory: [u32; ADDRESSES],
    sides: [Side; ENGINES],
}

// Kept: some_full, look and carry_out stand here and for a Store; one of each for both would be no plainer, since it takes four arrays of either, or a trait that lends an array's element.
impl Running {
    fn fresh(given: Given) -> Self
        ensures { Holds (fresh_of given.entry.sizes given.entry.table.now) result }
    {
        Running {
            sizes: given.sizes,
            memory: parts::memory_of(given.table),
            sides: fresh_sides(),
        }
    }

    // Some in queue of the engines 1 to the engine count is full.
    fn some_full(&self) -> bool
        ensures { result ≡ some_long self.now.sizes.depth (take self.now.sizes.engines self.now.sides) }
    {
        let depth = self.sizes.depth;
        let n = usize::from(self.sizes.engines);
        self.sides
            .iter()
            .take(n)
            .any(|side| depth <= side.updates.len())
    }

    // What the action sees, as scan::look shows it of the store.
    fn look(&self, x: Record) -> Look
        ensures { (s : Store) → Holds s self.now → Looked s x result }
    {
        let a = scan::word_in(x.address);
        let side = &self.sides[scan::place_in(x.engine)];
        Look {
            sound: true,
            outs: side.writes.len(),
            ins: side.updates.len(),
            first_out: side.writes.oldest(),
            first_in: side.updates.oldest(),
            own: side.own != 0,
            blocked: decide::asks_all(x.kind) && self.some_full(),
            cached: side.cache.present[a].then_some(side.cache.data[a]),
            stored: self.memory[a],
        }
    }

    // Each part as the move leaves it, as a store's carry_out does it.
    fn carry_out(&mut self, x: Record, m: Move)
        requires { (s : Store) × (Holds s self.old × Decided s x (turned_of m)) }
        ensures { (s : Store) → Holds s self.old → Decided s x (turned_of m) → Holds (stepped s x).store self.new }
    {
        let k = scan::place_in(x.engine);
        self.sides[k].moved(k, m);
        let b = scan::word_in(m.entry.address);
        self.memory[b] = m.stored(self.memory[b]);
        // all sides first: a part of a field that is an array of structs is not covered
        let sides = &mut self.sides[..];
        for side in &mut sides[m.from..m.to] {
            side.updates.join(m.entry);
        }
    }

    // One turn: what the step answers.
    fn turn(&mut self, x: Record) -> Result<Record, Refused>
        requires { (s : Store) × Holds s self.old }
        ensures { (s : Store) → Holds s self.old → (answer_by result ≡ answer_of (stepped s x)) × Holds (stepped s x).store self.new }
    {
        let m = decide::decide(self.sizes, x, self.look(x))?;
        self.carry_out(x, m);
        Ok(m.event)
    }
}

pub(crate) fn take_turns(given: Given, actions: &[u8], trace: &mut [u8])
    ensures { FreshTurned given.entry.sizes given.entry.table.now actions.now trace.old 0 trace.new }
{
    let mut running = Running::fresh(given);
    // Kept: by index. Tried over actions.chunks_exact and trace.chunks_exact_mut: the return did not close, since of the trace its length is then known and no byte.
    for i in 0..(actions.len() / RECORD).min(trace.len() / RECORD) {
        let x = lists::bytes::record_at(actions, RECORD * i);
        lists::bytes::put_record(trace, RECORD * i, decide::traced(running.turn(x).into()));
    }
}
