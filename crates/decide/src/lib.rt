// What a turn does is decided here, over small values: which refusal, which event, and which parts of the store change. Which refusal and which move a kind has is decided nowhere else.
#![tactic(auto)]

ghost use Rattle.std.specs.Prelude.{◌≡◌, pred, ◌<◌, eqb};
ghost use Rattle.shape.specs.Step.{filled};
ghost use Rattle.shape.specs.Trace.{traced_as};
ghost use Rattle.decide.specs.Turned.{turned_of, turn_by};
ghost use Rattle.decide.specs.Move.{move_of, stored_as, held_as, cached_as};

mod form;
mod turn;

use figure::{Address, Engine, Kind, Record, Refused, Sizes};
use shape::{Answer, InEntry, OutEntry};
use turn::Turn;

// What a turn looks at: whether the state is sound; of its engine's queues how many entries wait and which is the oldest, whether an entry of its own waits in the in queue; whether
// some in queue is full, which only MW asks; and the word at its address, in the cache, where it is there, and in memory.
#[derive(Clone, Copy, Debug, PartialEq, Eq)]
pub struct Look {
    pub sound: bool,
    pub outs: u8,
    pub ins: u8,
    pub first_out: OutEntry,
    pub first_in: InEntry,
    pub own: bool,
    pub blocked: bool,
    pub cached: Option<u32>,
    pub stored: u32,
}

// What becomes of the word at the entry's address: it stays, it is set in memory or in the engine's cache, or it is gone from the cache.
#[derive(Clone, Copy, Debug, PartialEq, Eq)]
pub enum Word {
    Kept,
    Stored,
    Cached,
    Dropped,
}

// What an accepted turn answers, and what it changes: whether its engine's queues lose their oldest entry, whether the entry joins the out queue, the places of the in queues
// that the entry joins, and what becomes of the word at the entry's address.
#[derive(Clone, Copy, Debug, PartialEq, Eq)]
pub struct Move {
    pub event: Record,
    pub out_left: bool,
    pub in_left: bool,
    pub out_joins: bool,
    pub from: usize,
    pub to: usize,
    pub entry: InEntry,
    pub word: Word,
}

impl Move {
    // What the move makes of memory's word at the entry's address.
    pub fn stored(self, old: u32) -> u32
        ensures { result ≡ stored_as (turned_of self) old }
    {
        match self.word {
            Word::Stored => self.entry.data,
            Word::Kept | Word::Cached | Word::Dropped => old,
        }
    }

    // Whether the cache has the word afterwards, and its value, which stands there for an absent one as well.
    // Kept: a flag and a value, no Option, since what may not change needs both: `held_as` and `cached_as` of specs/Move say what each becomes, an absent word's value too.
    pub fn held(self, old: bool) -> bool
        ensures { result ≡ held_as (turned_of self) old }
    {
        match self.word {
            Word::Cached => true,
            Word::Dropped => false,
            Word::Kept | Word::Stored => old,
        }
    }

    pub fn value(self, old: u32) -> u32
        ensures { result ≡ cached_as (turned_of self) old }
    {
        match self.word {
            Word::Cached => self.entry.data,
            Word::Kept | Word::Stored | Word::Dropped => old,
        }
    }
}

// Where engine i's parts stand; 0 for what is no engine.
pub fn place_of(i: Engine) -> usize
    ensures { (result ≡ pred i.0) × (result < 256) }
{
    usize::from(i.0.saturating_sub(1))
}

// Only R asks whether an entry of its own waits, and only MW whether some in queue is full: for another kind nobody need look.
// Kept: two names of one comparison each, since one for both would be a plain test of the kind, which does not say what is asked; and a byte, since the C interface needs a record's kind as a number, and one that is no kind asks nothing.
pub fn asks_own(kind: u8) -> bool
    ensures { result ≡ eqb kind 1 }
{
    kind == Kind::Read.code()
}

pub fn asks_all(kind: u8) -> bool
    ensures { result ≡ eqb kind 3 }
{
    kind == Kind::Publish.code()
}

pub fn decide(z: Sizes, x: Record, l: Look) -> Result<Move, Refused>
    ensures { turn_by result ≡ move_of z x l }
{
    if !l.sound {
        return Err(Refused::Unsound);
    }
    let kind = form::judge_form(z, x)?;
    let turn = Turn {
        sizes: z,
        action: x,
        look: l,
    };
    turn.decided(kind)
}

// What a turn leaves in the trace.
// Kept: what may not change needs an answer by its number: docs/DECISIONS 47 and 61 name `traced`, so it isn't inner, and an enum would ask more of its callers.
pub fn traced(said: Answer) -> Record
    ensures { result ≡ traced_as said.number said.event }
{
    if said.number == 0 {
        return said.event;
    }
    Record {
        engine: Engine(said.number),
        ..figure::no_record()
    }
}

fn entry_of(origin: Engine, address: Address, data: u32) -> InEntry
    ensures { result ≡ record { origin = origin; address = address; «data» = «data» } }
{
    InEntry {
        origin,
        address,
        data,
    }
}

// The action with its origin, address and data filled in.
fn fill(x: Record, e: InEntry) -> Record
    ensures { result ≡ filled x e }
{
    Record {
        origin: e.origin,
        address: e.address,
        data: e.data,
        ..x
    }
}
