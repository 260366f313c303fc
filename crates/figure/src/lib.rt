// The sorts of number that the store is made of, its sizes, and the 8-byte record as a struct.
#![tactic(auto)]

ghost use Rattle.std.specs.Prelude.{◌≡◌, eqb, min, pred, Some, None};
ghost use Rattle.figure.specs.Kind.{code_of};
ghost use Rattle.figure.specs.Refusals.{outside, first_of, pick, most_engines, sizes_refused};
ghost use Rattle.figure.specs.Record.{no_record};
ghost use Rattle.figure.specs.Refused.{number_in};

pub mod kind;
pub mod ledger;
pub mod refused;

pub use kind::Kind;
pub use refused::Refused;

// An engine number, from 1. As an origin, 0 means "from memory".
// Kept: the C interface needs the 0, which a record there has as its origin, not an Option.
#[repr(C)]
#[derive(Clone, Copy, Debug, Default, PartialEq, Eq)]
pub struct Engine(pub u8);

// An address, from 0.
#[repr(C)]
#[derive(Clone, Copy, Debug, Default, PartialEq, Eq)]
pub struct Address(pub u8);

// The number of a write or of its slot: write 1 is the first that was published.
#[derive(Clone, Copy, Debug, Default, PartialEq, Eq, PartialOrd, Ord)]
pub struct WriteNumber(pub u32);

// The most engines, addresses and entries of a queue, and how many places arrays have for them.
pub const MOST_ENGINES: u8 = 8;

pub const MOST_ADDRESSES: u8 = 64;

pub const MOST_DEPTH: u8 = 32;

pub const ENGINES: usize = MOST_ENGINES as usize;

pub const ADDRESSES: usize = MOST_ADDRESSES as usize;

pub const DEPTH: usize = MOST_DEPTH as usize;

// How many engines, how many addresses, and how many entries a queue holds at most.
#[repr(C)]
#[derive(Clone, Copy, Debug, Default, PartialEq, Eq)]
pub struct Sizes {
    pub engines: u8,
    pub addresses: u8,
    pub depth: u8,
}

// An action, or the event of an accepted one.
// Kept: the C interface needs the kind as a number; 0, that of a refused action's trace record, is none of the kinds.
#[repr(C)]
#[derive(Clone, Copy, Debug, Default, PartialEq, Eq)]
pub struct Record {
    pub kind: u8,
    pub engine: Engine,
    pub origin: Engine,
    pub address: Address,
    pub data: u32,
}

impl Record {
    pub fn is(self, kind: Kind) -> bool
        ensures { result ≡ eqb self.kind (code_of kind) }
    {
        self.kind == kind.code()
    }

    // What a refused action leaves in a trace.
    pub fn is_refusal(self) -> bool
        ensures { result ≡ eqb self.kind 0 }
    {
        self.kind == 0
    }
}

impl Engine {
    // Where an engine's parts stand among those of all engines, if there may be such an engine.
    pub fn place(self) -> Option<usize>
        ensures { result ≡ pick (outside 1 most_engines self.0) None (Some (pred self.0)) }
    {
        if is_outside(1, MOST_ENGINES, self.0) {
            return None;
        }
        Some(usize::from(self.0 - 1))
    }
}

// The record of eight zero bytes.
pub fn no_record() -> Record
    ensures { result ≡ no_record }
{
    Record::default()
}

// The lesser of two numbers.
// Kept: the theorems least_answers and least_one of promises are about this name; the code itself writes `min`.
pub fn least(a: usize, b: usize) -> usize
    ensures { result ≡ min a b }
{
    a.min(b)
}

pub fn is_outside(lo: u8, hi: u8, x: u8) -> bool
    ensures { result ≡ outside lo hi x }
{
    !(lo..=hi).contains(&x)
}

// The first size that is out of range.
#[tactic(auto, unfolding(crate::specs::Refusals::sizes_refused))]
pub fn judge_sizes(z: Sizes) -> Result<(), Refused>
    ensures { number_in result ≡ first_of (sizes_refused z) }
{
    if is_outside(1, MOST_ENGINES, z.engines) {
        return Err(Refused::Engines);
    }
    if is_outside(1, MOST_ADDRESSES, z.addresses) {
        return Err(Refused::Addresses);
    }
    if is_outside(1, MOST_DEPTH, z.depth) {
        return Err(Refused::Depth);
    }
    Ok(())
}
