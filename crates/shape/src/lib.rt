// What a store is made of: queue entries, queues, caches, the store, and what its step answers. What a step makes of it is in specs/, and proofs/ ties that to Figure 2.
#![tactic(auto)]

ghost use Rattle.std.specs.Prelude.{◌≡◌};
ghost use Rattle.shape.specs.Step.{answer_by};

use figure::{ADDRESSES, Address, DEPTH, ENGINES, Engine, Record, Refused, Sizes};

// An update on its way to a cache; origin 0, from memory, as figure's `Engine` has it.
#[repr(C)]
#[derive(Clone, Copy, Debug, PartialEq, Eq)]
pub struct InEntry {
    pub origin: Engine,
    pub address: Address,
    pub data: u32,
}

// A write on its way to memory.
#[repr(C)]
#[derive(Clone, Copy, Debug, PartialEq, Eq)]
pub struct OutEntry {
    pub address: Address,
    pub data: u32,
}

// Kept: the C interface needs one array beside the other, since `step_in_place` lends a `Store` with this layout.
#[repr(C)]
#[derive(Clone, Copy, Debug, PartialEq, Eq)]
pub struct Cache {
    pub present: [bool; ADDRESSES],
    pub data: [u32; ADDRESSES],
}

// The oldest entry stands at place 0.
// Kept: the C interface needs a length beside the entries, and a struct for each sort of queue: an exported function, as `step_in_place` of a `Store`, may take none with a type parameter.
#[repr(C)]
#[derive(Clone, Copy, Debug, PartialEq, Eq)]
pub struct OutQueue {
    pub len: u8,
    pub entries: [OutEntry; DEPTH],
}

#[repr(C)]
#[derive(Clone, Copy, Debug, PartialEq, Eq)]
pub struct InQueue {
    pub len: u8,
    pub entries: [InEntry; DEPTH],
}

// Engine i's parts stand at place i - 1.
#[repr(C)]
#[derive(Clone, Copy, Debug, PartialEq, Eq)]
pub struct Store {
    pub sizes: Sizes,
    pub memory: [u32; ADDRESSES],
    pub caches: [Cache; ENGINES],
    pub outs: [OutQueue; ENGINES],
    pub ins: [InQueue; ENGINES],
}

// What a step answers, as C is told: a refusal by its number, with the record of eight zero bytes.
// Kept: the C interface needs the number, which `step_in_place` answers.
#[repr(C)]
#[derive(Clone, Copy, Debug, PartialEq, Eq)]
pub struct Answer {
    pub number: u8,
    pub event: Record,
}

impl From<Result<Record, Refused>> for Answer {
    ghost from_gives = { λ said answer. answer ≡ answer_by said };

    fn from(said: Result<Record, Refused>) -> Answer {
        match said {
            Ok(event) => Answer { number: 0, event },
            Err(refused) => Answer {
                number: refused.number(),
                event: figure::no_record(),
            },
        }
    }
}
