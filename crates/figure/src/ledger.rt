// How far publishing and taking have come, as the events of a trace tell it.
ghost use Rattle.std.specs.Prelude.{◌≡◌};
ghost use Rattle.figure.specs.Ledger.{wn, one_more, none_entered, is_engine, is_taking, published_by, taken_by};
ghost use Rattle.figure.specs.Ledger as spec;

use crate::{ENGINES, Engine, Kind, Record, WriteNumber};

// The highest number that a write can have.
const MOST_WRITES: u32 = 4294967294;

// How many writes are published, how many each engine has taken, and the number of its last own published write, 0 where it has none.
// Kept: 0 and no Option, and an array for each number of an engine, since what may not change needs them: `Mirrors` of specs/Ledger ties each array to a function of the account, where no write is 0. No code asks for `own` but `published_by`, which hands it on: the theorems about demand 3 do.
#[derive(Clone, Copy, Debug, Default, PartialEq, Eq)]
pub struct Ledger {
    pub published: WriteNumber,
    pub taken: [WriteNumber; ENGINES],
    pub own: [WriteNumber; ENGINES],
}

pub fn none_entered() -> Ledger
    ensures { result ≡ none_entered }
{
    Ledger::default()
}

// An engine of some store.
// Kept: the theorems is_engine_answers and is_engine_one of promises are about this name; the code itself asks for `place`.
pub fn is_engine(i: Engine) -> bool
    ensures { result ≡ is_engine i }
{
    i.place().is_some()
}

// Entries from memory are not counted.
fn is_taking(e: Record) -> bool
    ensures { result ≡ is_taking e }
{
    e.is(Kind::Update) && e.origin.0 != 0
}

fn one_more(w: WriteNumber) -> WriteNumber
    ensures { result ≡ wn (one_more w.0) }
{
    if w.0 < MOST_WRITES {
        WriteNumber(w.0 + 1)
    } else {
        w
    }
}

fn published_by(l: Ledger, i: Engine) -> Ledger
    ensures { result ≡ published_by l i }
{
    let published = one_more(l.published);
    let mut own = l.own;
    if let Some(k) = i.place() {
        own[k] = published;
    }
    Ledger {
        published,
        own,
        ..l
    }
}

fn taken_by(l: Ledger, i: Engine) -> Ledger
    ensures { result ≡ taken_by l i }
{
    let mut taken = l.taken;
    if let Some(k) = i.place() {
        taken[k] = one_more(taken[k]);
    }
    Ledger { taken, ..l }
}

// The ledger after the event of a trace record.
pub fn entered(l: Ledger, e: Record) -> Ledger
    ensures { result ≡ spec.entered l e }
{
    if e.is(Kind::Publish) {
        return published_by(l, e.engine);
    }
    if is_taking(e) {
        return taken_by(l, e.engine);
    }
    l
}
