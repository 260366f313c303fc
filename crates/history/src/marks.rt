// Two passes over a trace: how many writes each engine publishes; then the key of each event in the account, and the ledger at the end.
ghost use Rattle.std.specs.Prelude.{◌≡◌, ◌+◌, ◌≤◌, length, pred, Some, None};
ghost use Rattle.std.specs.List.{reduce};
ghost use Rattle.figure.specs.Kind.{code_of};
ghost use Rattle.figure.specs.Ledger.{wn, Small};
ghost use Rattle.figure.specs.Refusals.{pick, most_actions};
ghost use Rattle.demands.specs.Run.{is_refused};
ghost use Rattle.history.specs.Pieces.{count_of, is_of, no_numbers, Few, one_more_of, many_at, is_waiting, key_of, lesser, lowest_floor, Tallied};
ghost use Rattle.shape.specs.Turns.{action_at};

use crate::events::Events;
use figure::ledger::Ledger;
use figure::{ENGINES, Kind, Record, WriteNumber};

#[derive(Clone, Copy, Debug, PartialEq, Eq)]
pub struct Tally {
    pub ledger: Ledger,
    pub accepted: usize,
}

// A number for each engine.
#[derive(Clone, Copy, Debug, Default, PartialEq, Eq)]
pub struct PerEngine {
    pub numbers: [WriteNumber; ENGINES],
}

// No place in the account: past every key that a list can have.
// Kept: the sort's keys are plain numbers, and its contract (`Ordered` of sort) gives no place to one past its table, so a None in each would have to be made one anyway; and likewise a key past the number of events, which lines.rt takes for a write that waits.
const NOWHERE: u16 = 65535;

// Where the event's engine has its number among those of all engines, if the event is of that kind.
fn place_of(e: Record, kind: Kind) -> Option<usize>
    ensures { result ≡ pick (is_of (code_of kind) e) (Some (pred e.engine.0)) None }
{
    if e.is(kind) { e.engine.place() } else { None }
}

// How many are accepted, with one more action: every accepted one counts.
fn counted(accepted: usize, e: Record) -> usize
    requires { accepted ≤ most_actions }
    ensures { result ≡ pick (is_refused e) accepted (accepted + 1) }
{
    if e.is_refusal() {
        accepted
    } else {
        accepted + 1
    }
}

impl PerEngine {
    fn none() -> PerEngine
        ensures { result.numbers ≡ no_numbers }
    {
        PerEngine::default()
    }

    // One more for its engine, if e is of that kind.
    fn add(&mut self, kind: Kind, e: Record)
        requires { Few most_actions self.old.numbers }
        ensures { self.new.numbers ≡ one_more_of self.old.numbers (code_of kind) e }
    {
        if let Some(k) = place_of(e, kind) {
            self.numbers[k].0 += 1;
        }
    }

    // A write that none of these publications is left for: as many writes went before it as its engine publishes.
    fn passed_by(&self, wrote: &PerEngine, e: Record) -> bool
        ensures { result ≡ is_waiting self.now.numbers wrote.now.numbers e }
    {
        let Some(k) = place_of(e, Kind::Write) else {
            return false;
        };
        self.numbers[k] <= wrote.numbers[k]
    }
}

// How many writes each engine publishes.
// Kept: by number. Tried over `chunks_exact`, and the proof did not close: an invariant there has no index, and `many_at` is of the first k events.
fn publications(events: &Events) -> PerEngine
    ensures { result.numbers ≡ many_at (action_at events.now.bytes.now) 3 (count_of events.now.bytes.now) }
{
    let mut p = PerEngine::none();
    for k in 0..events.count() {
        p.add(Kind::Publish, events.at(k));
    }
    p
}

// The place in the account of one of the events: those that have no number stand past as many as there are events.
fn key_of(events: &Events, l: Ledger, waits: bool, e: Record) -> u16
    requires { Small most_actions l }
    ensures { result ≡ key_of (count_of events.now.bytes.now) l waits e }
{
    if let Some(k) = place_of(e, Kind::Read) {
        return l.taken[k].0 as u16;
    }
    if e.is(Kind::Publish) {
        return (l.published.0 + 1) as u16;
    }
    if waits {
        return events.count() as u16 + u16::from(e.engine.0);
    }
    NOWHERE
}

// The keys of all events, and the tally at their end.
pub fn mark_all(events: &Events, keys: &mut [u16]) -> Tally
    requires { length keys.old ≡ count_of events.now.bytes.now }
    ensures { Tallied (action_at events.now.bytes.now) (length keys.old) result keys.new }
{
    let published = publications(events);
    let mut tally = Tally {
        ledger: figure::ledger::none_entered(),
        accepted: 0,
    };
    let mut wrote = PerEngine::none();
    for (k, key) in keys.iter_mut().enumerate() {
        let e = events.at(k);
        let waits = published.passed_by(&wrote, e);
        *key = key_of(events, tally.ledger, waits, e);
        tally.ledger = figure::ledger::entered(tally.ledger, e);
        tally.accepted = counted(tally.accepted, e);
        wrote.add(Kind::Write, e);
    }
    tally
}

// The least of some numbers.
fn least(numbers: &[WriteNumber]) -> Option<WriteNumber>
    ensures { result ≡ reduce lesser numbers.now }
{
    numbers.iter().copied().min()
}

// The lowest floor of the engines 1 to n: there is one at least.
pub fn lowest_floor(l: Ledger, n: u8) -> WriteNumber
    requires { (1 ≤ n) × (n ≤ 8) }
    ensures { result ≡ wn (lowest_floor l n) }
{
    least(&l.taken[..usize::from(n)]).unwrap_or_default()
}
