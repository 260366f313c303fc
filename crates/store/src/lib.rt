// The store of the lazy caching protocol: fresh, sound, the step by value and in place, and many steps at once.
#![tactic(auto)]

ghost use Rattle.std.specs.Prelude.{◌≡◌};
ghost use Rattle.figure.specs.Refused.{number_in};
ghost use Rattle.shape.specs.Fresh.{made, made_by};
ghost use Rattle.shape.specs.Sound.{sound_of};
ghost use Rattle.shape.specs.Step.{stepped, stepped_by, answer_of, answer_by};
ghost use Rattle.shape.specs.Turns.{FreshTurned};
ghost use Rattle.decide.specs.Turned.{turned_of};
ghost use Rattle.scan.specs.Scan.{Decided};

mod given;
mod parts;
mod queue;
mod ring;
mod turns;

use decide::Move;
use figure::{Record, Refused, Sizes};
use given::Given;
use queue::Queue;
use shape::Store;

// A fresh store, with the given memory, empty caches and queues; or the refusal 4, 5, 6 or 10.
pub fn fresh(z: Sizes, table: &[u32]) -> Result<Store, Refused>
    ensures { made_by result ≡ made z table.now }
{
    let given = Given::judge(z, table)?;
    Ok(given.store())
}

// The test of refusal 17.
pub fn sound(s: Store) -> bool
    ensures { result ≡ sound_of s }
{
    scan::is_sound(&s)
}

// Carries out a move that was decided by what the action sees of the store: on one engine's queues and cache, a word, and the in queues that the entry joins.
fn carry_out(s: &mut Store, x: Record, m: Move)
    requires { Decided s.old x (turned_of m) }
    ensures { s.new ≡ (stepped s.old x).store }
{
    let k = scan::place_in(x.engine);
    queue::out_moved(&mut s.outs[k], m);
    queue::in_left(&mut s.ins[k], m);
    parts::cache_moved(&mut s.caches[k], m);
    let b = scan::word_in(m.entry.address);
    s.memory[b] = m.stored(s.memory[b]);
    for q in &mut s.ins[m.from..m.to] {
        q.join(m.entry);
    }
}

// One step: the store and the action in, the store after it and the event or the refusal out.
pub fn step(s: Store, x: Record) -> (Store, Result<Record, Refused>)
    ensures { stepped_by result ≡ stepped s x }
{
    let mut t = s;
    let said = step_in_place(&mut t, x);
    (t, said)
}

// The same over a store that the scope keeps: it is looked at and, if the action is accepted, altered where it stands. What C calls is the export of the crate store_c, which says
// the same.
pub fn step_in_place(s: &mut Store, x: Record) -> Result<Record, Refused>
    ensures { (s.new ≡ (stepped s.old x).store) × (answer_by result ≡ answer_of (stepped s.old x)) }
{
    let m = decide::decide(s.sizes, x, scan::look(s, x))?;
    carry_out(s, x, m);
    Ok(m.event)
}

// Kept: the theorems once_answers and once_one of promises are about this second name of the step by value.
pub fn once(s: Store, x: Record) -> (Store, Result<Record, Refused>)
    ensures { stepped_by result ≡ stepped s x }
{
    step(s, x)
}

// Each action in turn as the step takes it, from a fresh store; its trace goes over the front of the lent buffer. A run hands no store on.
pub fn turns_from_fresh(
    z: Sizes,
    table: &[u32],
    actions: &[u8],
    trace: &mut [u8],
) -> Result<(), Refused>
    ensures { FreshTurned z table.now actions.now trace.old (number_in result) trace.new }
{
    let given = Given::judge(z, table)?;
    turns::take_turns(given, actions, trace);
    Ok(())
}
