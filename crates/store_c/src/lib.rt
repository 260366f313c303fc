// What C calls, as a static library: the step in place under its plain name, with what it is lent and answers laid out as C does. A library cannot export, so it stands apart from store.
#![tactic(auto)]

ghost use Rattle.std.specs.Prelude.{◌≡◌};
ghost use Rattle.shape.specs.Step.{stepped, answer_of};

use figure::Record;
use shape::{Answer, Store};

// One step over a store that the scope keeps. The scope is C.
#[unsafe(no_mangle)]
pub extern "C" fn step_in_place(s: &mut Store, x: Record) -> Answer
    ensures { (s.new ≡ (stepped s.old x).store) × (result ≡ answer_of (stepped s.old x)) }
{
    store::step_in_place(s, x).into()
}
