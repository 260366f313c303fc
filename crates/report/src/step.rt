// An action and what came of it, as text.
#![tactic(auto, using(crate::proofs::Cursor::appending), unfolding(crate::specs::Actions::field_when, crate::specs::Actions::action_text, crate::specs::Actions::ok_when, crate::specs::Actions::answer_text, crate::specs::Actions::refusal_text, crate::specs::Actions::outcome_text, crate::specs::Form::bytes_said, crate::specs::Form::step_said))]

ghost use Rattle.std.specs.Prelude.{◌≡◌};
ghost use Rattle.figure.specs.Kind.{code_of};
ghost use Rattle.report.specs.Cursor.{appended};
ghost use Rattle.report.specs.Actions.{kind_name, action_text, answer_text, refusal_text, outcome_text};
ghost use Rattle.report.specs.Form.{bytes_said, step_said};

use crate::form::shown_kind;
use crate::text::Text;
use figure::{Kind, Record};
use lists::bytes::{RECORD, put_record};

fn put_name(to: &mut Text, kind: Kind)
    ensures { to.new ≡ appended (kind_name (code_of kind)) to.old }
{
    match kind {
        Kind::Read => to.text(b" R"),
        Kind::Write => to.text(b" W"),
        Kind::Publish => to.text(b" MW"),
        Kind::Refresh => to.text(b" MR"),
        Kind::Update => to.text(b" CU"),
        Kind::Forget => to.text(b" CI"),
    }
}

fn put_action(to: &mut Text, kind: Kind, a: Record)
    requires { code_of kind ≡ a.kind }
    ensures { to.new ≡ appended (action_text a) to.old }
{
    put_name(to, kind);
    to.field(u64::from(a.engine.0));
    if kind.uses_address() {
        to.field(u64::from(a.address.0));
    }
    if kind.uses_data() {
        to.field(u64::from(a.data));
    }
}

fn put_answer(to: &mut Text, kind: Kind, e: Record)
    ensures { to.new ≡ appended (answer_text (code_of kind) e) to.old }
{
    to.text(b" ->");
    match kind {
        Kind::Write | Kind::Forget => to.text(b" ok"),
        Kind::Read | Kind::Refresh => to.field(u64::from(e.data)),
        Kind::Publish => {
            to.field(u64::from(e.address.0));
            to.field(u64::from(e.data));
        }
        Kind::Update => {
            to.field(u64::from(e.origin.0));
            to.field(u64::from(e.address.0));
            to.field(u64::from(e.data));
        }
    }
}

fn put_refusal(to: &mut Text, e: Record)
    ensures { to.new ≡ appended (refusal_text e) to.old }
{
    to.labelled(b" -> refused ", u64::from(e.engine.0));
}

fn put_outcome(to: &mut Text, kind: Kind, e: Record)
    ensures { to.new ≡ appended (outcome_text (code_of kind) e) to.old }
{
    if e.is_refusal() {
        put_refusal(to, e);
    } else {
        put_answer(to, kind, e);
    }
}

// A space and two digits for each byte of a record.
fn put_bytes(to: &mut Text, a: Record)
    ensures { to.new ≡ appended (bytes_said a) to.old }
{
    let mut bytes = [0; RECORD];
    put_record(&mut bytes, 0, a);
    to.text(b" bytes");
    for b in bytes {
        to.byte(b' ');
        to.hex_byte(b);
    }
}

// An action, and what came of it.
#[tactic(auto, using(crate::proofs::Forms::step_well, crate::proofs::Forms::step_badly))]
pub(crate) fn put_step(to: &mut Text, a: Record, e: Record)
    ensures { to.new ≡ appended (step_said a e) to.old }
{
    if let Some(kind) = shown_kind(a) {
        put_action(to, kind, a);
        put_outcome(to, kind, e);
    } else {
        put_bytes(to, a);
        put_refusal(to, e);
    }
}
