// How an action can be shown.
ghost use Rattle.std.specs.Prelude.{◌≡◌};
ghost use Rattle.report.specs.Form.{zero_where_hidden, ShownAs};

use figure::{Kind, Record};

fn is_zero_where_hidden(kind: Kind, a: Record) -> bool
    ensures { result ≡ zero_where_hidden kind a }
{
    (kind.uses_address() || a.address.0 == 0) && (kind.uses_data() || a.data == 0)
}

// The kind as which an action can be shown, if it is known and what is not shown is 0.
#[tactic(auto, using(crate::proofs::Forms::form_unknown, crate::proofs::Forms::form_known))]
pub(crate) fn shown_kind(a: Record) -> Option<Kind>
    ensures { ShownAs a result }
{
    let Ok(kind) = Kind::try_from(a.kind) else {
        return None;
    };
    if a.origin.0 == 0 && is_zero_where_hidden(kind, a) {
        return Some(kind);
    }
    None
}
