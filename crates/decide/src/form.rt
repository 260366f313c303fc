// Refusals 11 to 14: of the record alone.
ghost use Rattle.std.specs.Prelude.{◌≡◌, ◌&&◌, leb, IfOk};
ghost use Rattle.figure.specs.Kind.{code_of};
ghost use Rattle.figure.specs.Refusals.{first_of};
ghost use Rattle.figure.specs.Refused.{number_in};
ghost use Rattle.shape.specs.Step.{form_refused, uses_address, fields_right};

use figure::{Kind, Record, Refused, Sizes};

fn address_outside(z: Sizes, kind: Kind, x: Record) -> bool
    ensures { result ≡ (uses_address (code_of kind) && leb z.addresses x.address.0) }
{
    kind.uses_address() && z.addresses <= x.address.0
}

// The fields that the kind holds at 0 are 0.
fn fields_right(kind: Kind, x: Record) -> bool
    requires { code_of kind ≡ x.kind }
    ensures { result ≡ fields_right x }
{
    x.origin.0 == 0
        && (kind.uses_address() || x.address.0 == 0)
        && (kind.uses_data() || x.data == 0)
}

#[tactic(auto, unfolding(shape::specs::Step::form_refused))]
pub(crate) fn judge_form(z: Sizes, x: Record) -> Result<Kind, Refused>
    ensures refused { number_in result ≡ first_of (form_refused z x) }
    ensures kind { IfOk result (λ kind. code_of kind ≡ x.kind) }
{
    let kind = Kind::try_from(x.kind)?;
    if figure::is_outside(1, z.engines, x.engine.0) {
        return Err(Refused::Engine);
    }
    if address_outside(z, kind, x) {
        return Err(Refused::Address);
    }
    if !fields_right(kind, x) {
        return Err(Refused::UnusedField);
    }
    Ok(kind)
}
