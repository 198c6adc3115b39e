//! Whether letters of one monomial meet coordinates of another.

ghost use Rattle.std.specs.Prelude.{◌≡◌, true, false};
ghost use Rattle.ore_monomial.specs.Monomial.{exponent};
ghost use Rattle.ore_monomial.specs.Signature.{coordinate_of, is_acting};
ghost use Rattle.ore_ring.specs.Meets.{MeetsNone};

use ore_monomial::{Exps, Signature, VarKind};

/// Whether no letter of the left monomial acts on a coordinate of the right one.
pub(crate) fn meets_none(sig: &Signature, left: &Exps, right: &Exps) -> bool
    ensures { result ≡ true → MeetsNone sig.now left.now right.now }
{
    for x in 0..sig.count() {
        if left.get(x) != 0 {
            if acts_on(sig.kind(x), right) {
                return false;
            }
        }
    }
    true
}

// Whether a letter of this kind acts on a coordinate of the monomial.
fn acts_on(kind: VarKind, monomial: &Exps) -> bool
    ensures { result ≡ false → is_acting kind ≡ true → exponent monomial.now (coordinate_of kind) ≡ 0 }
{
    match kind {
        VarKind::Differential { on } => has(monomial, on),
        VarKind::Shift { on, step: _ } => has(monomial, on),
        VarKind::Delay { on, step: _ } => has(monomial, on),
        VarKind::Coordinate => false,
        VarKind::Constant => false,
        VarKind::Plain => false,
    }
}

// Whether a variable is in the monomial. Past the twelfth none is.
fn has(monomial: &Exps, variable: u8) -> bool
    ensures { result ≡ false → exponent monomial.now variable ≡ 0 }
{
    if variable >= 12 {
        return false;
    }
    monomial.get(variable as usize) != 0
}
