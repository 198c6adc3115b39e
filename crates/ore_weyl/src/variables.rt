//! What the variables of a signature are.

ghost use Rattle.std.specs.Prelude.{◌≡◌, IsTrue, ◌↔◌};
ghost use Rattle.ore_weyl.specs.Shifts.{is_shift as is_shift_kind, HasNoShift};

use ore_monomial::{Signature, VarKind};

fn is_shift(kind: VarKind) -> bool
    ensures { result ≡ is_shift_kind kind }
{
    matches!(
        kind,
        VarKind::Shift { on: _, step: _ } | VarKind::Delay { on: _, step: _ }
    )
}

/// Whether no variable is a shift or a delay.
pub fn has_no_shift(signature: &Signature) -> bool
    ensures { IsTrue result ↔ HasNoShift signature.now }
{
    for x in 0..signature.count() {
        if is_shift(signature.kind(x)) {
            return false;
        }
    }
    true
}
