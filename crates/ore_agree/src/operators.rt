//! Signatures of twelve variables, and operators over them.

ghost use Rattle.std.specs.Prelude.{◌≡◌, IfOk, length};
ghost use Rattle.ore_ring.specs.Belongs.{Belongs};

use ore_monomial::{Exps, Order, Signature, SignatureFault, VarKind};
use ore_rational::Rational;
use ore_ring::Op;
use std::alloc::Global;
use std::test::Fail;

/// A whole number, and the exponents of t, u, b, c, p, q, d, e, s, v, l and w.
///
/// The coordinates are t and u, the constants b and c, and p and q commute with all. On t act d, the
/// shift s by 2 and the delay l by 3; on u act e, the shift v by 1 and the delay w by 1.
pub type Term = (i128, [u16; 12]);

const T: VarKind = VarKind::Coordinate;

const C: VarKind = VarKind::Constant;

const P: VarKind = VarKind::Plain;

const D: VarKind = VarKind::Differential { on: 0 };

const E: VarKind = VarKind::Differential { on: 1 };

/// Letters that commute stand for all that act.
pub fn commuting(order: Order) -> Result<Signature, SignatureFault>
    ensures { IfOk result (λ s. length s.kinds ≡ 12) }
{
    Signature::new(&[T, T, C, C, P, P, P, P, P, P, P, P], order)
}

/// Letters that commute stand for the shifts and delays.
pub fn unshifted(order: Order) -> Result<Signature, SignatureFault>
    ensures { IfOk result (λ s. length s.kinds ≡ 12) }
{
    Signature::new(&[T, T, C, C, P, P, D, E, P, P, P, P], order)
}

/// All letters are as they are named.
pub fn mixed(order: Order) -> Result<Signature, SignatureFault>
    ensures { IfOk result (λ s. length s.kinds ≡ 12) }
{
    let mut kinds = [T, T, C, C, P, P, D, E, P, P, P, P];
    kinds[8] = VarKind::Shift { on: 0, step: 2 };
    kinds[9] = VarKind::Shift { on: 1, step: 1 };
    kinds[10] = VarKind::Delay { on: 0, step: 3 };
    kinds[11] = VarKind::Delay { on: 1, step: 1 };
    Signature::new(&kinds, order)
}

/// The sum of some terms.
pub fn operator(signature: &Signature, alloc: Global, terms: &[Term]) -> Result<Op, Fail>
    requires { length signature.now.kinds ≡ 12 }
    ensures { IfOk result (Belongs signature.now) }
{
    let mut made = Op::zero(alloc, signature.order());
    for (number, exponents) in terms {
        made.add_term(Exps::from_list(exponents)?, Rational::new(*number, 1)?)?;
    }
    Ok(made)
}
