//! Sums and differences of operators.

ghost use Rattle.std.specs.Prelude.{◌≡◌, IfOk};
ghost use Rattle.ore_algebra.specs.Limits.{program};
ghost use Rattle.ore_monomial.specs.Gives.{Gives};
ghost use Rattle.ore_monomial.specs.Signature.{Signature as Lawful};
ghost use Rattle.ore_ring.specs.Belongs.{Belongs};
ghost use Rattle.ore_ring.specs.Within.{plus_within, minus_within};

use crate::merge::{merged, merged_less};
use crate::op::Op;
use ore_monomial::RingStop;
use std::alloc::Global;

/// The sum of two operators of one order.
pub fn plus(alloc: Global, a: &Op, b: &Op) -> Result<Op, RingStop>
    requires { a.now.by ≡ b.now.by }
    ensures gives { Gives (λ f. f.sum) result (plus_within program a.now.sum b.now.sum) }
    ensures by { IfOk result (λ f. f.by ≡ a.now.by) }
    ensures of { (s : Lawful) → Belongs s a.now → Belongs s b.now → IfOk result (Belongs s) }
{
    let terms = merged(alloc, a.order(), a.terms(), b.terms())?;
    Ok(Op::from_terms(a.order(), terms))
}

/// The difference of two operators of one order.
pub fn minus(alloc: Global, a: &Op, b: &Op) -> Result<Op, RingStop>
    requires { a.now.by ≡ b.now.by }
    ensures gives { Gives (λ f. f.sum) result (minus_within program a.now.sum b.now.sum) }
    ensures by { IfOk result (λ f. f.by ≡ a.now.by) }
    ensures of { (s : Lawful) → Belongs s a.now → Belongs s b.now → IfOk result (Belongs s) }
{
    let terms = merged_less(alloc, a.order(), a.terms(), b.terms())?;
    Ok(Op::from_terms(a.order(), terms))
}
