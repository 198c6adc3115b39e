//! Rings of operators.

ghost use Rattle.std.specs.Prelude.{◌≡◌, IfOk, IfErr};
ghost use Rattle.ore_algebra.specs.Limits.{program};
ghost use Rattle.ore_monomial.specs.Gives.{Gives};
ghost use Rattle.ore_monomial.specs.Signature.{Signature as Lawful};
ghost use Rattle.ore_ring.specs.AdjointWithin.{adjoint_within};
ghost use Rattle.ore_ring.specs.Belongs.{Belongs};
ghost use Rattle.ore_ring.specs.Within.{plus_within, minus_within, times_within};
ghost use Rattle.ore_monomial.specs.declared.stop.RingStop.TheVariants.{Memory};

use crate::multiply::{MonomialProduct, times};
use crate::op::Op;
use crate::reverse;
use crate::sum::{minus, plus};
use ore_monomial::{RingStop, Signature};
use std::alloc::Global;

/// The ring of the operators of one signature.
///
/// It is made from any way to multiply monomials: who has `MonomialProduct` has the other operations.
///
/// Every operation gives what its definition says for that signature, so two rings of one signature
/// give the same. Operators that are handed in belong to the signature, and so do those that are answered.
pub trait OreRing {
    /// Its signature.
    ghost sig: { Self → Lawful };

    /// Its signature.
    fn signature(&self) -> &Signature
        ensures { result.now ≡ sig self.now };

    /// The sum.
    ///
    /// # Errors
    /// Overflow where the fraction of a monomial of both leaves the range, and want of memory.
    fn add(&self, alloc: Global, a: &Op, b: &Op) -> Result<Op, RingStop>
        requires a_of { Belongs (sig self.now) a.now }
        requires b_of { Belongs (sig self.now) b.now }
        ensures gives { Gives (λ f. f.sum) result (plus_within program a.now.sum b.now.sum) }
        ensures of { IfOk result (Belongs (sig self.now)) };

    /// The difference.
    ///
    /// # Errors
    /// Those of the sum with the opposite of `b`.
    fn sub(&self, alloc: Global, a: &Op, b: &Op) -> Result<Op, RingStop>
        requires a_of { Belongs (sig self.now) a.now }
        requires b_of { Belongs (sig self.now) b.now }
        ensures gives { Gives (λ f. f.sum) result (minus_within program a.now.sum b.now.sum) }
        ensures of { IfOk result (Belongs (sig self.now)) };

    /// The product.
    ///
    /// # Errors
    /// Degree where two monomials have degrees with a sum above 32,767, else Overflow where a number that
    /// forms the product leaves the range, and want of memory.
    fn mul(&self, alloc: Global, a: &Op, b: &Op) -> Result<Op, RingStop>
        requires a_of { Belongs (sig self.now) a.now }
        requires b_of { Belongs (sig self.now) b.now }
        ensures gives { Gives (λ f. f.sum) result (times_within program (sig self.now) a.now.sum b.now.sum) }
        ensures of { IfOk result (Belongs (sig self.now)) };

    /// The adjoint, which negates the coordinates and reverses products.
    ///
    /// # Errors
    /// Overflow where a number that forms it leaves the range, and want of memory.
    fn adjoint(&self, alloc: Global, a: &Op) -> Result<Op, RingStop>
        requires { Belongs (sig self.now) a.now }
        ensures gives { Gives (λ f. f.sum) result (adjoint_within program (sig self.now) a.now.sum) }
        ensures of { IfOk result (Belongs (sig self.now)) };

    /// The same operator once more.
    ///
    /// # Errors
    /// Want of memory.
    fn copy(&self, alloc: Global, a: &Op) -> Result<Op, RingStop>
        ensures same { IfOk result (λ f. f ≡ a.now) }
        ensures memory { IfErr result (λ e. e ≡ Memory) };
}

/// Each way to multiply monomials makes a ring.
impl<P: MonomialProduct> OreRing for P {
    ghost sig = { λ r. P.MonomialProduct.sig r };

    fn signature(&self) -> &Signature {
        MonomialProduct::signature(self)
    }

    fn add(&self, alloc: Global, a: &Op, b: &Op) -> Result<Op, RingStop> {
        plus(alloc, a, b)
    }

    fn sub(&self, alloc: Global, a: &Op, b: &Op) -> Result<Op, RingStop> {
        minus(alloc, a, b)
    }

    fn mul(&self, alloc: Global, a: &Op, b: &Op) -> Result<Op, RingStop> {
        times(self, alloc, a, b)
    }

    fn adjoint(&self, alloc: Global, a: &Op) -> Result<Op, RingStop> {
        reverse::adjoint(self, alloc, a)
    }

    fn copy(&self, alloc: Global, a: &Op) -> Result<Op, RingStop> {
        Ok(a.copy(alloc)?)
    }
}
