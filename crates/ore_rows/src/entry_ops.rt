//! Operations of a ring on two entries of rows, which form nothing where one of them is zero.

ghost use Rattle.std.specs.Prelude.{IfOk};
ghost use Rattle.ore_algebra.specs.Limits.{program};
ghost use Rattle.ore_monomial.specs.Gives.{Gives};
ghost use Rattle.ore_ring.specs.Belongs.{Belongs};
ghost use Rattle.ore_ring.specs.Within.{plus_within, minus_within, times_within};
ghost use Rattle.ore_rows.specs.RowsWithin.{product_taken};

use ore_monomial::RingStop;
use ore_ring::{Op, OreRing};
use std::alloc::Global;

/// The product.
pub(crate) fn mul<R: OreRing>(ring: &R, alloc: Global, f: &Op, g: &Op) -> Result<Op, RingStop>
    requires f_of { Belongs (R.sig ring.now) f.now }
    requires g_of { Belongs (R.sig ring.now) g.now }
    ensures gives { Gives (λ f. f.sum) result (times_within program (R.sig ring.now) f.now.sum g.now.sum) }
    ensures of { IfOk result (Belongs (R.sig ring.now)) }
{
    if f.is_zero() {
        return Ok(Op::zero(alloc, ring.signature().order()));
    }
    if g.is_zero() {
        return Ok(Op::zero(alloc, ring.signature().order()));
    }
    ring.mul(alloc, f, g)
}

/// The sum; one that isn't zero is copied where the other is.
pub(crate) fn add<R: OreRing>(ring: &R, alloc: Global, f: &Op, g: &Op) -> Result<Op, RingStop>
    requires f_of { Belongs (R.sig ring.now) f.now }
    requires g_of { Belongs (R.sig ring.now) g.now }
    ensures gives { Gives (λ f. f.sum) result (plus_within program f.now.sum g.now.sum) }
    ensures of { IfOk result (Belongs (R.sig ring.now)) }
{
    if f.is_zero() {
        return ring.copy(alloc, g);
    }
    if g.is_zero() {
        return ring.copy(alloc, f);
    }
    ring.add(alloc, f, g)
}

/// The sum; one that isn't zero is moved where the other is.
pub(crate) fn join<R: OreRing>(ring: &R, alloc: Global, f: Op, g: Op) -> Result<Op, RingStop>
    requires f_of { Belongs (R.sig ring.now) f }
    requires g_of { Belongs (R.sig ring.now) g }
    ensures gives { Gives (λ f. f.sum) result (plus_within program f.sum g.sum) }
    ensures of { IfOk result (Belongs (R.sig ring.now)) }
{
    if f.is_zero() {
        return Ok(g);
    }
    if g.is_zero() {
        return Ok(f);
    }
    ring.add(alloc, &f, &g)
}

/// The difference; the first is copied where the second is zero.
pub(crate) fn sub<R: OreRing>(ring: &R, alloc: Global, f: &Op, g: &Op) -> Result<Op, RingStop>
    requires f_of { Belongs (R.sig ring.now) f.now }
    requires g_of { Belongs (R.sig ring.now) g.now }
    ensures gives { Gives (λ f. f.sum) result (minus_within program f.now.sum g.now.sum) }
    ensures of { IfOk result (Belongs (R.sig ring.now)) }
{
    if g.is_zero() {
        return ring.copy(alloc, f);
    }
    ring.sub(alloc, f, g)
}

/// The difference; the first is moved where the second is zero.
pub(crate) fn take<R: OreRing>(ring: &R, alloc: Global, f: Op, g: &Op) -> Result<Op, RingStop>
    requires f_of { Belongs (R.sig ring.now) f }
    requires g_of { Belongs (R.sig ring.now) g.now }
    ensures gives { Gives (λ f. f.sum) result (minus_within program f.sum g.now.sum) }
    ensures of { IfOk result (Belongs (R.sig ring.now)) }
{
    if g.is_zero() {
        return Ok(f);
    }
    ring.sub(alloc, &f, g)
}

/// The difference. Where one is zero, the other is moved; the second is then negated in its memory.
pub(crate) fn remove<R: OreRing>(ring: &R, alloc: Global, f: Op, g: Op) -> Result<Op, RingStop>
    requires f_of { Belongs (R.sig ring.now) f }
    requires g_of { Belongs (R.sig ring.now) g }
    ensures gives { Gives (λ f. f.sum) result (minus_within program f.sum g.sum) }
    ensures of { IfOk result (Belongs (R.sig ring.now)) }
{
    if g.is_zero() {
        return Ok(f);
    }
    if f.is_zero() {
        return Ok(g.negated());
    }
    ring.sub(alloc, &f, &g)
}

/// The operator `f` less the product of `d` and `g`; it is moved where that is zero.
#[tactic(auto, unfolding(crate::specs::RowsWithin::product_taken))]
pub(crate) fn less<R: OreRing>(
    ring: &R,
    alloc: Global,
    d: &Op,
    f: Op,
    g: &Op,
) -> Result<Op, RingStop>
    requires d_of { Belongs (R.sig ring.now) d.now }
    requires f_of { Belongs (R.sig ring.now) f }
    requires g_of { Belongs (R.sig ring.now) g.now }
    ensures gives { Gives (λ f. f.sum) result (product_taken program (R.sig ring.now) d.now.sum f.sum g.now.sum) }
    ensures of { IfOk result (Belongs (R.sig ring.now)) }
{
    let multiple = mul(ring, alloc, d, g)?;
    remove(ring, alloc, f, multiple)
}
