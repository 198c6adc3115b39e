//! All calls of a ring, at the ring of polynomials.

ghost use Rattle.std.specs.Prelude.{◌≡◌, IfOk, length};
ghost use Rattle.ore_ring.specs.Belongs.{Belongs};

use crate::operators::{commuting, operator};
use ore_commutative::CommutativeRing;
use ore_monomial::{Order, RingStop};
use ore_ring::{Op, OreRing};
use std::alloc::Global;
use std::test::Fail;

// A sum of whole numbers times powers of the first two coordinates.
fn polynomial<R: OreRing>(ring: &R, alloc: Global, terms: &[(u16, u16, i128)]) -> Result<Op, Fail>
    requires { length (R.sig ring.now).kinds ≡ 12 }
    ensures { IfOk result (Belongs (R.sig ring.now)) }
{
    let mut written = Vec::new(alloc);
    for (first, second, number) in terms {
        written.push((*number, [*first, *second, 0, 0, 0, 0, 0, 0, 0, 0, 0, 0]))?;
    }
    operator(ring.signature(), alloc, written.as_slice())
}

// A copy, a sum, the product of that with a difference, and the adjoint of the product.
fn calls<R: OreRing>(ring: &R, alloc: Global, a: &Op, b: &Op) -> Result<(Op, Op, Op, Op), RingStop>
    requires a_of { Belongs (R.sig ring.now) a.now }
    requires b_of { Belongs (R.sig ring.now) b.now }
{
    let same = ring.copy(alloc, a)?;
    let sum = ring.add(alloc, a, b)?;
    let difference = ring.sub(alloc, a, b)?;
    let product = ring.mul(alloc, &sum, &difference)?;
    let adjoint = ring.adjoint(alloc, &product)?;
    Ok((same, sum, product, adjoint))
}

#[test]
fn polynomials_are_a_ring(rt: HostRuntime) -> Result<(), Fail> {
    let ring = CommutativeRing::new(commuting(Order::DegLex)?).expect(&rt, "all commute");
    let f = polynomial(&ring, rt.alloc(), &[(1, 0, 1)])?;
    let g = polynomial(&ring, rt.alloc(), &[(0, 1, 2), (0, 0, 3)])?;
    let (same, sum, product, adjoint) = calls(&ring, rt.alloc(), &f, &g)?;
    let both = polynomial(&ring, rt.alloc(), &[(1, 0, 1), (0, 1, 2), (0, 0, 3)])?;
    // t^2 - (2 u + 3)^2, and the same with -t and -u
    let square = [(2, 0, 1), (0, 2, -4), (0, 1, -12), (0, 0, -9)];
    let turned = [(2, 0, 1), (0, 2, -4), (0, 1, 12), (0, 0, -9)];
    assert!(rt; same.equal(&f));
    assert!(rt; sum.equal(&both));
    assert!(rt; product.equal(&polynomial(&ring, rt.alloc(), &square)?));
    assert!(rt; adjoint.equal(&polynomial(&ring, rt.alloc(), &turned)?));
    Ok(())
}
