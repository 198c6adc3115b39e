//! Products of several letters, on two coordinates and on one.

ghost use Rattle.std.specs.Prelude.{◌≡◌, length};

use crate::operators::{Term, mixed, operator, unshifted};
use ore_mixed::MixedRing;
use ore_monomial::Order;
use ore_ring::OreRing;
use ore_weyl::WeylRing;
use std::alloc::Global;
use std::test::Fail;

// Whether a ring gives this product.
fn gives<R: OreRing>(
    ring: &R,
    alloc: Global,
    left: &[Term],
    right: &[Term],
    product: &[Term],
) -> Result<bool, Fail>
    requires { length (R.sig ring.now).kinds ≡ 12 }
{
    let signature = ring.signature();
    let f = operator(signature, alloc, left)?;
    let g = operator(signature, alloc, right)?;
    let expected = operator(signature, alloc, product)?;
    Ok(ring.mul(alloc, &f, &g)?.equal(&expected))
}

// Whether products of differential operators and coordinates are as written.
fn differentials_agree<R: OreRing>(ring: &R, alloc: Global) -> Result<bool, Fail>
    requires { length (R.sig ring.now).kinds ≡ 12 }
{
    for (left, right, product) in [
        // d e by t u
        (
            [0, 0, 0, 0, 0, 0, 1, 1, 0, 0, 0, 0],
            [1, 1, 0, 0, 0, 0, 0, 0, 0, 0, 0, 0],
            [
                (1, [1, 1, 0, 0, 0, 0, 1, 1, 0, 0, 0, 0]),
                (1, [1, 0, 0, 0, 0, 0, 1, 0, 0, 0, 0, 0]),
                (1, [0, 1, 0, 0, 0, 0, 0, 1, 0, 0, 0, 0]),
                (1, [0, 0, 0, 0, 0, 0, 0, 0, 0, 0, 0, 0]),
            ]
            .as_slice(),
        ),
        // t d by t d
        (
            [1, 0, 0, 0, 0, 0, 1, 0, 0, 0, 0, 0],
            [1, 0, 0, 0, 0, 0, 1, 0, 0, 0, 0, 0],
            [
                (1, [2, 0, 0, 0, 0, 0, 2, 0, 0, 0, 0, 0]),
                (1, [1, 0, 0, 0, 0, 0, 1, 0, 0, 0, 0, 0]),
            ]
            .as_slice(),
        ),
    ] {
        if !gives(ring, alloc, &[(1, left)], &[(1, right)], product)? {
            return Ok(false);
        }
    }
    Ok(true)
}

// Whether products with shifts and delays are as written.
fn shifts_agree<R: OreRing>(ring: &R, alloc: Global) -> Result<bool, Fail>
    requires { length (R.sig ring.now).kinds ≡ 12 }
{
    for (left, right, product) in [
        // s v by t u, which is (t + 2) (u + 1) s v
        (
            [0, 0, 0, 0, 0, 0, 0, 0, 1, 1, 0, 0],
            [1, 1, 0, 0, 0, 0, 0, 0, 0, 0, 0, 0],
            [
                (1, [1, 1, 0, 0, 0, 0, 0, 0, 1, 1, 0, 0]),
                (1, [1, 0, 0, 0, 0, 0, 0, 0, 1, 1, 0, 0]),
                (2, [0, 1, 0, 0, 0, 0, 0, 0, 1, 1, 0, 0]),
                (2, [0, 0, 0, 0, 0, 0, 0, 0, 1, 1, 0, 0]),
            ]
            .as_slice(),
        ),
        // d w by t u, which is (t d + 1) (u - 1) w
        (
            [0, 0, 0, 0, 0, 0, 1, 0, 0, 0, 0, 1],
            [1, 1, 0, 0, 0, 0, 0, 0, 0, 0, 0, 0],
            [
                (1, [1, 1, 0, 0, 0, 0, 1, 0, 0, 0, 0, 1]),
                (-1, [1, 0, 0, 0, 0, 0, 1, 0, 0, 0, 0, 1]),
                (1, [0, 1, 0, 0, 0, 0, 0, 0, 0, 0, 0, 1]),
                (-1, [0, 0, 0, 0, 0, 0, 0, 0, 0, 0, 0, 1]),
            ]
            .as_slice(),
        ),
        // e l by t u, which is (t - 3) l (u e + 1)
        (
            [0, 0, 0, 0, 0, 0, 0, 1, 0, 0, 1, 0],
            [1, 1, 0, 0, 0, 0, 0, 0, 0, 0, 0, 0],
            [
                (1, [1, 1, 0, 0, 0, 0, 0, 1, 0, 0, 1, 0]),
                (1, [1, 0, 0, 0, 0, 0, 0, 0, 0, 0, 1, 0]),
                (-3, [0, 1, 0, 0, 0, 0, 0, 1, 0, 0, 1, 0]),
                (-3, [0, 0, 0, 0, 0, 0, 0, 0, 0, 0, 1, 0]),
            ]
            .as_slice(),
        ),
        // d s by t^2, which is d (t^2 + 4 t + 4) s
        (
            [0, 0, 0, 0, 0, 0, 1, 0, 1, 0, 0, 0],
            [2, 0, 0, 0, 0, 0, 0, 0, 0, 0, 0, 0],
            [
                (1, [2, 0, 0, 0, 0, 0, 1, 0, 1, 0, 0, 0]),
                (4, [1, 0, 0, 0, 0, 0, 1, 0, 1, 0, 0, 0]),
                (4, [0, 0, 0, 0, 0, 0, 1, 0, 1, 0, 0, 0]),
                (2, [1, 0, 0, 0, 0, 0, 0, 0, 1, 0, 0, 0]),
                (4, [0, 0, 0, 0, 0, 0, 0, 0, 1, 0, 0, 0]),
            ]
            .as_slice(),
        ),
        // s l by t, which is (t + 2 - 3) s l
        (
            [0, 0, 0, 0, 0, 0, 0, 0, 1, 0, 1, 0],
            [1, 0, 0, 0, 0, 0, 0, 0, 0, 0, 0, 0],
            [
                (1, [1, 0, 0, 0, 0, 0, 0, 0, 1, 0, 1, 0]),
                (-1, [0, 0, 0, 0, 0, 0, 0, 0, 1, 0, 1, 0]),
            ]
            .as_slice(),
        ),
        // v w by u b p, where the shift and the delay cancel
        (
            [0, 0, 0, 0, 0, 0, 0, 0, 0, 1, 0, 1],
            [0, 1, 1, 0, 1, 0, 0, 0, 0, 0, 0, 0],
            [(1, [0, 1, 1, 0, 1, 0, 0, 0, 0, 1, 0, 1])].as_slice(),
        ),
    ] {
        if !gives(ring, alloc, &[(1, left)], &[(1, right)], product)? {
            return Ok(false);
        }
    }
    Ok(true)
}

#[test]
fn products(rt: HostRuntime) -> Result<(), Fail> {
    for order in [Order::DegLex, Order::DegRevLex] {
        let weyl = WeylRing::new(unshifted(order)?).expect(&rt, "no shift");
        assert!(rt; differentials_agree(&weyl, rt.alloc())?);
        let mixed_of_same = MixedRing::new(unshifted(order)?);
        assert!(rt; differentials_agree(&mixed_of_same, rt.alloc())?);
        let all = MixedRing::new(mixed(order)?);
        assert!(rt; differentials_agree(&all, rt.alloc())?);
        assert!(rt; shifts_agree(&all, rt.alloc())?);
    }
    Ok(())
}
