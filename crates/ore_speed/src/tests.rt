use super::*;
use std::test::Fail;

// The contributions and the terms of the square of a dense operator of 10 terms.
//
// One variable: a contribution for each pair, and the degrees 0 to 18. Three variables: all monomials up to
// degree 2, so that `d` meets `t` in 16 pairs and in one of them both are squared, and all monomials up to
// degree 4. Six variables: the terms of degree 2 are the three in the first two coordinates, so that the
// operators meet their coordinates in 3, 3 and 1 pairs, and by degree there are 1, 6, 21, 16 and 5 monomials.
#[test]
fn squares(rt: HostRuntime) -> Result<(), Fail> {
    for (algebra, count, length) in [
        (Algebra::One, 100, 19),
        (Algebra::Three, 117, 35),
        (Algebra::Six, 107, 49),
    ] {
        let ring = algebra.ring()?;
        let factor = dense(&ring, rt.alloc(), 10)?;
        assert_eq!(rt; factor.len(), 10);
        assert_eq!(rt; contributions(&ring, rt.alloc(), &factor, &factor)?, count);
        assert_eq!(rt; ring.mul(rt.alloc(), &factor, &factor)?.len(), length);
    }
    Ok(())
}
