//! Operators of one term.

use ore_monomial::{Exps, Order};
use ore_rational::Rational;
use ore_ring::{Op, lead};
use std::test::Fail;

// The power of the first variable.
fn power(exponent: u16) -> Result<Exps, Fail> {
    Ok(Exps::from_list(&[exponent, 0, 0, 0, 0, 0, 0, 0, 0, 0, 0, 0])?)
}

#[test]
fn one_term(rt: HostRuntime) -> Result<(), Fail> {
    let half = Rational::new(1, 2)?;
    let f = Op::term(rt.alloc(), Order::DegRevLex, power(3)?, half)?;
    assert_eq!(rt; f.len(), 1);
    assert!(rt; lead(&f) == Some((power(3)?, half)));
    let none = Op::term(rt.alloc(), Order::DegRevLex, power(3)?, Rational::zero())?;
    assert!(rt; none.is_zero());
    assert!(rt; lead(&none) == None);
    assert!(rt; !none.equal(&Op::zero(rt.alloc(), Order::DegLex)));
    Ok(())
}
