use super::*;
use std::test::Fail;

// The monomial with these exponents of the first three variables.
fn monomial(first: u16, second: u16, third: u16) -> Result<Exps, DegreePassed> {
    Exps::from_list(&[first, second, third, 0, 0, 0, 0, 0, 0, 0, 0, 0])
}

#[test]
fn products(rt: HostRuntime) -> Result<(), Fail> {
    for (left, right, product) in [
        (monomial(2, 0, 1)?, monomial(1, 3, 0)?, monomial(3, 3, 1)),
        (monomial(32767, 0, 0)?, Exps::zero(), monomial(32767, 0, 0)),
        (
            monomial(32766, 0, 0)?,
            monomial(0, 1, 0)?,
            monomial(32766, 1, 0),
        ),
        (
            monomial(32767, 0, 0)?,
            monomial(1, 0, 0)?,
            Err(DegreePassed),
        ),
    ] {
        assert_eq!(rt; left.plus(&right), product, "{left:?} times {right:?}");
    }
    Ok(())
}

#[test]
fn common_multiples(rt: HostRuntime) -> Result<(), Fail> {
    for (left, right, multiple) in [
        (monomial(2, 1, 0)?, monomial(1, 3, 0)?, monomial(2, 3, 0)),
        (
            monomial(0, 32767, 0)?,
            monomial(0, 32767, 0)?,
            monomial(0, 32767, 0),
        ),
        (
            monomial(0, 32767, 0)?,
            monomial(0, 0, 1)?,
            Err(DegreePassed),
        ),
    ] {
        assert_eq!(rt; left.lcm(&right), multiple, "of {left:?} and {right:?}");
    }
    Ok(())
}

#[test]
fn quotients(rt: HostRuntime) -> Result<(), Fail> {
    for (whole, part, quotient) in [
        (
            monomial(2, 3, 1)?,
            monomial(2, 1, 0)?,
            Some(monomial(0, 2, 1)?),
        ),
        (monomial(1, 1, 1)?, Exps::zero(), Some(monomial(1, 1, 1)?)),
        (monomial(5, 0, 1)?, monomial(1, 1, 0)?, None),
    ] {
        let given = if part.divides(&whole) {
            Some(whole.minus(&part))
        } else {
            None
        };
        assert_eq!(rt; given, quotient, "{whole:?} by {part:?}");
    }
    Ok(())
}

#[test]
fn parts_of_a_monomial(rt: HostRuntime) -> Result<(), Fail> {
    let one = monomial(4, 0, 7)?;
    assert_eq!(rt; one.degree(), 11);
    assert_eq!(rt; one.get(0), 4);
    assert_eq!(rt; one.get(2), 7);
    assert_eq!(rt; one.get(11), 0);
    assert_eq!(rt;
        one.rank(Order::DegLex),
        [11, 4, 0, 7, 0, 0, 0, 0, 0, 0, 0, 0, 0]
    );
    assert_eq!(rt;
        one.rank(Order::DegRevLex),
        [11, 11, 11, 11, 11, 11, 11, 11, 11, 11, 4, 11, 7]
    );
    Ok(())
}

#[test]
fn orders(rt: HostRuntime) -> Result<(), Fail> {
    for (left, right, by_first, by_last) in [
        (
            monomial(1, 0, 0)?,
            monomial(0, 1, 0)?,
            Ordering::Greater,
            Ordering::Greater,
        ),
        (
            monomial(3, 0, 0)?,
            monomial(0, 0, 4)?,
            Ordering::Less,
            Ordering::Less,
        ),
        (
            monomial(1, 0, 1)?,
            monomial(0, 2, 0)?,
            Ordering::Greater,
            Ordering::Less,
        ),
        (
            monomial(1, 2, 3)?,
            monomial(1, 2, 3)?,
            Ordering::Equal,
            Ordering::Equal,
        ),
    ] {
        assert_eq!(rt;
            compare(Order::DegLex, &left, &right),
            by_first,
            "{left:?} and {right:?}"
        );
        assert_eq!(rt;
            compare(Order::DegRevLex, &left, &right),
            by_last,
            "{left:?} and {right:?}"
        );
    }
    Ok(())
}
