use super::*;
use std::test::Fail;

// The monomial with these exponents of the first two variables.
fn monomial(first: u16, second: u16) -> Result<Exps, Fail> {
    Ok(Exps::from_list(&[first, second, 0, 0, 0, 0, 0, 0, 0, 0, 0, 0])?)
}

#[test]
fn the_first_divisor(rt: HostRuntime) -> Result<(), Fail> {
    let mut leads = Leads::new(rt.alloc());
    leads.push(1, monomial(1, 0)?)?;
    leads.push(0, monomial(2, 1)?)?;
    leads.push(0, monomial(1, 1)?)?;
    assert_eq!(rt; leads.len(), 3);
    assert_eq!(rt; leads.get(1), (0, monomial(2, 1)?));
    for (column, exps, place) in [
        (0, monomial(2, 1)?, Some(1)),
        (0, monomial(1, 4)?, Some(2)),
        (0, monomial(9, 0)?, None),
        (1, monomial(1, 1)?, Some(0)),
        (2, monomial(9, 9)?, None),
    ] {
        assert_eq!(rt;
            leads.first_divisor(column, &exps),
            place,
            "{exps:?} in column {column}"
        );
    }
    Ok(())
}

#[test]
fn the_first_of_falling_powers(rt: HostRuntime) -> Result<(), Fail> {
    let mut leads = Leads::new(rt.alloc());
    for power in [9, 8, 7, 6, 5, 4, 3, 2, 1] {
        leads.push(0, monomial(power, 0)?)?;
    }
    assert_eq!(rt; leads.first_divisor(0, &monomial(4, 0)?), Some(5));
    Ok(())
}
