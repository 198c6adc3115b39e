use super::*;
use std::test::Fail;

// The power of the first variable.
fn power(exponent: u16) -> Result<Exps, Fail> {
    Ok(Exps::from_list(&[exponent, 0, 0, 0, 0, 0, 0, 0, 0, 0, 0, 0])?)
}

#[test]
fn the_divisors_among_eight_powers(rt: HostRuntime) -> Result<(), Fail> {
    let mut leads = [Exps::zero(); 8];
    for k in 0..8 {
        leads[usize::from(k)] = power(k)?;
    }
    assert_eq!(rt; divisor_mask(&leads, &power(3)?), 0b1111);
    Ok(())
}
