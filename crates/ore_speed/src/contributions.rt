//! How many contributions a product has.

use ore_mixed::MixedRing;
use ore_monomial::{Exps, RingStop};
use ore_ring::{MonomialProduct, Op};
use std::alloc::Global;

/// The sum, over all pairs of terms, of the numbers of terms of the products of their monomials.
pub fn contributions(ring: &MixedRing, alloc: Global, a: &Op, b: &Op) -> Result<u64, RingStop> {
    let mut count: u64 = 0;
    for i in 0..a.len() {
        if let Some((left, _)) = a.get(i) {
            count = count.saturating_add(of_term(ring, alloc, &left, b)?);
        }
    }
    Ok(count)
}

// The same for one monomial on the left.
fn of_term(ring: &MixedRing, alloc: Global, left: &Exps, b: &Op) -> Result<u64, RingStop> {
    let mut count: u64 = 0;
    for j in 0..b.len() {
        if let Some((right, _)) = b.get(j) {
            count = count.saturating_add(of_pair(ring, alloc, left, &right)?);
        }
    }
    Ok(count)
}

// The number of terms of the product of two monomials.
fn of_pair(ring: &MixedRing, alloc: Global, left: &Exps, right: &Exps) -> Result<u64, RingStop> {
    if left.degree() + right.degree() > 32767 {
        return Err(RingStop::Degree);
    }
    let terms = ring.pass(alloc, left, right)?;
    Ok(terms.len() as u64)
}
