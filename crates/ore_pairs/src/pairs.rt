//! Pairs of rows of a basis: the common multiple, the S-row, and whether it may be left out.

ghost use Rattle.std.specs.Prelude.{◌≡◌, ◌<◌, ◌≤◌, length, OkIff, IfOk};
ghost use Rattle.ore_algebra.specs.Limits.{program};
ghost use Rattle.ore_rational.specs.Field.{rationals};
ghost use Rattle.ore_monomial.specs.Gives.{Gives};
ghost use Rattle.ore_monomial.specs.Monomial.{degree, lcm};
ghost use Rattle.ore_ring.specs.Belongs.{AllBelong};
ghost use Rattle.ore_rows.specs.Arithmetic.{within};
ghost use Rattle.ore_rows.specs.Reduction.{basis_lead, leads_of};
ghost use Rattle.ore_rows.specs.StoredBasis.{BasisBelongs, monics};
ghost use Rattle.ore_pairs.specs.Listed.{work_of_rows};
ghost use Rattle.ore_pairs.specs.PairRule.{may_skip};
ghost use Rattle.ore_pairs.specs.Run.{s_rows};

use crate::listed::Listed;
use crate::multiples::common_multiple;
use crate::{multiples, rule};
use ore_monomial::{DegreePassed, Exps, RingStop};
use ore_ring::OreRing;
use ore_rows::{Basis, Row};
use std::alloc::Global;

/// The least common multiple of the leads of two basis rows.
///
/// # Errors
/// Where its degree would be greater than 32,767.
pub fn common(basis: &Basis, i: usize, j: usize) -> Result<Exps, DegreePassed>
    requires first { i < length basis.now.items }
    requires second { j < length basis.now.items }
    requires columns { (basis_lead basis.now.items i).column ≡ (basis_lead basis.now.items j).column }
    ensures { OkIff result (degree (lcm (basis_lead basis.now.items i).monomial (basis_lead basis.now.items j).monomial) ≤ 32767) (lcm (basis_lead basis.now.items i).monomial (basis_lead basis.now.items j).monomial) }
{
    common_multiple(basis.leads(), i, j)
}

/// The S-row of the pair: the row at `i` less that at `j`, each multiplied so that its lead becomes the least common
/// multiple of both; and the same of the cofactor rows.
///
/// # Errors
/// Degree where that common multiple has too great a degree, else the stop of the first product or difference that
/// stops, and want of memory.
pub fn s_row<R: OreRing>(
    ring: &R,
    alloc: Global,
    basis: &Basis,
    i: usize,
    j: usize,
) -> Result<(Row, Row), RingStop>
    requires first { i < length basis.now.items }
    requires second { j < length basis.now.items }
    requires columns { (basis_lead basis.now.items i).column ≡ (basis_lead basis.now.items j).column }
    requires basis_of { BasisBelongs (R.sig ring.now) basis.now.items }
    ensures gives { Gives work_of_rows result (s_rows rationals (within program (R.sig ring.now)) (monics basis.now) i j) }
    ensures row_of { IfOk result (λ p. AllBelong (R.sig ring.now) p.0) }
    ensures cofactor_of { IfOk result (λ p. AllBelong (R.sig ring.now) p.1) }
    ensures row_width { IfOk result (λ p. length p.0 ≡ basis.now.cols) }
    ensures cofactor_width { IfOk result (λ p. length p.1 ≡ basis.now.width) }
{
    let leads = basis.leads();
    let multiple = common_multiple(leads, i, j)?;
    let first_row = basis.row(i);
    let second_row = basis.row(j);
    let row = multiples::s_row(ring, alloc, leads, &multiple, i, j, first_row, second_row)?;
    let first_cofactor = basis.cofactor(i);
    let second_cofactor = basis.cofactor(j);
    let cofactor = multiples::s_row(
        ring,
        alloc,
        leads,
        &multiple,
        i,
        j,
        first_cofactor,
        second_cofactor,
    )?;
    Ok((row, cofactor))
}

/// Whether the pair of the rows at `i` and `j` may be skipped by way of the row at `via`: the lead of that row
/// divides the common multiple of theirs, and its pairs with both are listed.
pub fn may_skip(basis: &Basis, listed: &Listed, i: usize, j: usize, via: usize) -> bool
    requires first { i < length basis.now.items }
    requires second { j < length basis.now.items }
    requires columns { (basis_lead basis.now.items i).column ≡ (basis_lead basis.now.items j).column }
    ensures { result ≡ may_skip (leads_of basis.now.items) listed.now i j via }
{
    rule::may_skip(basis.leads(), listed, i, j, via)
}
