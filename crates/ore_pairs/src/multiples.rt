//! The common multiple of two leads, and the S-row of two rows.

ghost use Rattle.std.specs.Prelude.{◌≡◌, ◌<◌, ◌≤◌, List, length, OkIff, IfOk, IfErr};
ghost use Rattle.ore_algebra.specs.Limits.{program};
ghost use Rattle.ore_rational.specs.Field.{rationals};
ghost use Rattle.ore_monomial.specs.Gives.{Gives};
ghost use Rattle.ore_monomial.specs.Monomial.{Divides, degree};
ghost use Rattle.ore_monomial.specs.Signature.{MonomialOf};
ghost use Rattle.ore_monomial.specs.declared.stop.RingStop.TheVariants.{Memory};
ghost use Rattle.ore_ring.specs.Belongs.{AllBelong, Belongs};
ghost use Rattle.ore_rows.specs.Arithmetic.{within};
ghost use Rattle.ore_rows.specs.Reduction.{row_at};
ghost use Rattle.ore_rows.specs.Rows.{Row as RowOfSums};
ghost use Rattle.ore_rows.specs.Stored.{sums_of};
ghost use Rattle.ore_pairs.specs.Steps.{lead_at, multiples_less, multiplier, lcm_of_leads, s_row_within};

use ore_leads::Leads;
use ore_monomial::{DegreePassed, Exps, RingStop};
use ore_rational::Rational;
use ore_ring::{Op, OreRing};
use ore_rows::{Row, row_less, scale};
use std::alloc::Global;

/// The least common multiple of the leads at two places.
///
/// # Errors
/// Where its degree would be greater than 32,767.
pub fn common_multiple(leads: &Leads, i: usize, j: usize) -> Result<Exps, DegreePassed>
    requires first { i < length leads.now }
    requires second { j < length leads.now }
    ensures { OkIff result (degree (lcm_of_leads leads.now i j).monomial ≤ 32767) (lcm_of_leads leads.now i j).monomial }
{
    let first = leads.get(i);
    let second = leads.get(j);
    first.1.lcm(&second.1)
}

/// The S-row of a pair, from its two rows: the row of `i` less that of `j`, each multiplied so that its lead becomes
/// `multiple`, the common multiple of both.
///
/// # Errors
/// The stop of the first product or difference that stops, and want of memory.
pub fn s_row<R: OreRing>(
    ring: &R,
    alloc: Global,
    leads: &Leads,
    multiple: &Exps,
    i: usize,
    j: usize,
    row: &Row,
    other: &Row,
) -> Result<Row, RingStop>
    requires first { i < length leads.now }
    requires second { j < length leads.now }
    requires common { multiple.now ≡ (lcm_of_leads leads.now i j).monomial }
    requires multiple_of { MonomialOf (R.sig ring.now) multiple.now }
    requires width { length row.now ≡ length other.now }
    requires row_of { AllBelong (R.sig ring.now) row.now }
    requires other_of { AllBelong (R.sig ring.now) other.now }
    ensures gives { (m : List (RowOfSums rationals)) → row_at m i ≡ sums_of row.now → row_at m j ≡ sums_of other.now → Gives sums_of result (s_row_within rationals (within program (R.sig ring.now)) leads.now m i j) }
    ensures of { IfOk result (AllBelong (R.sig ring.now)) }
    ensures width { IfOk result (λ r. length r ≡ length row.now) }
{
    let first = multiplier(ring, alloc, leads, i, multiple)?;
    let second = multiplier(ring, alloc, leads, j, multiple)?;
    multiples_less(ring, alloc, &first, row, &second, other)
}

// The operator that takes the lead at `k` to a multiple of it.
fn multiplier<R: OreRing>(
    ring: &R,
    alloc: Global,
    leads: &Leads,
    k: usize,
    multiple: &Exps,
) -> Result<Op, RingStop>
    requires place { k < length leads.now }
    requires divides { Divides (lead_at leads.now k).monomial multiple.now }
    requires of { MonomialOf (R.sig ring.now) multiple.now }
    ensures value { IfOk result (λ f. f.sum ≡ multiplier rationals leads.now multiple.now k) }
    ensures of { IfOk result (Belongs (R.sig ring.now)) }
    ensures memory { IfErr result (λ e. e ≡ Memory) }
{
    let lead = leads.get(k);
    let order = ring.signature().order();
    let lacking = multiple.minus(&lead.1);
    Ok(Op::term(alloc, order, lacking, Rational::one())?)
}

// The first multiple of a row less the second multiple of another.
#[tactic(auto, unfolding(crate::specs::Steps::multiples_less, ore_rows::specs::Reduction::less_multiple))]
fn multiples_less<R: OreRing>(
    ring: &R,
    alloc: Global,
    first: &Op,
    row: &Row,
    second: &Op,
    other: &Row,
) -> Result<Row, RingStop>
    requires width { length row.now ≡ length other.now }
    requires first_of { Belongs (R.sig ring.now) first.now }
    requires row_of { AllBelong (R.sig ring.now) row.now }
    requires second_of { Belongs (R.sig ring.now) second.now }
    requires other_of { AllBelong (R.sig ring.now) other.now }
    ensures gives { Gives sums_of result (multiples_less rationals (within program (R.sig ring.now)) first.now.sum (sums_of row.now) second.now.sum (sums_of other.now)) }
    ensures of { IfOk result (AllBelong (R.sig ring.now)) }
    ensures width { IfOk result (λ r. length r ≡ length row.now) }
{
    let multiple = scale(ring, alloc, first, row)?;
    row_less(ring, alloc, multiple, second, other)
}
