//! Rows that are made monic.

ghost use Rattle.std.specs.Prelude.{◌≡◌, ◌≢◌, ◌+◌, length, pos, IfOk, IfErr};
ghost use Rattle.ore_algebra.specs.Free.{single};
ghost use Rattle.ore_algebra.specs.Limits.{program};
ghost use Rattle.ore_rational.specs.Fraction.{whole, inverse as inverse_of};
ghost use Rattle.ore_rational.specs.Field.{rationals, rational_inverses};
ghost use Rattle.ore_monomial.specs.Gives.{Gives};
ghost use Rattle.ore_monomial.specs.Monomial.{unit, plain_cmp};
ghost use Rattle.ore_monomial.specs.Term.{Term};
ghost use Rattle.ore_monomial.specs.declared.stop.RingStop.TheVariants.{Memory};
ghost use Rattle.ore_ring.specs.Belongs.{AllBelong, Belongs};
ghost use Rattle.ore_rows.specs.Arithmetic.{within};
ghost use Rattle.ore_rows.specs.RowLead.{IsRowLead};
ghost use Rattle.ore_pairs.specs.Run as run;
ghost use Rattle.ore_rows.specs.Stored.{sums_of};
ghost use Rattle.ore_rows.specs.StoredBasis.{BasisBelongs, monics};
ghost use Rattle.ore_groebner.specs.RunProgress.{monic_with, basis_with};

use ore_monomial::{Exps, RingStop};
use ore_rational::Rational;
use ore_ring::{Op, OreRing};
use ore_rows::{Basis, Row, scale};
use std::alloc::Global;

// The inverse of a fraction that isn't zero. It is in the range, since its parts are those of the fraction.
fn inverse(coef: Rational) -> Rational
    requires { coef ≢ whole (pos 0) }
    ensures { result ≡ inverse_of coef }
{
    let _numerator = coef.numerator();
    let _denominator = coef.denominator();
    let Ok(made) = Rational::one().div(coef) else {
        unreachable!()
    };
    made
}

// The inverse of a fraction that isn't zero, as an operator.
fn inverse_term<R: OreRing>(ring: &R, alloc: Global, coef: Rational) -> Result<Op, RingStop>
    requires { coef ≢ whole (pos 0) }
    ensures value { IfOk result (λ f. f.sum ≡ single rationals plain_cmp unit (inverse_of coef)) }
    ensures of { IfOk result (Belongs (R.sig ring.now)) }
    ensures memory { IfErr result (λ e. e ≡ Memory) }
{
    let order = ring.signature().order();
    Ok(Op::term(alloc, order, Exps::zero(), inverse(coef))?)
}

// A row with the lead coefficient `coef`, and its cofactor row, scaled by the inverse of that.
fn monic_multiple<R: OreRing>(
    ring: &R,
    alloc: Global,
    row: &Row,
    cofactor: &Row,
    coef: Rational,
) -> Result<(Row, Row), RingStop>
    requires lead { (t : Term) × IsRowLead rationals (R.sig ring.now).order (sums_of row.now) t coef }
    requires row_of { AllBelong (R.sig ring.now) row.now }
    requires cofactor_of { AllBelong (R.sig ring.now) cofactor.now }
    ensures gives { (t : Term) → IsRowLead rationals (R.sig ring.now).order (sums_of row.now) t coef → Gives (monic_with t) result (run.monic_multiple rationals rational_inverses (within program (R.sig ring.now)) (sums_of row.now) (sums_of cofactor.now) t) }
    ensures monic { IfOk result (λ p. (t : Term) → IsRowLead rationals (R.sig ring.now).order (sums_of row.now) t coef → IsRowLead rationals (R.sig ring.now).order (sums_of p.0) t rationals.one) }
    ensures row_of { IfOk result (λ p. AllBelong (R.sig ring.now) p.0) }
    ensures cofactor_of { IfOk result (λ p. AllBelong (R.sig ring.now) p.1) }
    ensures row_width { IfOk result (λ p. length p.0 ≡ length row.now) }
    ensures cofactor_width { IfOk result (λ p. length p.1 ≡ length cofactor.now) }
{
    let factor = inverse_term(ring, alloc, coef)?;
    let monic = scale(ring, alloc, &factor, row)?;
    let scaled = scale(ring, alloc, &factor, cofactor)?;
    Ok((monic, scaled))
}

/// A row with the lead coefficient `coef`, made monic, and its cofactor row stand next in the basis.
///
/// # Errors
/// The stop of the first product that stops, and want of memory.
pub fn push_monic<R: OreRing>(
    ring: &R,
    alloc: Global,
    basis: Basis,
    row: &Row,
    cofactor: &Row,
    coef: Rational,
) -> Result<Basis, RingStop>
    requires lead { (t : Term) × IsRowLead rationals (R.sig ring.now).order (sums_of row.now) t coef }
    requires row_width { length row.now ≡ basis.cols }
    requires cofactor_width { length cofactor.now ≡ basis.width }
    requires row_of { AllBelong (R.sig ring.now) row.now }
    requires cofactor_of { AllBelong (R.sig ring.now) cofactor.now }
    requires basis_of { BasisBelongs (R.sig ring.now) basis.items }
    ensures gives { (t : Term) → IsRowLead rationals (R.sig ring.now).order (sums_of row.now) t coef → Gives monics result (basis_with (monics basis) (run.monic_multiple rationals rational_inverses (within program (R.sig ring.now)) (sums_of row.now) (sums_of cofactor.now) t)) }
    ensures basis_of { IfOk result (λ b. BasisBelongs (R.sig ring.now) b.items) }
    ensures cols { IfOk result (λ b. b.cols ≡ basis.cols) }
    ensures width { IfOk result (λ b. b.width ≡ basis.width) }
    ensures count { IfOk result (λ b. length b.items ≡ length basis.items + 1) }
{
    let mut grown = basis;
    let (monic, scaled) = monic_multiple(ring, alloc, row, cofactor, coef)?;
    grown.push(ring.signature(), monic, scaled)?;
    Ok(grown)
}
