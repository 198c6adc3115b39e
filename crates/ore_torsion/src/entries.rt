//! The first row with a first entry that isn't zero.

ghost use Rattle.std.specs.Prelude.{◌≡◌, ◌↔◌, ◌∷◌, suc, IsTrue, IfOk, IfErr};
ghost use Rattle.std.specs.List.{All};
ghost use Rattle.ore_monomial.specs.declared.stop.RingStop.TheVariants.{Memory};
ghost use Rattle.ore_ring.specs.Belongs.{AllBelong, Belongs};
ghost use Rattle.ore_rows.specs.Stored.{rows_of};
ghost use Rattle.ore_check.specs.Plans.{first_nonzero as first_in};
ghost use Rattle.ore_torsion.specs.FirstEntries.{HasFirst, part_of};

use ore_inverse::reductions::zero_row;
use ore_monomial::RingStop;
use ore_ring::{Op, OreRing};
use ore_rows::{Matrix, Row};
use std::alloc::Global;

// The first entry of the first row whose first entry isn't zero, and its `n` others; zeros where there is no such row.
pub(crate) fn first_nonzero<R: OreRing>(
    ring: &R,
    alloc: Global,
    n: usize,
    rows: &Matrix,
) -> Result<(Op, Row), RingStop>
    requires cols { rows.now.cols ≡ suc n }
    requires rows_of { All (AllBelong (R.sig ring.now)) rows.now.rows }
    ensures value { IfOk result (λ p. part_of p ≡ first_in n (rows_of rows.now)) }
    ensures operator_of { IfOk result (λ p. Belongs (R.sig ring.now) p.0) }
    ensures others_of { IfOk result (λ p. AllBelong (R.sig ring.now) p.1) }
    ensures memory { IfErr result (λ e. e ≡ Memory) }
{
    for k in 0..rows.rows() {
        let row = rows.row(k);
        if has_first(row) {
            return parted(ring, alloc, row);
        }
    }
    let operator = Op::zero(alloc, ring.signature().order());
    let others = zero_row(alloc, ring.signature(), n)?;
    Ok((operator, others))
}

// Whether a row has a first entry that isn't zero.
fn has_first(row: &Row) -> bool
    ensures { IsTrue result ↔ HasFirst row.now }
{
    match row.entries() {
        [first, ..] => !first.is_zero(),
        [] => false,
    }
}

// The first entry of a row, and the others.
fn parted<R: OreRing>(ring: &R, alloc: Global, row: &Row) -> Result<(Op, Row), RingStop>
    requires first { HasFirst row.now }
    requires row_of { AllBelong (R.sig ring.now) row.now }
    ensures value { IfOk result (λ p. p.0 ∷ p.1 ≡ row.now) }
    ensures operator_of { IfOk result (λ p. Belongs (R.sig ring.now) p.0) }
    ensures others_of { IfOk result (λ p. AllBelong (R.sig ring.now) p.1) }
    ensures memory { IfErr result (λ e. e ≡ Memory) }
{
    match row.entries() {
        [first, others @ ..] => {
            let operator = ring.copy(alloc, first)?;
            let others = copies(ring, alloc, others)?;
            Ok((operator, others))
        }
        [] => unreachable!(),
    }
}

// Equal entries, as a row.
fn copies<R: OreRing>(ring: &R, alloc: Global, entries: &[Op]) -> Result<Row, RingStop>
    ensures same { IfOk result (λ r. r ≡ entries.now) }
    ensures memory { IfErr result (λ e. e ≡ Memory) }
{
    let mut out = Vec::with_capacity(alloc, entries.len())?;
    for entry in entries {
        out.push(ring.copy(alloc, entry)?)?;
    }
    Ok(Row::from_vec(out))
}
