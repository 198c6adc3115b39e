//! Compares rows, operator by operator.

ghost use Rattle.std.specs.Prelude.{◌≡◌, ◌↔◌, IsTrue};
ghost use Rattle.std.specs.List.{All};
ghost use Rattle.ore_ring.specs.Belongs.{AllBelong};
ghost use Rattle.ore_rows.specs.Stored.{rows_of, sums_of};
ghost use Rattle.ore_blocks.specs.PlaceConditions.{same_row, same_rows};

use ore_ring::OreRing;
use ore_rows::{Matrix, Row};

/// Whether two rows of the signature of a ring are the same.
pub fn are_same<R: OreRing>(ring: &R, a: &Row, b: &Row) -> bool
    requires a_of { AllBelong (R.sig ring.now) a.now }
    requires b_of { AllBelong (R.sig ring.now) b.now }
    ensures { result ≡ same_row (sums_of a.now) (sums_of b.now) }
{
    let _ring = ring;
    has_same_entries(a, b)
}

/// Whether two matrices over the signature of a ring have the same rows.
pub fn have_same_rows<R: OreRing>(ring: &R, a: &Matrix, b: &Matrix) -> bool
    requires a_of { All (AllBelong (R.sig ring.now)) a.now.rows }
    requires b_of { All (AllBelong (R.sig ring.now)) b.now.rows }
    ensures { result ≡ same_rows (rows_of a.now) (rows_of b.now) }
{
    let _ring = ring;
    has_same_rows(a, b)
}

// Whether two matrices have the same rows, whatever their columns.
fn has_same_rows(a: &Matrix, b: &Matrix) -> bool
    ensures { IsTrue result ↔ a.now.rows ≡ b.now.rows }
{
    if a.rows() != b.rows() {
        return false;
    }
    for k in 0..a.rows() {
        if !has_same_entries(a.row(k), b.row(k)) {
            return false;
        }
    }
    true
}

// Whether two rows have the same entries.
fn has_same_entries(a: &Row, b: &Row) -> bool
    ensures { IsTrue result ↔ a.now ≡ b.now }
{
    if a.len() != b.len() {
        return false;
    }
    for k in 0..a.len() {
        if !a.entry(k).equal(b.entry(k)) {
            return false;
        }
    }
    true
}
