//! Operations that a place of a kind calls for.

ghost use Rattle.std.specs.Prelude.{◌≡◌, length, IfOk};
ghost use Rattle.std.specs.List.{All};
ghost use Rattle.ore_algebra.specs.Limits.{program};
ghost use Rattle.ore_ring.specs.Belongs.{AllBelong, Belongs};
ghost use Rattle.ore_rows.specs.RowsWithin.{scale_within};
ghost use Rattle.ore_rows.specs.Stored.{sums_of};
ghost use Rattle.ore_blocks.specs.CheckBlock.{row_matrix_of};
ghost use Rattle.ore_blocks.specs.Conditions.{formed};
ghost use Rattle.ore_blocks.specs.Judging.{Judges};
ghost use Rattle.ore_blocks.specs.KernelCourse.{transposed_adjoint_within};

use ore_adjoint::transpose_adjoint;
use ore_blocks::refusal::at_place;
use ore_blocks::{Place, Refusal};
use ore_ring::{Op, OreRing};
use ore_rows::{Matrix, Row, scale};
use std::alloc::Global;

/// An operator times each entry of a row, at a place.
///
/// # Errors
/// The stop of the first product that stops, with the place; and want of memory.
#[tactic(auto, using(ore_blocks::proofs::Refusals::judged_at, ore_blocks::proofs::Refusals::kept_at))]
pub fn scaled<R: OreRing>(
    ring: &R,
    alloc: Global,
    place: Place,
    f: &Op,
    row: &Row,
) -> Result<Row, Refusal>
    requires f_of { Belongs (R.sig ring.now) f.now }
    requires row_of { AllBelong (R.sig ring.now) row.now }
    ensures judges { Judges sums_of result (formed place (scale_within program (R.sig ring.now) f.now.sum (sums_of row.now))) }
    ensures of { IfOk result (AllBelong (R.sig ring.now)) }
{
    at_place(place, scale(ring, alloc, f, row))
}

/// The transposed adjoint of a matrix, at a place: a row for each column, and a column for each row.
///
/// # Errors
/// The stop of the first adjoint that stops, with the place; and want of memory.
#[tactic(auto, using(ore_blocks::proofs::Refusals::judged_at, ore_blocks::proofs::Refusals::kept_at))]
pub fn transposed_adjoint<R: OreRing>(
    ring: &R,
    alloc: Global,
    place: Place,
    m: &Matrix,
) -> Result<Matrix, Refusal>
    requires of { All (AllBelong (R.sig ring.now)) m.now.rows }
    ensures judges { Judges row_matrix_of result (formed place (transposed_adjoint_within program (R.sig ring.now) (row_matrix_of m.now))) }
    ensures cols { IfOk result (λ t. t.cols ≡ length m.now.rows) }
    ensures count { IfOk result (λ t. length t.rows ≡ m.now.cols) }
    ensures of { IfOk result (λ t. All (AllBelong (R.sig ring.now)) t.rows) }
{
    at_place(place, transpose_adjoint(ring, alloc, m))
}
