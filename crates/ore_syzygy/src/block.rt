//! The blocks of certificates that a complete run makes.

ghost use Rattle.std.specs.Prelude.{◌≡◌, length, IfOk, IfErr};
ghost use Rattle.std.specs.List.{All};
ghost use Rattle.ore_monomial.specs.declared.stop.RingStop.TheVariants.{Memory};
ghost use Rattle.ore_ring.specs.Belongs.{AllBelong};
ghost use Rattle.ore_parts.specs.OfSignature.{IsExactOf};
ghost use Rattle.ore_syzygy.specs.RunBlock.{HasRun, IsExactBlockOfRun, IsOutsideBlockOfRun};

use crate::copies::steps_copy;
use crate::inside::inside_rows;
use crate::pairs::pairs_of;
use ore_division::Reduced;
use ore_groebner::Finished;
use ore_monomial::RingStop;
use ore_parts::{ExactBlock, OutsideBlock};
use ore_ring::OreRing;
use ore_rows::{Matrix, row_copy};
use std::alloc::Global;

/// The exact block of a complete run on a matrix: its basis, the rows of the matrix as combinations of the basis, the
/// basis as combinations of these rows, and its pairs. The rows of `inside_of`, one for each syzygy, stand at the places
/// of their origins, and zeros elsewhere.
///
/// # Errors
/// Want of memory.
pub fn exact_block<R: OreRing>(
    ring: &R,
    alloc: Global,
    run: Finished,
    inside_of: Matrix,
) -> Result<ExactBlock, RingStop>
    requires run { HasRun (R.sig ring.now) run }
    requires count { length inside_of.rows ≡ length run.syzygies.rows }
    requires inside_of { All (AllBelong (R.sig ring.now)) inside_of.rows }
    ensures value { IfOk result (IsExactBlockOfRun (R.sig ring.now) run inside_of) }
    ensures of { IfOk result (IsExactOf (R.sig ring.now)) }
    ensures memory { IfErr result (λ e. e ≡ Memory) }
{
    let (_, block) = syzygies_with_block(ring, alloc, run, inside_of)?;
    Ok(block)
}

/// The syzygies of a complete run, and its [`exact_block`].
///
/// # Errors
/// Want of memory.
pub fn syzygies_with_block<R: OreRing>(
    ring: &R,
    alloc: Global,
    run: Finished,
    inside_of: Matrix,
) -> Result<(Matrix, ExactBlock), RingStop>
    requires run { HasRun (R.sig ring.now) run }
    requires count { length inside_of.rows ≡ length run.syzygies.rows }
    requires inside_of { All (AllBelong (R.sig ring.now)) inside_of.rows }
    ensures syzygies { IfOk result (λ p. p.0 ≡ run.syzygies) }
    ensures value { IfOk result (λ p. IsExactBlockOfRun (R.sig ring.now) run inside_of p.1) }
    ensures of { IfOk result (λ p. IsExactOf (R.sig ring.now) p.1) }
    ensures memory { IfErr result (λ e. e ≡ Memory) }
{
    let _fits = inside_of.cols();
    let Finished {
        basis,
        from,
        events,
        syzygies,
        origins,
    } = run;
    let inside = inside_rows(ring, alloc, &syzygies, &events, &origins, &inside_of)?;
    let pairs = pairs_of(alloc, &basis, events)?;
    let (rows, cofactors) = basis.into_matrices(alloc)?;
    let block = ExactBlock {
        basis: rows,
        from,
        to: cofactors,
        pairs,
        inside,
    };
    Ok((syzygies, block))
}

/// The outside block of a complete run on a matrix, for a row that was reduced by its basis: basis, combinations and
/// pairs as in [`exact_block`], then the steps of the reduction and what they left.
///
/// # Errors
/// Want of memory.
pub fn outside_block<R: OreRing>(
    ring: &R,
    alloc: Global,
    run: Finished,
    reduced: &Reduced,
) -> Result<OutsideBlock, RingStop>
    requires run { HasRun (R.sig ring.now) run }
    requires rest_of { AllBelong (R.sig ring.now) reduced.now.row }
    ensures value { IfOk result (IsOutsideBlockOfRun (R.sig ring.now) run reduced.now.steps reduced.now.row) }
    ensures memory { IfErr result (λ e. e ≡ Memory) }
{
    let Finished {
        basis,
        from,
        events,
        syzygies: _,
        origins: _,
    } = run;
    let pairs = pairs_of(alloc, &basis, events)?;
    let (basis_rows, _) = basis.into_matrices(alloc)?;
    let quotients = steps_copy(alloc, &reduced.steps)?;
    let rest = row_copy(ring, alloc, &reduced.row)?;
    let block = OutsideBlock {
        basis: basis_rows,
        from,
        pairs,
        quotients,
        rest,
    };
    Ok(block)
}
