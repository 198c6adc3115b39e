//! The block that shows a kernel.

ghost use Rattle.std.specs.Prelude.{◌≡◌, IfOk, IfErr};
ghost use Rattle.ore_monomial.specs.declared.stop.RingStop.TheVariants.{Memory};
ghost use Rattle.ore_parts.specs.OfSignature.{IsExactOf};
ghost use Rattle.ore_syzygy.specs.RunBlock.{HasRun};
ghost use Rattle.ore_kernels.specs.KernelPlans.{IsKernelBlockOf};

use ore_groebner::Finished;
use ore_monomial::RingStop;
use ore_parts::ExactBlock;
use ore_ring::OreRing;
use ore_rows::{Matrix, identity};
use ore_syzygy::syzygies_with_block;
use std::alloc::Global;

/// The syzygies of a complete run, and its block for them: unit rows stand at their origins.
///
/// # Errors
/// Want of memory.
pub fn kernel_block<R: OreRing>(
    ring: &R,
    alloc: Global,
    run: Finished,
) -> Result<(Matrix, ExactBlock), RingStop>
    requires run { HasRun (R.sig ring.now) run }
    ensures syzygies { IfOk result (λ p. p.0 ≡ run.syzygies) }
    ensures value { IfOk result (λ p. IsKernelBlockOf (R.sig ring.now) run p.1) }
    ensures of { IfOk result (λ p. IsExactOf (R.sig ring.now) p.1) }
    ensures memory { IfErr result (λ e. e ≡ Memory) }
{
    let Ok(units) = identity(alloc, ring.signature(), run.syzygies.rows()) else {
        return Err(RingStop::Memory);
    };
    syzygies_with_block(ring, alloc, run, units)
}
