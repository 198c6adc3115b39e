//! The laws of lead reduction, as contracts.
//!
//! The function here has no answer and does nothing. `specs/Laws.antt` has the statements, and
//! `proofs/Leaves.antt` and `proofs/Reductions.antt` prove them.

ghost use Rattle.ore_division.specs.Laws.{
  ReductionComes,
  ReductionEnds,
  ReductionStaysBelow,
  ReductionTakes,
  ReductionValue,
};

use ore_monomial::Signature;

/// What lead reduction gives is reduced, makes up the row with the steps, stays below what the row is below, and
/// within limits is what it is without; without them there is always a value.
pub fn law_reduction(sig: &Signature)
    ensures ends { ReductionEnds sig.now }
    ensures takes { ReductionTakes sig.now }
    ensures below { ReductionStaysBelow sig.now }
    ensures value { ReductionValue sig.now }
    ensures comes { ReductionComes sig.now }
{}
