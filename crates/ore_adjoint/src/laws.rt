//! What limits do to the transposed adjoint, as contracts.
//!
//! The function here has no answer and does nothing. `specs/AdjointMatrix.antt` has the statements, and
//! `proofs/AdjointValues.antt` proves them.

ghost use Rattle.ore_adjoint.specs.AdjointMatrix.{AdjointAtMost, AdjointUnlimited, AdjointValue};

use ore_monomial::Signature;

/// What the transposed adjoint gives within limits is the value that `ore_rows/specs/Rows.antt` defines;
/// without limits it gives that value, and limits do nothing but stop it.
pub fn law_adjoint_value(sig: &Signature)
    ensures unlimited { AdjointUnlimited sig.now }
    ensures at_most { AdjointAtMost sig.now }
    ensures value { AdjointValue sig.now }
{}
