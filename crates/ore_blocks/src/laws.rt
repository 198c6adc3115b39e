//! What the check of a block says, as contracts.
//!
//! The functions here have no answer and do nothing. `specs/Laws.antt` has the statements, for the signature that is
//! handed in and its order.

ghost use Rattle.ore_blocks.specs.Laws.{ExactCheckAtMost, ExactCheckIsValid, OutsideCheckAtMost, OutsideCheckIsValid, ValidExactPasses, ValidOutsidePasses};

use ore_monomial::Signature;

/// Without limits each place of an exact block is right exactly where the block is valid.
pub fn law_exact_is_valid(sig: &Signature)
    ensures { ExactCheckIsValid sig.now }
{}

/// Without limits each place of an outside block is right exactly where the block is valid.
pub fn law_outside_is_valid(sig: &Signature)
    ensures { OutsideCheckIsValid sig.now }
{}

/// Within limits the places of an exact block give what they give without, or an operation stops.
pub fn law_exact_at_most(sig: &Signature)
    ensures { ExactCheckAtMost sig.now }
{}

/// Within limits the places of an outside block give what they give without, or an operation stops.
pub fn law_outside_at_most(sig: &Signature)
    ensures { OutsideCheckAtMost sig.now }
{}

/// No place of a valid exact block fails a condition: within limits it is right, or stops.
pub fn law_valid_exact_passes(sig: &Signature)
    ensures { ValidExactPasses sig.now }
{}

/// No place of a valid outside block fails a condition: within limits it is right, or stops.
pub fn law_valid_outside_passes(sig: &Signature)
    ensures { ValidOutsidePasses sig.now }
{}
