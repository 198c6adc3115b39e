//! What valid blocks show, as contracts.
//!
//! Each function here has no answer and does nothing. `specs/Laws.antt` has the statements, over the fractions
//! and for the order of the signature that is handed in; `proofs/Exact.antt` and `proofs/Outside.antt` prove
//! them over any domain and either order.

ghost use Rattle.ore_pairs.specs.Laws.{CompleteIsClosed, CompleteIsTested, ExactBlockIsExact, HasFewChoicesWithin, OutsideBlockIsOutside};

use ore_monomial::Signature;

/// The rows that take a matrix to zeros are the row module that a valid exact block names.
pub fn law_exact_block(sig: &Signature)
    ensures { ExactBlockIsExact sig.now }
{}

/// A row with a valid outside block is no combination of the rows of the matrix.
pub fn law_outside_block(sig: &Signature)
    ensures { OutsideBlockIsOutside sig.now }
{}

/// The test that a state is complete passes exactly where each pair with equal lead columns is listed, and then no choice
/// is lawful.
pub fn law_complete_state(sig: &Signature)
    ensures tested { CompleteIsTested }
    ensures closed { CompleteIsClosed sig.now }
{}

/// In each state finitely many choices lead on.
pub fn law_few_choices(sig: &Signature)
    ensures { HasFewChoicesWithin sig.now }
{}
