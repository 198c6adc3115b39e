//! The law of canonical texts as expressions, as a contract.
//!
//! The function here has no answer and does nothing. Its clause is a law over the definitions of this crate
//! and of `ore_text`, for every signature and every operator that can be printed.

ghost use Rattle.ore_expr.specs.Laws.{CanonicalIsRead};

/// The canonical text of an operator of a signature is an expression, and the operator is its value.
pub fn law_canonical_is_read()
    ensures { CanonicalIsRead }
{}
