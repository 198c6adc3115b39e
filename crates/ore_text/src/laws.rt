//! The law of canonical texts, as a contract.
//!
//! The function here has no answer and does nothing. Its clause is a law over the definitions of this crate
//! alone, for every signature and all operators that can be printed.

ghost use Rattle.ore_text.specs.Laws.{CanonicalIsUnique};

/// No text is the canonical text of two operators.
pub fn law_canonical_is_unique()
    ensures { CanonicalIsUnique }
{}
