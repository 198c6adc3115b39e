//! What the operations' definitions give, as contracts.

ghost use Rattle.ore_ring.specs.Value.{ProductIsByLetters, AdjointIsByLetters, LimitsKeepProducts, LimitsKeepAdjoints};

use ore_monomial::Signature;

/// Products and adjoints have the values of the letter rule, for every signature: without limits they
/// are formed one letter at a time, and limits stop an operation or leave its value as it is.
pub fn law_value(sig: &Signature)
    ensures product { ProductIsByLetters sig.now }
    ensures adjoint { AdjointIsByLetters sig.now }
    ensures products_within { LimitsKeepProducts sig.now }
    ensures adjoints_within { LimitsKeepAdjoints sig.now }
{}
