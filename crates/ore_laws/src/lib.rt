//! The laws of operators, and of matrices of operators, as contracts.
//!
//! Each function here has no answer and does nothing. Its clauses are laws over the definitions of
//! `ore_monomial`, `ore_ring` and `ore_rows` alone, for every operator over the fractions, of any size and
//! with no limit. The one premise, but for the sizes of matrices, and for operators in the variables of the signature
//! where a law gives such, is the signature that is handed in: since a `Signature` can only be made of kinds without
//! a fault, each operator that acts names a coordinate before it, and that suffices.
//!
//! Proved here:
//! - the product is associative, has the unit 1, and distributes over sums from both sides;
//! - each operator but zero has exactly one lead, and the lead of a product is the product of the leads,
//!   in either order of monomials, the order of the signature among them;
//! - a product is zero only where one of its factors is;
//! - the adjoint keeps sums, turns products round and is its own inverse;
//! - sums and products of operators in the variables of the signature are in these variables again;
//! - two nonzero operators of the signature have a nonzero common left multiple and a nonzero common right multiple,
//!   by operators of the signature;
//! - the transposed adjoint of matrices turns products round and is its own inverse.
//!
//! `specs/Laws.antt` has the statements. Their proofs stand in `ore_ring`, and those of matrices in `ore_rows`,
//! over any domain of numbers. Those of common multiples stand here, over any field.
//!
//! `proofs/TorsionOrColumn.antt` and `proofs/KernelTorsion.antt` have what follows for torsion, over any field
//! (`specs/Columns.antt`). It is said as a contract in `ore_syzygy`, and used of plans in `ore_check`.
//!
//! A caller that has a `&Signature` and needs a law calls its function. There are no must-fail edits:
//! the bodies are empty, so no change of a body can be refused, and what counts are the statements.
#![tactic(auto)]

ghost use Rattle.ore_laws.specs.Laws.{
  AdjointIsAdditive,
  AdjointIsInvolution,
  AdjointOfMatrixProduct,
  AdjointOfMatrixTwice,
  AdjointReversesProducts,
  DistributesLeft,
  DistributesRight,
  HasCommonLeftMultiples,
  HasCommonRightMultiples,
  HasNoZeroDivisor,
  HasUnit,
  IsAssociative,
  IsClosedUnderAdjoints,
  IsClosedUnderProducts,
  IsClosedUnderSums,
  LeadIsUnique,
  LeadOfProduct,
  NonzeroHasLead,
};

use ore_monomial::Signature;

/// The product of operators is associative, and 1 is its unit.
pub fn law_associative(sig: &Signature)
    ensures associative { IsAssociative sig.now }
    ensures unit { HasUnit sig.now }
{}

/// The product of operators distributes over sums, from the left and from the right.
pub fn law_distributive(sig: &Signature)
    ensures left { DistributesLeft sig.now }
    ensures right { DistributesRight sig.now }
{}

/// Nonzero operators have exactly one lead, and leads multiply.
pub fn law_lead(sig: &Signature)
    ensures exists { NonzeroHasLead }
    ensures unique { LeadIsUnique }
    ensures product { LeadOfProduct sig.now }
{}

/// A product of operators is zero only where one of them is zero.
pub fn law_no_zero_divisor(sig: &Signature)
    ensures { HasNoZeroDivisor sig.now }
{}

/// The adjoint keeps sums, reverses products, and is its own inverse.
pub fn law_adjoint(sig: &Signature)
    ensures sum { AdjointIsAdditive sig.now }
    ensures product { AdjointReversesProducts sig.now }
    ensures twice { AdjointIsInvolution sig.now }
{}

/// The transposed adjoint of matrices reverses products where the sizes fit together, and is its own inverse.
pub fn law_adjoint_matrix(sig: &Signature)
    ensures product { AdjointOfMatrixProduct sig.now }
    ensures twice { AdjointOfMatrixTwice sig.now }
{}

/// Operators in the variables of a signature are closed under sums, products and adjoints.
pub fn law_closed(sig: &Signature)
    ensures sums { IsClosedUnderSums sig.now }
    ensures products { IsClosedUnderProducts sig.now }
    ensures adjoints { IsClosedUnderAdjoints sig.now }
{}

/// Two nonzero operators f and g of a signature have nonzero l and m of the signature with l f = m g.
pub fn law_common_left_multiple(sig: &Signature)
    ensures { HasCommonLeftMultiples sig.now }
{}

/// Two nonzero operators f and g of a signature have nonzero l and m of the signature with f l = g m.
pub fn law_common_right_multiple(sig: &Signature)
    ensures { HasCommonRightMultiples sig.now }
{}
