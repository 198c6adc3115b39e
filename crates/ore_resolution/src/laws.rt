//! What the first extension module of the transposed adjoint of a matrix says of torsion, as a contract.
//!
//! The function here has no answer and does nothing. `specs/ExtensionLaws.antt` has the statements, over numbers of any
//! size, and `proofs/TorsionByExtension.antt` proves them.

ghost use Rattle.ore_resolution.specs.ExtensionLaws.{NonzeroIsTorsion, ValidTellsOfTorsion, ZeroIsTorsionFree};

use ore_monomial::Signature;

/// Of the transposed adjoint of a matrix the first extension module is zero exactly where the matrix leaves no torsion.
/// Where it isn't zero, the element that shows it is a torsion element of the matrix.
pub fn law_torsion_by_extension(sig: &Signature)
    ensures zero { ZeroIsTorsionFree sig.now }
    ensures nonzero { NonzeroIsTorsion sig.now }
    ensures valid { ValidTellsOfTorsion sig.now }
{}
