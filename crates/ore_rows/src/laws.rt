//! What limits do to the operations on rows and matrices, as contracts.
//!
//! Each function here has no answer and does nothing. `specs/Laws.antt` has the statements, and
//! `proofs/WithinValues.antt` and `proofs/ZeroOperands.antt` prove them.

ghost use Rattle.ore_rows.specs.Laws.{
  CombineAtMost,
  CombineUnlimited,
  CombineValue,
  DifferenceAtMost,
  DifferenceUnlimited,
  DifferenceValue,
  DotAtMost,
  DotUnlimited,
  DotValue,
  ProductAtMost,
  ProductUnlimited,
  ProductValue,
  ScaleAtMost,
  ScaleUnlimited,
  ScaleValue,
  SumAtMost,
  SumUnlimited,
  SumValue,
  ZeroAdjoint,
  ZeroDifference,
  ZeroProduct,
  ZeroSum,
};

use ore_monomial::Signature;

/// Without limits, each operation gives the value that `specs/Rows.antt` defines.
pub fn law_unlimited(sig: &Signature)
    ensures scale { ScaleUnlimited sig.now }
    ensures sum { SumUnlimited }
    ensures difference { DifferenceUnlimited }
    ensures dot { DotUnlimited sig.now }
    ensures combine { CombineUnlimited sig.now }
    ensures product { ProductUnlimited sig.now }
{}

/// Within limits, each operation gives what it gives without them, or stops.
pub fn law_at_most(sig: &Signature)
    ensures scale { ScaleAtMost sig.now }
    ensures sum { SumAtMost }
    ensures difference { DifferenceAtMost }
    ensures dot { DotAtMost sig.now }
    ensures combine { CombineAtMost sig.now }
    ensures product { ProductAtMost sig.now }
{}

/// What an operation gives within limits is the value that `specs/Rows.antt` defines.
pub fn law_value(sig: &Signature)
    ensures scale { ScaleValue sig.now }
    ensures sum { SumValue }
    ensures difference { DifferenceValue }
    ensures dot { DotValue sig.now }
    ensures combine { CombineValue sig.now }
    ensures product { ProductValue sig.now }
{}

/// Under any limits, a product with the operator zero is zero, a sum with it is the other operand, where it is taken
/// away the same is left, and its adjoint is zero. So none of these stops, and operations on rows and matrices don't
/// form them.
pub fn law_zero(sig: &Signature)
    ensures product { ZeroProduct sig.now }
    ensures sum { ZeroSum }
    ensures difference { ZeroDifference }
    ensures adjoint { ZeroAdjoint sig.now }
{}
