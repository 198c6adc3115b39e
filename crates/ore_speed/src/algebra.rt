//! The algebras in which products are timed.

use ore_mixed::MixedRing;
use ore_monomial::{Order, Signature, SignatureFault, VarKind};

/// An algebra, named by the number of its variables.
#[derive(Clone, Copy, Debug, Drop)]
pub enum Algebra {
    One,
    Three,
    Six,
}

impl Algebra {
    /// Its ring.
    pub fn ring(self) -> Result<MixedRing, SignatureFault> {
        let coordinate = VarKind::Coordinate;
        let first = VarKind::Differential { on: 0 };
        let second = VarKind::Differential { on: 1 };
        let third = VarKind::Differential { on: 2 };
        let signature = match self {
            Algebra::One => Signature::new(&[coordinate], Order::DegRevLex)?,
            Algebra::Three => Signature::new(&[coordinate, coordinate, first], Order::DegRevLex)?,
            Algebra::Six => Signature::new(
                &[coordinate, coordinate, coordinate, first, second, third],
                Order::DegRevLex,
            )?,
        };
        Ok(MixedRing::new(signature))
    }
}
