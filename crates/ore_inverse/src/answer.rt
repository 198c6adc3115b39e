//! What the search for an inverse answers, and its certificates.

ghost use Rattle.std.specs.Prelude.{◌≡◌, ◌⊎◌};
ghost use Rattle.ore_inverse.specs.Inverses.{left_certificate_of, right_certificate_of, IsOfLeftInverse, IsOfRightInverse};

use ore_cert::{Certificate, OutsideBlock};
use ore_rows::Matrix;

/// An inverse, or that there is none.
#[derive(Drop)]
pub enum InverseAnswer {
    /// The inverse, with a row for each column of the matrix and a column for each of its rows.
    Found(Matrix),
    /// The place, from 0, of the first unit row that isn't in the row module, and a block that shows it.
    None(usize, OutsideBlock),
}

// An answer as a certificate of a left inverse.
pub(crate) fn left_certificate_of(answer: InverseAnswer) -> Certificate
    ensures { result ≡ left_certificate_of answer }
{
    match answer {
        InverseAnswer::Found(s) => Certificate::LeftInverse { s },
        InverseAnswer::None(unit, block) => Certificate::NoLeftInverse { unit, block },
    }
}

// An answer as a certificate of a right inverse.
pub(crate) fn right_certificate_of(answer: InverseAnswer) -> Certificate
    ensures { result ≡ right_certificate_of answer }
{
    match answer {
        InverseAnswer::Found(s) => Certificate::RightInverse { s },
        InverseAnswer::None(unit, block) => Certificate::NoRightInverse { unit, block },
    }
}

// The answer that a certificate gives.
pub(crate) fn answer_of(cert: Certificate) -> InverseAnswer
    requires { IsOfLeftInverse cert ⊎ IsOfRightInverse cert }
    ensures left { IsOfLeftInverse cert → cert ≡ left_certificate_of result }
    ensures right { IsOfRightInverse cert → cert ≡ right_certificate_of result }
{
    match cert {
        Certificate::LeftInverse { s } | Certificate::RightInverse { s } => {
            InverseAnswer::Found(s)
        }
        Certificate::NoLeftInverse { unit, block } | Certificate::NoRightInverse { unit, block } =>
            InverseAnswer::None(unit, block),
        Certificate::Controllable { .. } => unreachable!(),
        Certificate::AutonomousElement { .. } => unreachable!(),
        Certificate::Kernel { .. } => unreachable!(),
        Certificate::Resolution { .. } => unreachable!(),
        Certificate::ExtZero { .. } => unreachable!(),
        Certificate::ExtNonzero { .. } => unreachable!(),
        Certificate::Halted { .. } => unreachable!(),
    }
}
