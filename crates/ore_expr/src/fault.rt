//! What is wrong with a text of an operator.

ghost use Rattle.std.specs.Prelude.{◌≡◌};
ghost use Rattle.ore_expr.specs.declared.fault.TextFault.TheVariants.{Stop};
ghost use Rattle.ore_expr.specs.FaultWords.{text_word};
ghost use Rattle.ore_monomial.specs.declared.stop.RingStop.TheVariants.{Memory};

use ore_monomial::RingStop;
use std::alloc::{AllocError, AllocFailed};

/// Why a text has no value. A number is the place of the first byte of a token, from 0.
#[derive(Clone, Copy, Debug, PartialEq, Eq, Drop)]
pub enum TextFault {
    /// No expression begins so; at the length of the text, it ends too early.
    Syntax(usize),
    /// The name isn't declared.
    UnknownName(usize),
    /// A numerator or denominator is above `2^127 - 1`.
    NumberTooWide(usize),
    /// A denominator is 0.
    ZeroDenominator(usize),
    /// The power of a name is above 32,767, or another power is above 64.
    PowerTooLarge(usize),
    /// The parenthesis is the 65th that is open.
    TooDeep(usize),
    /// The text is an expression, and an operation in it stops.
    Stop(RingStop),
}

impl TextFault {
    /// Its word in a reply. A stop has none, since its cause is answered.
    pub fn word(self) -> &'static [u8]
        ensures { result.now ≡ text_word self }
    {
        match self {
            TextFault::Syntax(_) => b"syntax",
            TextFault::UnknownName(_) => b"unknown-name",
            TextFault::NumberTooWide(_) => b"number-too-wide",
            TextFault::ZeroDenominator(_) => b"zero-denominator",
            TextFault::PowerTooLarge(_) => b"power-too-large",
            TextFault::TooDeep(_) => b"too-deep",
            TextFault::Stop(_) => b"",
        }
    }
}

impl From<RingStop> for TextFault {
    ghost from_gives = { λ e f. f ≡ Stop e };

    fn from(stop: RingStop) -> TextFault {
        TextFault::Stop(stop)
    }
}

impl From<AllocError> for TextFault {
    ghost from_gives = { λ _ f. f ≡ Stop Memory };

    fn from(_e: AllocError) -> TextFault {
        TextFault::Stop(RingStop::Memory)
    }
}

impl<T: Drop> From<AllocFailed<T>> for TextFault {
    ghost from_gives = { λ _ f. f ≡ Stop Memory };

    fn from(_e: AllocFailed<T>) -> TextFault {
        TextFault::Stop(RingStop::Memory)
    }
}
