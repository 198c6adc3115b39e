//! Why conditions fail.

ghost use Rattle.std.specs.Prelude.{◌≡◌};
ghost use Rattle.ore_blocks.specs.ReasonWords.{reason_word};

/// Why a condition fails.
#[derive(Clone, Copy, Debug, PartialEq, Eq, Drop)]
pub enum Reason {
    /// A matrix has not the sizes that are due.
    Shape,
    /// The operator is zero.
    ZeroOperator,
    /// The operator times the element isn't the cofactor row times the matrix.
    Cofactor,
    /// A product isn't the identity.
    Identity,
    /// There is no such unit row.
    Unit,
    /// Something doesn't take the matrix to zeros.
    NotInKernel,
    /// A basis row is zero, or its lead coefficient isn't 1.
    NotMonic,
    /// A row of `from` times the basis isn't the row of the matrix.
    FromRow,
    /// A row of `to` times the matrix isn't the basis row.
    ToRow,
    /// The number of pairs isn't that of the basis.
    Pairs,
    /// A pair is none of the basis, or is listed before.
    Pair,
    /// The steps leave something of a pair.
    Remainder,
    /// A step names no basis row.
    Step,
    /// A step isn't below the common multiple of its pair.
    StepTooHigh,
    /// A pair may not be skipped.
    Skip,
    /// An inside row times the matrix isn't what it should be.
    Inside,
    /// The rest isn't what the steps leave.
    Rest,
    /// The rest is zero, or a lead of the basis divides its lead.
    Reducible,
    /// A run can't begin there.
    Run,
    /// A pair can't be treated there.
    Treat,
    /// The computation doesn't stop there.
    Stop,
}

impl Reason {
    /// Its word in a reply.
    pub fn word(self) -> &'static [u8]
        ensures { result.now ≡ reason_word self }
    {
        match self {
            Reason::Shape => b"shape",
            Reason::ZeroOperator => b"zero-operator",
            Reason::Cofactor => b"cofactor",
            Reason::Identity => b"identity",
            Reason::Unit => b"unit",
            Reason::NotInKernel => b"not-in-kernel",
            Reason::NotMonic => b"not-monic",
            Reason::FromRow => b"from",
            Reason::ToRow => b"to",
            Reason::Pairs => b"pairs",
            Reason::Pair => b"pair",
            Reason::Remainder => b"remainder",
            Reason::Step => b"step",
            Reason::StepTooHigh => b"step-too-high",
            Reason::Skip => b"skip",
            Reason::Inside => b"inside",
            Reason::Rest => b"rest",
            Reason::Reducible => b"reducible",
            Reason::Run => b"run",
            Reason::Treat => b"treat",
            Reason::Stop => b"stop",
        }
    }
}
