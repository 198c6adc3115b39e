//! What certificates say.

ghost use Rattle.std.specs.Prelude.{◌≡◌};
ghost use Rattle.ore_cert.specs.KindWords.{kind_of, kind_word};

use crate::kind::Kind;
use crate::report::Report;
use ore_parts::{ExactBlock, Links, OutsideBlock};
use ore_ring::Op;
use ore_rows::{Matrix, Row};

/// On which side of a matrix a kernel is.
#[derive(Clone, Copy, Debug, PartialEq, Eq, Drop)]
pub enum Side {
    /// The rows that take the matrix to zeros.
    Left,
    /// The columns that the matrix takes to zeros.
    Right,
}

/// What is claimed of a matrix R, of q rows and p columns, with what shows it. The sizes are those of a valid
/// certificate; one that was read may have others.
#[derive(Drop)]
pub enum Certificate {
    /// The rows that take Q, of p rows, to zeros are the row module of R. So R leaves no torsion.
    Controllable {
        q: Matrix,
        block: ExactBlock,
    },
    /// The element, of p entries, isn't in the row module of R, but the operator, which isn't zero, times the element
    /// is in it. The text also holds a cofactor row, of q entries, and the check compares that multiple with the
    /// cofactor row times R.
    AutonomousElement {
        element: Row,
        operator: Op,
        cofactor: Row,
        block: OutsideBlock,
    },
    /// S R is the identity, where S has p rows and q columns.
    LeftInverse {
        s: Matrix,
    },
    /// R S is the identity, where S has p rows and q columns.
    RightInverse {
        s: Matrix,
    },
    /// No S has S R for the identity: the unit row of p entries with 1 at place `unit`, from 0, isn't in the row module
    /// of R.
    NoLeftInverse {
        unit: usize,
        block: OutsideBlock,
    },
    /// No S has R S for the identity: the unit row of q entries with 1 at place `unit`, from 0, isn't in the row module
    /// of the transposed adjoint of R.
    NoRightInverse {
        unit: usize,
        block: OutsideBlock,
    },
    /// On the left, the rows that take R to zeros are the row module of the generators, which have q columns. On the
    /// right, the columns that R takes to zeros are the combinations of their columns, said of the transposed adjoints;
    /// they have p rows.
    Kernel {
        side: Side,
        generators: Matrix,
        block: ExactBlock,
    },
    /// The links, from 1 to 12, are a free resolution of the module that R presents.
    Resolution {
        links: Links,
    },
    /// So they are, and, for k links, the k-th extension module is zero.
    ExtZero {
        links: Links,
        block: ExactBlock,
    },
    /// So they are, and, for k links, the k-th extension module isn't zero. The element shows it: it has an entry for
    /// each row of the matrix before the last, which for one link is R.
    ExtNonzero {
        links: Links,
        element: Row,
        block: OutsideBlock,
    },
    /// A computation stopped.
    Halted {
        report: Report,
    },
}

impl Certificate {
    /// Its kind, with what the second line of its text says besides.
    pub fn kind(&self) -> Kind
        ensures { result ≡ kind_of self.now }
    {
        match self {
            Certificate::Controllable { .. } => Kind::Controllable,
            Certificate::AutonomousElement { .. } => Kind::AutonomousElement,
            Certificate::LeftInverse { .. } => Kind::LeftInverse,
            Certificate::RightInverse { .. } => Kind::RightInverse,
            Certificate::NoLeftInverse { .. } => Kind::NoLeftInverse,
            Certificate::NoRightInverse { .. } => Kind::NoRightInverse,
            Certificate::Kernel {
                side: Side::Left,
                ..
            } => Kind::KernelLeft,
            Certificate::Kernel {
                side: Side::Right,
                ..
            } => Kind::KernelRight,
            Certificate::Resolution { links } => Kind::Resolution { count: links.len() },
            Certificate::ExtZero { links, .. } => Kind::ExtZero { count: links.len() },
            Certificate::ExtNonzero { links, .. } => Kind::ExtNonzero { count: links.len() },
            Certificate::Halted { report } => Kind::Halted {
                cause: report.cause,
            },
        }
    }

    /// The word of its kind, which begins the second line of its text, and with which a reply names it.
    pub fn word(&self) -> &'static [u8]
        ensures { result.now ≡ kind_word self.now }
    {
        self.kind().word()
    }
}
