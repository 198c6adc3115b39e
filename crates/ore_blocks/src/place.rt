//! The places of a certificate at which its conditions stand.

/// A part of a certificate that has at most one block.
#[derive(Clone, Copy, Debug, PartialEq, Eq, Drop)]
pub enum Section {
    /// A link of a resolution, from 0: its matrix and its block.
    Link(usize),
    /// All that stands outside links.
    Body,
}

/// The matrices of a section.
#[derive(Clone, Copy, Debug, PartialEq, Eq, Drop)]
pub enum Name {
    /// `Q` or `L`: the generators that are claimed.
    Generators,
    /// `S`: the inverse that is claimed.
    Inverse,
    /// The element that is claimed.
    Element,
    /// The cofactor row of the element.
    Cofactor,
    /// The basis of a block.
    Basis,
    /// The rows of the block's matrix as combinations of the basis.
    From,
    /// The basis as combinations of the rows of the block's matrix.
    To,
    /// What takes the block's matrix to zeros.
    Inside,
    /// What the steps of an outside block leave.
    Rest,
}

/// A place at which conditions stand. It has a line in each text of the certificate. Rows and pairs count from 0.
#[derive(Clone, Copy, Debug, PartialEq, Eq, Drop)]
pub enum Place {
    /// The name and the sizes of a matrix.
    Header(Section, Name),
    /// A row of a matrix.
    Row(Section, Name, usize),
    /// The operator that takes an element into the row module.
    Operator,
    /// The number of a unit row.
    Unit,
    /// The beginning of a block.
    Block(Section),
    /// The number of pairs of a block.
    Pairs(Section),
    /// A pair of a block where the last number is 0, else that step of the pair, from 1.
    Pair(Section, usize, usize),
    /// The number of steps of an outside block where the number is 0, else that step, from 1.
    Step(usize),
    /// The end of the certificate.
    End,
}
