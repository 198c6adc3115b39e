//! The blocks of a certificate.
//!
//! What is said here of sizes, places and products holds of a valid block. One that was read may lack it: a text
//! fixes the form alone.

ghost use Rattle.std.specs.Prelude.{◌≡◌, ◌<◌, ◌^◌, length, slice_get};

use ore_rows::{Matrix, Row, Steps};
use std::marker::Model;

/// What was done with a pair of basis rows. Their places `i`, `j` and `via` count from 0.
#[derive(Drop)]
pub enum PairEntry {
    /// The steps leave nothing of the combination of the rows at `i` and `j` in which their leads cancel.
    Pair { i: usize, j: usize, steps: Steps },
    /// The lead of the row at `via` divides the common multiple of the leads at `i` and `j`, and its pairs with both are
    /// listed before.
    Skip { i: usize, j: usize, via: usize },
}

/// The pairs of a basis, each with what was done with it.
#[derive(Drop)]
pub struct Pairs {
    items: Vec<PairEntry>,
}

impl Model for Pairs {
    ghost use Rattle.std.specs.Prelude.{List};
    ghost use Rattle.ore_parts.specs.declared.block.PairEntry.{PairEntry};

    ghost Value = { List PairEntry };

    ghost view = { λ a. a.items.items };
}

impl Pairs {
    /// These pairs, in their order.
    pub fn from_vec(items: Vec<PairEntry>) -> Pairs
        ensures { result ≡ items.items }
    {
        Pairs { items }
    }

    /// The pairs as a vector.
    pub fn into_vec(self) -> Vec<PairEntry>
        ensures { result.items ≡ self }
    {
        self.items
    }

    /// The number of pairs.
    pub fn len(&self) -> usize
        ensures { result ≡ length self.now }
    {
        self.items.len()
    }

    /// Does nothing. Its contract says what holds of all such lists: there are fewer than 2^63 pairs.
    pub fn few(&self)
        ensures { length self.now < 2 ^ 63 }
    {
        let _count = self.items.len();
    }

    /// The pair at place `k`, where the first has place 0.
    pub fn get(&self, k: usize) -> &PairEntry
        requires { k < length self.now }
        ensures { slice_get self.now k ≡ Some result.now }
    {
        &self.items[k]
    }
}

/// Shows that the rows which take a matrix `a` to zeros are the row module of a matrix `m`, which has a column for each
/// row of `a`.
#[derive(Drop)]
pub struct ExactBlock {
    /// n rows with lead coefficient 1, and as many columns as `a`.
    pub basis: Matrix,
    /// The rows of `a` as combinations of the basis rows: a row for each row of `a`, and n columns.
    pub from: Matrix,
    /// The basis rows as combinations of the rows of `a`: n rows, and a column for each row of `a`.
    pub to: Matrix,
    /// Each pair of basis rows whose leads are in one column.
    pub pairs: Pairs,
    /// What takes `a` to zeros, as combinations of the rows of `m`: a row for each row of `a`, then one for each pair
    /// that isn't skipped, and a column for each row of `m`.
    pub inside: Matrix,
}

/// Shows that a row `w` isn't in the row module of a matrix `a`, which has a column for each entry of `w`.
#[derive(Drop)]
pub struct OutsideBlock {
    /// n rows with lead coefficient 1, and as many columns as `a`.
    pub basis: Matrix,
    /// The rows of `a` as combinations of the basis rows: a row for each row of `a`, and n columns.
    pub from: Matrix,
    /// Each pair of basis rows whose leads are in one column.
    pub pairs: Pairs,
    /// The steps that are taken from `w`, in order.
    pub quotients: Steps,
    /// What they leave of `w`: an entry for each column of `a`. It isn't zero, and no basis lead divides its lead.
    pub rest: Row,
}

/// A step of a resolution: a matrix whose rows generate what takes the matrix before to zeros.
#[derive(Drop)]
pub struct Link {
    /// This matrix, with a column for each row of the matrix before; that of the first link is the matrix of the
    /// problem.
    pub l: Matrix,
    /// Shows that its rows do so.
    pub block: ExactBlock,
}

/// The steps of a resolution, in order.
#[derive(Drop)]
pub struct Links {
    items: Vec<Link>,
}

impl Model for Links {
    ghost use Rattle.std.specs.Prelude.{List};
    ghost use Rattle.ore_parts.specs.declared.block.Link.{Link};
    ghost use Rattle.ore_parts.specs.BlockCode.{links_code};

    ghost Value = { List Link };

    ghost coded = { links_code };

    ghost view = { λ a. a.items.items };
}

impl Links {
    /// These links, in their order.
    pub fn from_vec(items: Vec<Link>) -> Links
        ensures { result ≡ items.items }
    {
        Links { items }
    }

    /// The links as a vector.
    pub fn into_vec(self) -> Vec<Link>
        ensures { result.items ≡ self }
    {
        self.items
    }

    /// The number of links.
    pub fn len(&self) -> usize
        ensures { result ≡ length self.now }
    {
        self.items.len()
    }

    /// The link at place `k`, where the first has place 0.
    pub fn get(&self, k: usize) -> &Link
        requires { k < length self.now }
        ensures { slice_get self.now k ≡ Some result.now }
    {
        &self.items[k]
    }
}
