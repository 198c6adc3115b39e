//! Rows of operators.

ghost use Rattle.std.specs.Prelude.{◌≡◌, ◌<◌, ◌↔◌, length, slice_get, IsTrue};
ghost use Rattle.ore_rows.specs.Stored.{IsZeroRow};

use ore_ring::Op;
use std::marker::Model;

/// A list of operators.
#[derive(Drop)]
pub struct Row {
    entries: Vec<Op>,
}

impl Model for Row {
    ghost use Rattle.std.specs.Prelude.{List};
    ghost use Rattle.ore_ring.specs.Ordered.{Ordered};
    ghost use Rattle.ore_rows.specs.Stored.{row_code};

    ghost Value = { List Ordered };

    ghost coded = { row_code };

    ghost view = { λ a. a.entries.items };
}

impl Row {
    /// The row with these entries, in their order.
    pub fn from_vec(entries: Vec<Op>) -> Row
        ensures { result ≡ entries.items }
    {
        Row { entries }
    }

    // The entries as a vector.
    pub(crate) fn into_vec(self) -> Vec<Op>
        ensures { result.items ≡ self }
    {
        self.entries
    }

    /// The number of entries.
    pub fn len(&self) -> usize
        ensures { result ≡ length self.now }
    {
        self.entries.len()
    }

    /// The entry at place `k`, which is below [`Row::len`]; the first has place 0.
    pub fn entry(&self, k: usize) -> &Op
        requires { k < length self.now }
        ensures { slice_get self.now k ≡ Some result.now }
    {
        &self.entries[k]
    }

    /// The entries in order.
    pub fn entries(&self) -> &[Op]
        ensures { result.now ≡ self.now }
    {
        self.entries.as_slice()
    }

    /// Whether each entry is zero. A row without entries is.
    pub fn is_zero(&self) -> bool
        ensures { IsTrue result ↔ IsZeroRow self.now }
    {
        self.entries.iter().all(|entry| entry.is_zero())
    }
}
