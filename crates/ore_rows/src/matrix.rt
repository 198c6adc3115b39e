//! Matrices of operators.

ghost use Rattle.std.specs.Prelude.{◌≡◌, ◌<◌, ◌^◌, length, slice_get};
ghost use Rattle.ore_rows.specs.Stored.{HasColumns};

use crate::row::Row;
use std::marker::Model;

/// A number of columns, below 2^63, and rows with one entry for each column.
#[derive(Drop)]
pub struct Matrix {
    cols: usize,
    rows: Vec<Row>,
}

impl Model for Matrix {
    ghost use Rattle.std.specs.Prelude.{◌<◌, ◌^◌};
    ghost use Rattle.ore_rows.specs.Stored.{OperatorMatrix, HasColumns, matrix_code};

    ghost Value = { OperatorMatrix };

    ghost coded = { matrix_code };

    ghost view = { λ a. record { cols = a.cols; rows = a.rows.items } };

    ghost invariant = { λ a. HasColumns a.cols a.rows.items × (a.cols < 2 ^ 63) };
}

impl Matrix {
    /// The matrix with these rows, in their order, each of `cols` entries. There may be none.
    ///
    /// `cols` is below 2^63.
    pub fn from_rows(cols: usize, rows: Vec<Row>) -> Matrix
        requires fits { HasColumns cols rows.items }
        requires few { cols < 2 ^ 63 }
        ensures { result ≡ record { cols = cols; rows = rows.items } }
    {
        Matrix { cols, rows }
    }

    /// The number of rows.
    pub fn rows(&self) -> usize
        ensures value { result ≡ length self.now.rows }
        ensures few { result < 2 ^ 63 }
    {
        self.rows.len()
    }

    /// The number of columns, also where there is no row.
    pub fn cols(&self) -> usize
        ensures value { result ≡ self.now.cols }
        ensures few { result < 2 ^ 63 }
        ensures fits { HasColumns result self.now.rows }
    {
        self.cols
    }

    // The rows in order.
    pub(crate) fn rows_slice(&self) -> &[Row]
        ensures value { result.now ≡ self.now.rows }
        ensures fits { HasColumns self.now.cols result.now }
    {
        self.rows.as_slice()
    }

    /// The row at place `k`, which is below [`Matrix::rows`]; the first has place 0. It has [`Matrix::cols`] entries.
    pub fn row(&self, k: usize) -> &Row
        requires { k < length self.now.rows }
        ensures value { slice_get self.now.rows k ≡ Some result.now }
        ensures width { length result.now ≡ self.now.cols }
    {
        &self.rows[k]
    }
}
