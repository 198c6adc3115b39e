//! Rows and matrices of operators.
//!
//! A [`Row`] is a list of operators. A [`Matrix`] has a number of columns and any number of rows, also
//! none, each with one entry a column; it is written rows by columns, so a 2 by 3 matrix has two rows of
//! three entries. Both are made of parts that are moved in, and read by reference, and these calls take no
//! memory. [`row_lead`] finds the greatest term of a row, and takes none either. [`unit_row`] and
//! [`identity`] make the rows with a single 1.
//!
//! The operations [`scale`], [`row_add`], [`row_sub`], [`combine`] and [`times`] work over any ring of
//! operators. Each gives what its definition in `specs/RowsWithin.antt` gives at the limits of the program,
//! and stops as the first operation of the ring that stops in the order that stands there. Want of memory
//! is the one answer beside it. [`row_copy`] and [`stack`], which puts a row above a matrix, stop for want of
//! memory alone. [`row_take`] is `row_sub` of a row that is moved in, and [`row_less`] takes a multiple of
//! another row from it; they move the entries that stay. Where the degrees fit, `row_less` forms each difference right
//! after its product, since then nothing stops but for one cause (`proofs/InTurn.antt`).
//!
//! No product, sum or difference with the operator zero is formed: it has its value under any limits
//! (`laws::law_zero`), so that an operation stops exactly where its definition does. [`combine`] finds the places of its
//! row that aren't zero once, and forms the products at these for each column (`proofs/NonzeroPlaces.antt`).
//!
//! A [`Basis`] keeps rows with lead coefficient 1, each with a cofactor row and beside its lead. What it is seen as
//! stands in `specs/StoredBasis.antt`. Its type knows how many entries its rows have, and that each noted lead is that
//! of its row, with the coefficient 1, by the order that the entries carry: [`Basis::push`] asks that of its row.
//!
//! Contracts see a row as the list of its entries, and a matrix as its number of columns beside the list
//! of its rows (`specs/Stored.antt`). Whoever holds a matrix can learn from [`Matrix::cols`] that its rows
//! fit.
//!
//! `specs/Rows.antt` says what rows mean, over any domain of numbers: the module that rows span, exactness,
//! torsion, products of matrices and the transposed adjoint. Coefficients of combinations, and the rows that
//! exactness and torsion speak of, are of the signature: no variable past the declared ones stands in them.
//! `specs/RowLead.antt` says what the lead of a row is. `proofs/RowLaws.antt` proves what the crates above rest
//! on: the module is closed under sums and multiples; exactness makes the module of the left kernel free of
//! torsion; the transposed adjoint reverses products and is its own inverse. `proofs/RowModules.antt` adds
//! differences and combinations of rows of a module. `proofs/RowLeads.antt` proves that a row of zeros has no
//! lead and any other has one, what the lead of a multiple is, and that two rows with one lead and one
//! coefficient differ by what is below it. `proofs/UnitRows.antt` has the laws of the identity.
//!
//! `specs/Reduction.antt` defines lead reduction, over the arithmetic of `specs/Arithmetic.antt`, which is exact or stops
//! at limits. The crates above meet this definition, and that of runs (`ore_pairs/specs/Run.antt`). [`Steps`],
//! [`Choices`] and [`Runs`] are the lists that they give and take, an [`Origin`] says what a syzygy of a run comes from,
//! and a [`Rule`] which choices may come, by what is shown of a basis (`specs/BasisLeads.antt`). `proofs/GreatestTerms.antt` proves that the
//! function `row_lead` of the definitions finds the lead, and `proofs/SoundArithmetic.antt` that within limits each
//! operation on rows gives the exact value or stops.
//!
//! The law functions of [`laws`] say what the limits do: without limits a definition gives the value of
//! `specs/Rows.antt`, and within limits it gives that value or stops.
//!
//! The crate stands on `ore_ring` for operators, and on `ore_leads` for the first lead that divides a term.
#![tactic(auto)]

pub mod basis;
pub mod choices;
mod entry_ops;
pub mod laws;
pub mod lead;
pub mod matrix;
pub mod matrix_ops;
pub mod row;
pub mod row_ops;
pub mod steps;
pub mod units;

pub use basis::Basis;
pub use choices::{Choice, Choices, Origin, Rule, Runs};
pub use lead::row_lead;
pub use matrix::Matrix;
pub use matrix_ops::{combine, stack, times};
pub use row::Row;
pub use row_ops::{row_add, row_copy, row_less, row_sub, row_take, scale};
pub use steps::{Step, Steps};
pub use units::{identity, unit_row};
