//! The parts of a certificate, and their texts.
//!
//! Parts are matrices, rows as matrices of one row, steps, pairs, exact and outside blocks. Each has one text of whole
//! lines (`specs/BlockText.antt`; matrices in `specs/CertificateText.antt`). Each part is a format
//! (`specs/Formats.antt`, `specs/PartFormats.antt`): values with texts, so that no text begins with those of two
//! values. What is asked of the parts of a block, as that they may be written or are of a signature, is a condition on
//! each (`specs/EachPart.antt`).
//!
//! [`Lines`] goes through a text line by line, and counts its lines from 1.
//! [`read_matrix`], [`read_exact`] and [`read_outside`] answer the part with whose text the lines begin, else the faulty
//! line: the first that no such part with the same lines before it has there, whatever were to follow
//! (`specs/FaultyLine.antt`, `specs/Reading.antt`); after an error the lines are as they were. [`print_matrix`],
//! [`print_exact`] and [`print_outside`] write the text of a part. The readers and printers of [`line`], [`count`],
//! [`row`], [`sizes`], [`matrix`], [`parts`] and [`print_block`] are for callers who read and write larger texts; after
//! an error of a reader the lines may stand anywhere.
//!
//! Sizes and counts are any numbers below 2^63, and a text with too few lines is refused behind its last. Not
//! proved, but how the readers are built: they go through the lines once, and store rows, pairs and steps one by one as
//! they are read, so that a size or a count takes no memory by itself.
//!
//! The crate stands on `ore_text` for operators and lines of rows, on `ore_rows` for matrices and on `itoa`
//! for numbers.
#![tactic(auto)]

pub mod block;
pub mod count;
pub mod fault;
pub mod line;
pub mod lines;
pub mod matrix;
mod pairs;
pub mod parts;
pub mod print_block;
pub mod print_part;
pub mod row;
pub mod sizes;
mod step_lines;

pub use block::{ExactBlock, Link, Links, OutsideBlock, PairEntry, Pairs};
pub use fault::CertFault;
pub use lines::Lines;
pub use matrix::{append_matrix, read_matrix};
pub use parts::{read_exact, read_outside};
pub use print_block::{append_exact, append_outside, append_row_part};
pub use print_part::{print_exact, print_matrix, print_outside};
