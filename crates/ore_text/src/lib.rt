//! Names of variables, and canonical texts of operators and rows.
//!
//! The canonical text of an operator is a function of the operator (`specs/CanonicalText.antt`), which
//! [`print_operator`] writes, [`append_operator`] writes behind other text, and [`read_canonical`] reads,
//! and nothing else. [`append_row`] and [`read_row`] do so with the line of a row (`specs/RowText.antt`). The
//! law function of [`laws`] says that no text is the canonical text of two operators.
//!
//! [`Names`] keeps the declared names in order; that each is of the form of a name, and that no two are the same, holds
//! of every value. An [`Algebra`] is a signature with a name for each of its variables, which readers and printers take.
//! [`append_line`] writes the line of a word and numbers. `specs/Lines.antt` and `specs/FaultyLine.antt` say what the
//! lines of a text are and which one is faulty, for the crates that read whole texts.
//!
//! The crate stands on `ore_ring` for operators, on `indexmap` for names and on `itoa` for numbers.
#![tactic(auto)]

pub mod algebra;
pub mod canonical;
pub mod laws;
pub mod names;
pub mod print;
pub mod row_text;

pub use algebra::Algebra;
pub use canonical::{is_name_byte, operator_in, read_canonical};
pub use names::Names;
pub use print::{append_line, append_number, append_operator, print_operator};
pub use row_text::{append_row, read_row};
