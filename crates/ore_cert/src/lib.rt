//! Certificates of all kinds, and their texts.
//!
//! A certificate is a text of lines, one spelling for each certificate (`specs/WholeText.antt`; its parts are those of
//! `ore_parts`). [`read_certificate`] answers the certificate exactly where the text is that of one, else the faulty
//! line, from 1: the first that no certificate with the same lines before it has there
//! (`ore_parts/specs/FaultyLine.antt`). [`print_certificate`] writes the text, and [`print_brief`] the claim of a
//! verdict alone. The law functions of [`laws`] say that what is printed is read as itself, that no text is that of two
//! certificates, and that a text has one faulty line at most.
//!
//! A certificate is the line of its kind, which begins with the word of the kind ([`Certificate::word`],
//! `specs/KindWords.antt`), and then the parts that the kind has, each a format (`specs/WholeFormats.antt`). What is
//! asked of its parts, as that they may be written or are of a signature, is a condition on each
//! (`specs/EachKind.antt`, `specs/CertificateOf.antt`).
//!
//! The number of links is from 1 to 12, and a text with too few lines is refused behind its last. Not proved, but how
//! the readers are built: they go through the lines once, and store links and choices one by one as they are read, so
//! that a count takes no memory by itself.
//!
//! The crate stands on `ore_parts` for the parts of a certificate, and passes on their types, readers and printers; on
//! `ore_text` for operators, on `ore_rows` for matrices and the choices of runs, and on `ore_course` for what a report is
//! to a course (`specs/CourseReport.antt`).
#![tactic(auto)]

mod bodies;
pub mod certificate;
mod kind;
pub mod laws;
mod line_words;
pub mod print_whole;
pub mod report;
mod report_lines;
pub mod storable;
pub mod whole;

pub use certificate::{Certificate, Side};
pub use kind::Kind;
pub use ore_parts::{
    CertFault, ExactBlock, Lines, Link, Links, OutsideBlock, PairEntry, Pairs, append_exact,
    append_matrix, append_outside, append_row_part, print_exact, print_matrix, print_outside,
    read_exact, read_matrix, read_outside,
};
pub use print_whole::{print_brief, print_certificate};
pub use report::{Cause, Plan, Report, Stop};
pub use storable::law_certificate_is_storable;
pub use whole::read_certificate;
