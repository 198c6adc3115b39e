//! The checker of certificates.
//!
//! A certificate is checked place by place: each place has conditions, in the order in which its operations are formed.
//! The first place whose condition fails, or of which an operation stops, decides, and its line in the text is answered.
//! What each kind of certificate asks stands in `specs/Check.antt`, what its blocks ask in
//! `ore_blocks/specs/CheckBlock.antt`, and which line a place has in `specs/Layout.antt`, alone.
//!
//! [`check`] answers just that for a whole certificate of any kind but a report, which claims nothing of a matrix, and
//! [`check_exact`] and [`check_outside`] for a block. Where a block is valid their clauses say what it shows. The laws of
//! [`laws`] say what follows for whole certificates, over numbers of any size: a valid certificate is true by its meaning
//! (`specs/Meaning.antt`), which speaks of rows alone. They also say which certificates are valid (`specs/Valid.antt`,
//! `specs/ValidLaws.antt`): without limits just those that pass, of all kinds but reports; and within limits no condition
//! of a valid one fails, but an operation may stop.
//!
//! Inside, each function answers a value or a refusal, which names its place (`ore_blocks/specs/Judging.antt`). Lines
//! are counted in 128 bits, those behind a link up to 2^65, and the answer has 2^64 - 1 for any line past that number.
//! The functions ask that all operators that they are handed are of the signature of the ring.
//!
//! [`certify`] forms the identities of a certificate that a search found.
//!
//! `specs/Plans.antt` has the plans of the commands: what each does with the matrix of a problem, in order, as a course
//! of forced work and runs (`ore_course`) that ends with forming the identities of its certificate. `specs/Reports.antt`
//! says which answers a plan forms, and when the report of a stopped plan is honest. The laws say that each certificate
//! that a plan forms is true and one that the check accepts (`specs/PlanLaws.antt`), that it may be written
//! (`specs/Written.antt`), and that some budget is enough for each plan (`specs/PlanBudgets.antt`).
//!
//! The crate stands on `ore_cert` for certificates, on `ore_blocks` for the check of blocks and for refusals, on
//! `ore_adjoint` for transposed adjoints, on `ore_groebner` for what runs show, and on `ore_rows` and below for
//! arithmetic.
#![tactic(auto)]

pub mod answer;
pub mod certificate;
mod extensions;
mod formed;
pub mod identities;
pub mod laws;
mod layout;
mod link_lines;
pub mod links;

pub use answer::Checked;
pub use certificate::{check, check_exact, check_outside};
pub use identities::certify;
pub use ore_blocks::Reason;
