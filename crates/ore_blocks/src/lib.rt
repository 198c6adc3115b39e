//! The check of the blocks of a certificate.
//!
//! A block is checked place by place: each place has conditions, which are identities of rows and comparisons of leads,
//! in the order in which its operations are formed. The first place whose condition fails, or of which an operation
//! stops, decides. What one place asks stands in `specs/PlaceConditions.antt`, what lists of places and blocks ask in
//! `specs/CheckBlock.antt`. A [`Place`] is a line of the certificate, named by what stands there; which line of a text
//! that is, a layout says (`ore_check`), and no condition.
//!
//! [`exact_block`] and [`outside_block`] answer just that: nothing where each place is right, else a [`Refusal`], which
//! names its place (`specs/Judging.antt`); a [`Reason`] has its word (`specs/ReasonWords.antt`). Blocks may have any
//! sizes, and all operators are of the signature of the ring. The conditions and operations of single places that a
//! certificate has outside its blocks are in [`equal`], [`formed`], [`products`] and [`refusal`].
//!
//! The laws of [`laws`] say that without limits a block passes exactly where it is valid (`specs/Valid.antt`), and that
//! within limits it gives what it gives without, or an operation stops (`specs/WithinLimits.antt`): no condition of a
//! valid block fails. As lemmas (`proofs/CheckedBlocks.antt`), over numbers of any size: an exact block without a refusal
//! shows that the rows which take a matrix to zeros are a row module, and an outside block that a row is not in one.
//!
//! A call that forms the value of several conditions goes through them in the order of the definition, so that the
//! refusal is the first. A function that checks one place has the name of its condition.
//!
//! Not proved, but how the check is built: it copies no row of a block, forms each row once, and counts the pairs of a
//! basis column by column in an ordered map.
//!
//! `specs/BlockOfRun.antt` has the blocks that a state of a run makes, and `specs/KernelCourse.antt` what the search for
//! a kernel does in order.
//!
//! The crate stands on `ore_parts` for blocks, on `ore_pairs` for runs, for the rule and the multiples of a pair and for
//! what valid blocks show, on `ore_adjoint` and `ore_course` for the search, and on `ore_rows` and below for arithmetic.
#![tactic(auto)]

pub mod block;
mod count;
pub mod equal;
pub mod formed;
mod inside;
pub mod laws;
pub mod monic;
mod pairs;
pub mod place;
pub mod products;
pub mod reason;
pub mod refusal;
mod steps;

pub use block::{exact_block, outside_block};
pub use place::{Name, Place, Section};
pub use reason::Reason;
pub use refusal::Refusal;
