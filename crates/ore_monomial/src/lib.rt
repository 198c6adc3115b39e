//! Monomials in up to twelve variables, the orders of monomials, and signatures.
//!
//! A [`Signature`] says what the variables of an algebra are: coordinates, constants, and operators
//! that commute, differentiate, shift or delay. It also names the order of the algebra's monomials.
//! [`Signature::new`] is the only way to make one. It accepts a list of kinds exactly where none of
//! them has a fault, and else answers the first fault, so whoever holds a signature knows that each
//! operator acts on a coordinate before it, that no coordinate has two differential operators, and
//! that the steps are from 1 to 1000.
//!
//! A monomial is one exponent for each variable, stored as [`Exps`]. Its degree is at most 32,767.
//! Products and least common multiples whose degree is greater are refused, and nothing else is.
//! Both orders are graded. [`compare`] decides them, and [`Exps::rank`] gives a key for a sorted
//! map. That they are total, well founded and kept by products, and what divisors and least common
//! multiples are, is proved of the definitions (`proofs/Orders`, `TermOrder`, `Divisors`).
//!
//! No call takes memory.
//!
//! [`RingStop`] says why an operation of the crates above stops without a value, and
//! `specs/Gives` what a contract says of such a call. `specs/LetterRule` has what one letter of a
//! signature makes of a monomial; the product of operators is defined by it.
//!
//! The crate stands on `ore_algebra` for domains and finite sums of terms, and on `arrayvec`.
#![tactic(auto)]

pub mod exps;
pub mod order;
pub mod signature;
pub mod stop;

pub use exps::{Exps, compare};
pub use order::Order;
pub use signature::{Signature, SignatureFault, VarKind};
pub use stop::{DegreePassed, NoMemory, RingStop};
