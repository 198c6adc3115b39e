//! Rings, and what is proved once for all of them. This crate has no code: it is the algebra on which the
//! definitions and proofs of the crates above stand.
//!
//! Definitions (`specs/`):
//!
//! - `Ring` and `Module` carry a type, its operations and their laws; a ring's product need not commute.
//! - `Domain` is a commutative ring whose elements are told apart and in which no product of nonzero elements
//!   is zero. `HasInverses` makes it a field. Definitions about operators take their coefficients from
//!   any domain; the whole numbers are one (`proofs/Integers.antt`), the fractions of `ore_rational` another.
//! - `Free` is the module of finite sums of terms over a domain: a map from ordered keys to nonzero
//!   coefficients. Two sums are equal where their coefficients are, and every list of terms has a sum.
//! - `Limits` are the greatest magnitude and the greatest degree that an arithmetic allows, and `Cause` is
//!   why an operation stops. Operations on exact numbers are defined under limits that are a parameter:
//!   those of the program, or none.
//! - `Laws` says the laws of rings and fields as statements that a contract can name.
//! - `Results` says how to go on with a value or a refusal, and what a call gives of what a definition gives.
//!
//! Proofs (`proofs/`):
//!
//! - A normaliser for identities of rings and modules. An expression is brought to a normal form that is
//!   computed, and two expressions with one normal form have one value. `search shapes` finds the
//!   expressions of a goal, so an identity is one line: `Examples.antt` shows each use.
//! - The laws of finite sums: two sums are equal where every functional agrees, and linear maps are told by
//!   what they do to single keys.
//! - More unknowns than equations over a domain with inverses have a nonzero solution (`Solve.antt`).
//!
//! Nothing here depends on the sizes of numbers in code.
#![tactic(auto)]
