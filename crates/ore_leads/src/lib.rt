//! Leads of the rows of a basis, and the first that divides a term.
//!
//! A lead is a monomial in a column. [`Leads`] keeps those of a basis in the order of its rows, and
//! [`Leads::first_divisor`] finds the least index whose lead divides a given term: it stands in the column of
//! the term, and none of its exponents is greater. Reduction asks this at each of its steps, and always takes
//! the least index, so that it has one result. [`divisor_mask`] tells of eight monomials beside each other
//! which ones divide another.
//!
//! Contracts see a [`Leads`] as the list of its terms (`specs/FirstDivisor.antt`). Only [`Leads::push`] takes
//! memory, and where there is none it changes nothing.
//!
//! The crate stands on `ore_monomial` for monomials and terms.
#![tactic(auto)]

pub mod leads;
pub mod mask;

pub use leads::Leads;
pub use mask::divisor_mask;
