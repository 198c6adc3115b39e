//! Operators: finite sums of fractions times ordered monomials, their sums, products and adjoints.
//!
//! An `Op` keeps its terms in a vector, the greatest first, by the order of monomials that it carries.
//! Contracts see it as a finite map from monomials to fractions that are not zero, beside that order
//! (`specs/Ordered.antt`), so equal operators are equal values.
//!
//! What an operation gives is a definition: the product is that of the letter rule, one letter applied
//! to one monomial at a time (`specs/Product.antt`), and the adjoint negates the coordinates and reverses
//! products (`specs/Adjoint.antt`). Beside each stands the same operation within limits
//! (`specs/Within.antt`, `specs/AdjointWithin.antt`), which says in which order its numbers are formed and
//! where it stops: with Degree where two monomials have degrees with too great a sum, with Overflow where
//! a number leaves the range of the fractions. Without limits it gives the exact value, and where it
//! doesn't stop it gives the exact value too (`law_value`). The calls meet these definitions
//! at the limits of the program: the value where there is one, else the cause. Want of memory is the one
//! answer beside them.
//!
//! A ring of operators is an `OreRing`: a signature and the operations, with one meaning for all of them.
//! Each way to multiply two monomials, a `MonomialProduct`, makes one: sums, products and adjoints stand
//! here once.
//!
//! The product of 1 and an operator is a copy of it (`proofs/OneTimes.antt`), and a product of fractions of which one is
//! 1 is the other. Without those, the contributions of a product are collected in one vector, in the order that the
//! definition says. Where they don't fall, a stable sort brings those of a monomial together, which keeps their order,
//! and then they are added in turn (`sum_of_terms`). All sums stop for one cause, so this forms the same sums and
//! answers the same (`proofs/Rearranged.antt`, `proofs/Contributed.antt`). A [`Gather`] is a sum that stays open for more
//! terms: a sorted map, where a term costs a descent of a tree.
//!
//! Proved in `proofs/`: the product is associative and distributes (`Product`), the lead of a product is
//! the product of the leads (`Leads`), there are no zero divisors (`NoZeroDivisor`), the adjoint reverses
//! products and is its own inverse (`Adjoints`), exponents of products stay bounded (`Support`).
//!
//! The crate stands on `ore_rational` (fractions), `ore_monomial` (monomials, orders, signatures, the
//! letter rule) and `ore_algebra` (finite sums, limits).
#![tactic(auto)]

mod fraction;
pub mod gather;
mod laws;
mod meet;
mod merge;
pub mod multiply;
pub mod op;
mod place;
pub mod reverse;
pub mod ring;
pub mod sort;
pub mod sum;

pub use gather::Gather;
pub use laws::law_value;
pub use multiply::{MonomialProduct, degrees_fit, times};
pub use op::{Op, lead};
pub use reverse::adjoint;
pub use ring::OreRing;
pub use sort::sum_of_terms;
pub use sum::{minus, plus};
