//! Tests of rings, which run each ring of operators on one table; signatures and operators for tests.
//!
//! The rings `CommutativeRing`, `WeylRing` and `MixedRing` have products of monomials of their own. Where
//! a signature has more than one of them, their contracts promise the same answers, and the tests here run
//! them on the same products: `products` has those of letters on two coordinates, and of several letters on
//! one, in both orders of monomials, worked out by hand. `polynomials` has one value for each call of a ring.
//! Products of powers of two letters stand in `examples/products.searches`, where the program answers them.
//!
//! `operators` is what the tests here and in `ore_library_tests` have in common: signatures of the same twelve
//! letters, and operators over them. It stands on `ore_ring`, `ore_monomial`, `ore_rational` and `ore_algebra`,
//! and the tests on the three rings too.
#![tactic(auto)]

pub mod operators;
#[cfg(test)]
mod polynomials;
#[cfg(test)]
mod products;
