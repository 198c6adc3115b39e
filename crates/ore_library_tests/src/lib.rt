//! Tests of calls of the library that no command shows alone.
//!
//! `rows` multiplies rows and matrices, `division` reduces a row, and `pairs` has the calls of `ore_pairs`, each over a
//! ring that has all kinds of letters; what they give is worked out by hand. `operators` has the calls of
//! operators of one term. `texts`, `bases` and `names` make the rows, bases and names for the others. What the commands show
//! stands in `examples/`, where the built program answers it.
//!
//! The crate has nothing but tests, and promises nothing. It stands on `ore_agree` for signatures and operators, on
//! `ore_division`, `ore_pairs` and `ore_groebner` for what it tests, on `ore_mixed`, `ore_rows` and `ore_leads`, on
//! `ore_expr` and `ore_text` for texts, and on `ore_ring`, `ore_monomial`, `ore_rational` and `ore_algebra` below them.
#![tactic(auto)]

#[cfg(test)]
mod bases;
#[cfg(test)]
mod division;
#[cfg(test)]
mod names;
#[cfg(test)]
mod operators;
#[cfg(test)]
mod pairs;
#[cfg(test)]
mod rows;
#[cfg(test)]
mod texts;
