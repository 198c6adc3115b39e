//! The ring of operators of a signature without shifts and delays: the Weyl algebra of its
//! coordinates and their differential operators, with letters beside them that commute.
//!
//! A `WeylRing` is made from a signature, and there is one exactly where no variable is a shift or a
//! delay. It is an `OreRing`, so each of its operations gives what the trait says for that
//! signature, and what any other ring of that signature gives. Sums, differences, products and
//! adjoints come from `ore_ring`; what stands here is the product of two monomials.
//!
//! That product has a body of its own, which uses that nothing shifts. For each coordinate `t` with
//! a differential operator `d` it takes two numbers: `a`, the exponent of `t` in the right monomial,
//! and `c`, the exponent of `d` in the left one. Passing `d^c` over `t^a` makes one term for each `k`
//! up to `min(a, c)`. It lowers `t` and `d` by `k`, and its number is `C(c,k) a!/(a-k)!`. For several
//! coordinates the numbers are multiplied, since differential operators of different coordinates
//! don't meet. There is no power of a step, and no second lowering, so a product of two monomials
//! with one coordinate has at most `min(a, c) + 1` terms.
//!
//! The whole numbers are those of the letter rule, each monomial once, the greatest first. A product
//! of two monomials is refused exactly where one of its whole numbers is beyond `2^127 - 1`: no number
//! that is tested on the way is larger than the whole number for which it is formed, since no factor
//! of that is zero. Want of memory is the one answer beside this. Degrees that are too great are
//! found before, by `ore_ring`.
//!
//! The definitions and lemmas on the closed form of a product come from `ore_commute`, whose closed
//! form is the one above where the sum of the steps is zero (`proofs/Unshifted.antt`), and so do the
//! walk over the variables, the lowering of terms, and the products and binomial numbers of whole
//! numbers in range. The crate stands further on `ore_ring` (operators, products over a way to
//! multiply two monomials), `ore_monomial` (monomials, signatures, the letter rule), `ore_rational`
//! and `ore_algebra`.
#![tactic(auto)]

mod axis;
mod monomials;
mod number;
mod ring;
mod variables;

pub use ring::WeylRing;
