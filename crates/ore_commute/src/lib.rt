//! Products of ordered monomials.
//!
//! In an ordered monomial each variable stands once, with its exponent, in the order in which the
//! variables are declared. Two of them multiplied give a sum of such monomials with whole numbers:
//! the operators of the left one pass the coordinates of the right one, a differential operator by
//! `d t = t d + 1`, a shift by `h` by `s t = t s + h s`, a delay by `h` by `D t = t D - h D`.
//!
//! `pass` doesn't apply these rules letter by letter. For each coordinate `t` it takes three
//! numbers: `a`, the exponent of `t` in the right monomial; `c`, the exponent of the differential
//! operator of `t` in the left one; and `H`, the sum of the steps of the left monomial's shifts of
//! `t`, each as often as it stands, less that of its delays. There is one term for each `k` up to
//! `min(a, c)` and each `j` up to `a - k`. It lowers `t` by `k + j` and the differential operator by
//! `k`, and its number is `C(c,k) a!/(a-k)! C(a-k,j) H^j`. For several coordinates the numbers are
//! multiplied. `specs/ClosedForm.antt` says this as a definition.
//!
//! What is promised of `pass` speaks of the letter rule alone (`specs/Product.antt`): it answers the
//! terms of the product that the letter rule gives, the greatest first, each monomial once, no
//! number zero. It refuses with `Degree` exactly where the degrees sum to more than 32,767, and with
//! `Overflow` exactly where that is not so and some whole number of the product is beyond
//! `2^127 - 1`. Want of memory is the one free answer. That the closed form is the letter rule is
//! proved in `proofs/`, over any commutative domain, and that its whole numbers, carried over by a
//! ring map, give the product over the other domain.
//!
//! Intermediate numbers never decide a refusal wrongly: a number that is zero is never formed, and
//! where no factor is zero each has magnitude at least 1, so that a partial product is no larger
//! than the whole one. A binomial number is built from the one before it, with the divisor taken
//! out before the multiplication.
//!
//! `pass_by` is that product by any way to pass the variables of a signature one after another
//! (`VariablePass`), so that a ring with a simpler way has the walk over variables and the sorting
//! from here; `terms` has terms and how one is lowered.
//!
//! It stands on `ore_monomial` (exponents, signatures, letter rule) and `ore_algebra` (domains,
//! sums of terms).
#![tactic(auto)]

mod axis;
pub mod coordinates;
mod laws;
pub mod number;
pub mod terms;
pub mod variables;

pub use coordinates::pass;
pub use laws::closed_form_is_letter_rule;
