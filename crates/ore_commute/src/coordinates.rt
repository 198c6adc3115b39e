//! The product of two ordered monomials.

ghost use Rattle.std.specs.Prelude.{◌≡◌, ◌+◌, ◌<◌, ◌≤◌, [], true, length};
ghost use Rattle.std.specs.List.Sorted.{IsPermutation, IsSortedBy};
ghost use Rattle.std.specs.Ordering.{is_lt, flip_args};
ghost use Rattle.ore_algebra.specs.Limits.{program};
ghost use Rattle.ore_algebra.proofs.Integers.{integers};
ghost use Rattle.ore_monomial.specs.Gives.{Gives};
ghost use Rattle.ore_monomial.specs.Monomial.{degree, product, order_cmp};
ghost use Rattle.ore_monomial.specs.Signature.{Signature as Lawful};
ghost use Rattle.ore_commute.specs.ClosedForm.{axes_below, passed as passed_of, closed_form};
ghost use Rattle.ore_commute.specs.Product.{checked, pass_within};
ghost use Rattle.ore_monomial.specs.Numbers.{are_within};

use crate::axis::Axis;
use crate::terms::Term;
use ore_monomial::{Exps, Order, RingStop, Signature, VarKind, compare};
use std::alloc::Global;

/// A way to pass the variables of a right monomial, one after another.
pub trait VariablePass {
    /// The signatures whose variables it passes.
    ghost serves: { Self → Lawful → Type 0 };

    /// What the terms become where one more variable is passed.
    ///
    /// # Errors
    /// `Overflow` where a whole number has magnitude above `2^127 - 1`, or want of memory.
    fn pass_next(
        &self,
        alloc: Global,
        signature: &Signature,
        left: &Exps,
        right: &Exps,
        variable: usize,
        terms: Vec<Term>,
    ) -> Result<Vec<Term>, RingStop>
        requires serves { serves self.now signature.now }
        requires declared { variable < length signature.now.kinds }
        requires small { degree left.now + degree right.now ≤ 32767 }
        requires before { terms.items ≡ passed_of integers signature.now (axes_below signature.now variable) left.now right.now }
        requires within { are_within program terms.items ≡ true }
        ensures { let axes = axes_below signature.now (variable + 1) in
            Gives (λ v. v.items) result (checked [] (passed_of integers signature.now axes left.now right.now)) };
}

// The terms of the product, in the order in which coordinates are passed.
fn passed<P: VariablePass>(
    way: &P,
    alloc: Global,
    signature: &Signature,
    left: &Exps,
    right: &Exps,
    whole: Exps,
) -> Result<Vec<Term>, RingStop>
    requires serves { P.serves way.now signature.now }
    requires small { degree left.now + degree right.now ≤ 32767 }
    requires whole_is { whole ≡ product left.now right.now }
    ensures { Gives (λ v. v.items) result (checked [] (closed_form integers signature.now left.now right.now)) }
{
    let mut terms = Vec::new(alloc);
    terms.push((whole, 1))?;
    for variable in 0..signature.count() {
        terms = way.pass_next(alloc, signature, left, right, variable, terms)?;
    }
    Ok(terms)
}

/// Sorts terms so that the greatest comes first.
pub fn sort_falling(order: Order, terms: &mut Vec<Term>)
    ensures same { IsPermutation terms.old.items terms.new.items }
    ensures falls { IsSortedBy (λ t u. is_lt (flip_args (order_cmp order) t.0 u.0)) terms.new.items }
{
    terms.sort_unstable_by(|a, b| compare(order, &b.0, &a.0));
}

/// The product of two ordered monomials by a way to pass its variables: its monomials with their
/// whole numbers, the greatest first in the order of the signature.
///
/// # Errors
/// `Degree` where the degrees sum to more than 32,767; else `Overflow` where a whole number has
/// magnitude above `2^127 - 1`.
pub fn pass_by<P: VariablePass>(
    way: &P,
    alloc: Global,
    signature: &Signature,
    left: &Exps,
    right: &Exps,
) -> Result<Vec<(Exps, i128)>, RingStop>
    requires serves { P.serves way.now signature.now }
    ensures { Gives (λ v. v.items) result (pass_within program signature.now left.now right.now) }
{
    let whole = left.plus(right)?;
    let mut terms = passed(way, alloc, signature, left, right, whole)?;
    sort_falling(signature.order(), &mut terms);
    Ok(terms)
}

// Passes variables of all kinds.
struct AnyVariable;

impl VariablePass for AnyVariable {
    ghost serves = { λ _ _. Unit {0} };

    fn pass_next(
        &self,
        alloc: Global,
        signature: &Signature,
        left: &Exps,
        right: &Exps,
        variable: usize,
        terms: Vec<Term>,
    ) -> Result<Vec<Term>, RingStop> {
        match signature.kind(variable) {
            VarKind::Coordinate => {
                if right.get(variable) == 0 {
                    return Ok(terms);
                }
                Axis::new(signature, left, right, variable).pass(alloc, terms.as_slice())
            }
            _ => Ok(terms),
        }
    }
}

/// The product of two ordered monomials: its monomials with their whole numbers, the greatest
/// first in the order of the signature.
///
/// # Errors
/// `Degree` where the degrees sum to more than 32,767; else `Overflow` where a whole number has
/// magnitude above `2^127 - 1`.
pub fn pass(
    alloc: Global,
    signature: &Signature,
    left: &Exps,
    right: &Exps,
) -> Result<Vec<(Exps, i128)>, RingStop>
    ensures { Gives (λ v. v.items) result (pass_within program signature.now left.now right.now) }
{
    pass_by(&AnyVariable, alloc, signature, left, right)
}
