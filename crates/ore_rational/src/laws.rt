//! Laws of fractions of any size, as contracts.

ghost use Rattle.std.specs.Prelude.{◌≡◌, ℤ, pos, ◌+ℤ◌, ◌*ℤ◌, neg_ℤ};
ghost use Rattle.std.specs.declared.result.Result.TheVariants.{Ok};
ghost use Rattle.ore_algebra.specs.Laws.{IsField};
ghost use Rattle.ore_algebra.specs.Limits.{Limits, unlimited};
ghost use Rattle.ore_rational.specs.Fraction.{Fraction, whole, neg, add, mul, inverse};
ghost use Rattle.ore_rational.specs.Within.{sum_within, product_within};

/// The laws of a field, with 0, 1 and the opposite, sum, product and inverse of fractions.
pub fn fractions_are_a_field()
    ensures { IsField Fraction (whole (pos 0)) (whole (pos 1)) neg add mul inverse }
{}

/// Whole numbers are told apart as fractions, and have their sums, opposites and products there.
pub fn whole_numbers_are_fractions()
    ensures sums { (a b : ℤ) → whole (a +ℤ b) ≡ add (whole a) (whole b) }
    ensures opposites { (a : ℤ) → whole (neg_ℤ a) ≡ neg (whole a) }
    ensures products { (a b : ℤ) → whole (a *ℤ b) ≡ mul (whole a) (whole b) }
    ensures apart { (a b : ℤ) → whole a ≡ whole b → a ≡ b }
{}

/// Limits stop an operation or leave its value as it is; without limits nothing stops.
pub fn limits_change_no_value()
    ensures sums { (l : Limits) (p q r : Fraction) → sum_within l p q ≡ Ok r → r ≡ add p q }
    ensures products { (l : Limits) (p q r : Fraction) → product_within l p q ≡ Ok r → r ≡ mul p q }
    ensures all_sums { (p q : Fraction) → sum_within unlimited p q ≡ Ok (add p q) }
    ensures all_products { (p q : Fraction) → product_within unlimited p q ≡ Ok (mul p q) }
{}
