//! What the closed form is.

ghost use Rattle.std.specs.Prelude.{◌≡◌, pos, map};
ghost use Rattle.ore_algebra.specs.Free.{single, collect};
ghost use Rattle.ore_algebra.proofs.Integers.{integers};
ghost use Rattle.ore_algebra.proofs.Solve.{AreDistinct};
ghost use Rattle.ore_monomial.specs.Monomial.{Monomial, plain_cmp};
ghost use Rattle.ore_monomial.specs.LetterRule.{monomial_times};
ghost use Rattle.ore_monomial.specs.Signature.{Signature};
ghost use Rattle.ore_commute.specs.ClosedForm.{closed_form};

/// The closed form of a product of two ordered monomials is the letter rule: its terms make the
/// product, and no two of them have one monomial.
pub fn closed_form_is_letter_rule()
    ensures product { (s : Signature) (m n : Monomial) → monomial_times integers s m (single integers plain_cmp n (pos 1)) ≡ collect integers plain_cmp (closed_form integers s m n) }
    ensures apart { (s : Signature) (m n : Monomial) → AreDistinct (map (λ t. t.0) (closed_form integers s m n)) }
{}
