//! The ring of operators of a signature in which all variables commute.
//!
//! Where no differential operator, no shift and no delay is declared, nothing passes over a coordinate:
//! the product of two monomials is the one monomial whose exponents are the sums of theirs. So the ring
//! is that of polynomials in the declared variables, and a `CommutativeRing` forms a product of monomials
//! by one addition of exponents, with no walk over coordinates and no binomial numbers. Sums, differences,
//! products and adjoints of operators are then those of `ore_ring` over that product of monomials.
//!
//! [`CommutativeRing::new`] answers a ring exactly where the signature commutes (`specs/Commutes.antt`),
//! and to make one takes no memory. What is promised of the operations is the one meaning of the trait
//! `OreRing`, which speaks of the letter rule of the signature and not of this body, so the answers and
//! the causes of stops are those of every other ring of the same signature.
//!
//! Contracts see the ring as its signature.
//!
//! The crate stands on `ore_ring` (operators and what is made of a way to multiply monomials),
//! `ore_monomial` (signatures, exponents) and, for the definitions that its contracts cite,
//! `ore_rational` and `ore_algebra`.
#![tactic(auto)]

ghost use Rattle.std.specs.Prelude.{◌≡◌, ◌↔◌, SomeIff, IsTrue};
ghost use Rattle.ore_monomial.specs.Signature.{is_acting};
ghost use Rattle.ore_commutative.specs.Commutes.{Commutes};

use ore_monomial::{Exps, RingStop, Signature, VarKind};
use ore_ring::MonomialProduct;
use std::alloc::Global;
use std::marker::Model;

/// The ring of the operators of a signature in which all variables commute.
#[derive(Drop)]
pub struct CommutativeRing {
    signature: Signature,
}

impl Model for CommutativeRing {
    ghost use Rattle.ore_monomial.specs.Signature.{Signature as Lawful};
    ghost use Rattle.ore_monomial.specs.SignatureCode.{signature_code};
    ghost use Rattle.ore_commutative.specs.Commutes.{Commutes};

    ghost Value = { Lawful };

    ghost coded = { signature_code };

    ghost view = { λ a. a.signature };

    ghost invariant = { λ a. Commutes a.signature };
}

impl CommutativeRing {
    /// The ring of a signature, where all its variables commute.
    pub fn new(sig: Signature) -> Option<CommutativeRing>
        ensures { SomeIff result (Commutes sig) sig }
    {
        if commutes(&sig) {
            Some(CommutativeRing { signature: sig })
        } else {
            None
        }
    }
}

// Whether no variable acts on a coordinate.
fn commutes(signature: &Signature) -> bool
    ensures { IsTrue result ↔ Commutes signature.now }
{
    for x in 0..signature.count() {
        if acts(signature.kind(x)) {
            return false;
        }
    }
    true
}

// Whether a variable of this kind acts on a coordinate.
fn acts(kind: VarKind) -> bool
    ensures { result ≡ is_acting kind }
{
    matches!(
        kind,
        VarKind::Differential { on: _ }
            | VarKind::Shift { on: _, step: _ }
            | VarKind::Delay { on: _, step: _ }
    )
}

impl MonomialProduct for CommutativeRing {
    ghost sig = { λ r. r };

    fn signature(&self) -> &Signature {
        &self.signature
    }

    // One term with the sums of the exponents.
    fn pass(
        &self,
        alloc: Global,
        left: &Exps,
        right: &Exps,
    ) -> Result<Vec<(Exps, i128)>, RingStop> {
        // The ring has this signature only where all variables commute.
        let _ = &self.signature;
        let Ok(product) = left.plus(right) else {
            return Err(RingStop::Degree)
        };
        let mut terms = Vec::with_capacity(alloc, 1)?;
        terms.push((product, 1))?;
        Ok(terms)
    }
}
