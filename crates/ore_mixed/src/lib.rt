//! The ring of operators of any signature.
//!
//! A `MixedRing` holds a signature in which all kinds of variables may be declared beside one another:
//! coordinates, constants, operators that commute, differential operators, shifts and delays. Its sums,
//! differences, products and adjoints are those of `ore_ring`, made from the product of two monomials
//! that `ore_commute` gives in closed form: no letter is passed over a coordinate one step at a time.
//!
//! What is promised is the one meaning of the trait `OreRing`, for which the signature alone decides. So
//! where a signature also has a ring with a simpler body, because it declares no shift and no delay, or
//! no operator that acts at all, both rings give the same answers and stop for the same causes.
//!
//! Contracts see the ring as its signature. There is a ring for every signature, and to make one takes no
//! memory.
//!
//! The crate stands on `ore_commute` (products of monomials), `ore_ring` (operators and what is made of a
//! way to multiply monomials), `ore_monomial` (signatures) and, for the definitions that its contracts
//! cite, `ore_rational` and `ore_algebra`.
#![tactic(auto)]

ghost use Rattle.std.specs.Prelude.{◌≡◌};

use ore_monomial::{Exps, RingStop, Signature};
use ore_ring::MonomialProduct;
use std::alloc::Global;
use std::marker::Model;

/// The ring of the operators of a signature that may declare every kind of variable.
#[derive(Drop)]
pub struct MixedRing {
    signature: Signature,
}

impl Model for MixedRing {
    ghost use Rattle.ore_monomial.specs.Signature.{Signature as Lawful};
    ghost use Rattle.ore_monomial.specs.SignatureCode.{signature_code};

    ghost Value = { Lawful };

    ghost coded = { signature_code };

    ghost view = { λ a. a.signature };
}

impl MixedRing {
    /// The ring of a signature.
    pub fn new(sig: Signature) -> MixedRing
        ensures { result ≡ sig }
    {
        MixedRing { signature: sig }
    }
}

impl MonomialProduct for MixedRing {
    ghost sig = { λ r. r };

    fn signature(&self) -> &Signature {
        &self.signature
    }

    fn pass(
        &self,
        alloc: Global,
        left: &Exps,
        right: &Exps,
    ) -> Result<Vec<(Exps, i128)>, RingStop> {
        ore_commute::pass(alloc, &self.signature, left, right)
    }
}
