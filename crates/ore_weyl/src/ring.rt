//! The ring of a signature without shifts and delays.

ghost use Rattle.std.specs.Prelude.{SomeIff};
ghost use Rattle.ore_weyl.specs.Shifts.{HasNoShift};

use crate::monomials::Unshifted;
use crate::variables::has_no_shift;
use ore_commute::coordinates::pass_by;
use ore_monomial::{Exps, RingStop, Signature};
use ore_ring::MonomialProduct;
use std::alloc::Global;
use std::marker::Model;

/// The ring of the operators of a signature in which no variable is a shift or a delay.
#[derive(Drop)]
pub struct WeylRing {
    signature: Signature,
}

impl Model for WeylRing {
    ghost use Rattle.ore_monomial.specs.Signature.{Signature as Lawful};
    ghost use Rattle.ore_monomial.specs.SignatureCode.{signature_code};
    ghost use Rattle.ore_weyl.specs.Shifts.{HasNoShift};

    ghost Value = { Lawful };

    ghost coded = { signature_code };

    ghost view = { λ a. a.signature };

    ghost invariant = { λ a. HasNoShift a.signature };
}

impl WeylRing {
    /// The ring of this signature, where it has no shift and no delay.
    pub fn new(signature: Signature) -> Option<WeylRing>
        ensures { SomeIff result (HasNoShift signature) signature }
    {
        if has_no_shift(&signature) {
            Some(WeylRing { signature })
        } else {
            None
        }
    }
}

impl MonomialProduct for WeylRing {
    ghost sig = { λ r. r };

    fn signature(&self) -> &Signature {
        &self.signature
    }

    fn pass(
        &self,
        alloc: Global,
        left: &Exps,
        right: &Exps,
    ) -> Result<Vec<(Exps, i128)>, RingStop> {
        pass_by(&Unshifted, alloc, &self.signature, left, right)
    }
}
