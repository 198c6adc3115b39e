//! How the variables of a monomial are passed where nothing shifts.

ghost use Rattle.std.specs.Prelude.{◌<◌};
ghost use Rattle.ore_weyl.specs.Shifts.{HasNoShift};

use crate::axis::Axis;
use ore_commute::coordinates::VariablePass;
use ore_commute::terms::Term;
use ore_commute::variables::differential_of;
use ore_monomial::{Exps, RingStop, Signature};
use std::alloc::Global;

/// Passes the variables of a signature without shifts and delays.
pub struct Unshifted;

impl VariablePass for Unshifted {
    ghost serves = { λ _ s. HasNoShift s };

    fn pass_next(
        &self,
        alloc: Global,
        signature: &Signature,
        left: &Exps,
        right: &Exps,
        variable: usize,
        terms: Vec<Term>,
    ) -> Result<Vec<Term>, RingStop> {
        match differential_of(signature, variable) {
            Some(operator) => {
                if left.get(operator) == 0 {
                    return Ok(terms);
                }
                if right.get(variable) == 0 {
                    return Ok(terms);
                }
                Axis::new(left, right, variable, operator).pass(alloc, terms.as_slice())
            }
            None => Ok(terms),
        }
    }
}
