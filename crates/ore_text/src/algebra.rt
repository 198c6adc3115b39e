//! A signature with names for its variables.

ghost use Rattle.std.specs.Prelude.{◌≡◌, length};
ghost use Rattle.ore_text.specs.Names.{AreNames};
ghost use Rattle.ore_text.specs.OneProof.{AreNames_prop};

use crate::names::Names;
use ore_monomial::Signature;

/// A signature, and a name for each of its variables: what a text of operators is read and printed by.
#[derive(Clone, Copy, Drop)]
pub struct Algebra<'a> {
    /// What the variables are, and the order of monomials.
    pub signature: &'a Signature,
    /// The names of the variables, in the order of declaration.
    pub names: &'a Names,
    pub ghost form: { AreNames names.now } by { AreNames_prop names.now },
    pub ghost count: { length names.now ≡ length signature.now.kinds },
}

impl<'a> Algebra<'a> {
    /// These two as one. There is a name for each variable.
    pub fn new(signature: &'a Signature, names: &'a Names) -> Algebra<'a>
        requires { length names.now ≡ length signature.now.kinds }
        ensures signature { result.signature.now ≡ signature.now }
        ensures names { result.names.now ≡ names.now }
    {
        names.names_fit();
        Algebra { signature, names }
    }
}
