//! The laws of runs, as contracts.
//!
//! The functions here have no answer and do nothing. `specs/RunLaws.antt` has the statements, over the fractions and
//! for the order of the signature that is handed in.

ghost use Rattle.ore_groebner.specs.BlockLaws.{CompleteIsValid, KernelIsValid, RestIsOutside};
ghost use Rattle.ore_groebner.specs.RunLaws.{CompleteIsExact, ExactExtends, OnlyUnlawful, RunKeeps, RunsEnd, WithinIsExact};

use ore_monomial::Signature;

/// What a run gives within limits it gives without, and without limits nothing but an unlawful choice ends it.
pub fn law_run_within(sig: &Signature)
    ensures within { WithinIsExact sig.now }
    ensures unlawful { OnlyUnlawful sig.now }
{}

/// Each run ends, however it is chosen, and without limits it goes as far and further.
pub fn law_run_ends(sig: &Signature)
    ensures ends { RunsEnd sig.now }
    ensures extends { ExactExtends sig.now }
{}

/// Each state of a run keeps the matrix that it began with, and each pair that it lists was dealt with lawfully.
pub fn law_run_keeps(sig: &Signature)
    ensures { RunKeeps sig.now }
{}

/// The syzygies of a complete run generate all rows of the signature that take the matrix to zeros.
pub fn law_run_exact(sig: &Signature)
    ensures { CompleteIsExact sig.now }
{}

/// A complete run makes a valid exact block, by rows that times a matrix are its syzygies; and a valid outside block for
/// each row of which a reduction by its basis leaves something.
pub fn law_run_blocks(sig: &Signature)
    ensures exact { CompleteIsValid sig.now }
    ensures kernel { KernelIsValid sig.now }
    ensures outside { RestIsOutside sig.now }
{}
