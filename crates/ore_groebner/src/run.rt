//! A run from its first basis to its end.

ghost use Rattle.std.specs.Prelude.{◌≡◌, ◌≢◌, ◌∷◌, ◌++◌, [], IfOk, IfErr};
ghost use Rattle.std.specs.List.{All};
ghost use Rattle.ore_algebra.specs.Limits.{program};
ghost use Rattle.ore_ring.specs.Belongs.{AllBelong};
ghost use Rattle.ore_rows.specs.Reduction.{leads_of};
ghost use Rattle.ore_rows.specs.Stored.{rows_of};
ghost use Rattle.ore_rows.specs.StoredBasis.{HaveLeads};
ghost use Rattle.ore_pairs.specs.PairRule.{HaveSamePairs, AreAllListed};
ghost use Rattle.ore_pairs.specs.Runner.{run_within};
ghost use Rattle.ore_groebner.specs.Choosing.{present, chosen_pairs, AreWithinBudget};
ghost use Rattle.ore_groebner.specs.Courses.{last_of, FollowsTo, HaltsIn};
ghost use Rattle.ore_groebner.specs.Following.{earlier, given_with, IsNext, IsNextAllowed, IsChooserRefusal, IsRefusalAllowed, IsLed};
ghost use Rattle.ore_groebner.specs.Honest.{RuleAllowsEach, IsHonestRun, IsHalted, MayBeSpent};
ghost use Rattle.ore_groebner.specs.BasisLeads.{basis_leads, BeginsWithLeads};
ghost use Rattle.ore_groebner.specs.declared.outcome.Halt.TheVariants.{Spent};

use crate::chooser::{Chooser, Next};
use crate::entries::from_matrix;
use crate::finish::finished;
use crate::first::begin;
use crate::following::follow;
use crate::halting::halt_at;
use crate::outcome::{Finished, Halt, StopAt};
use crate::progress::Progress;
use ore_ring::OreRing;
use ore_rows::{Choice, Matrix};
use std::alloc::Global;

/// A run on the rows of the matrix, by the choices of the chooser.
///
/// # Errors
/// The first operation that stops, and where; that the budget of the chooser is spent; that its next kept choice is
/// absent or not lawful; and want of memory.
pub fn run<R: OreRing, C: Chooser>(
    ring: &R,
    alloc: Global,
    a: &Matrix,
    chooser: &mut C,
) -> Result<Finished, Halt>
    requires { All (AllBelong (R.sig ring.now)) a.now.rows }
    ensures honest { IfOk result (IsHonestRun (R.sig ring.now) a.now (present (C.given chooser.new))) }
    ensures answered { IfOk result (λ f. FollowsTo (R.sig ring.now) C.allows C.allows_spent (run_within program (R.sig ring.now) (rows_of a.now)) (C.given chooser.old) (C.given chooser.new) (last_of f)) }
    ensures halts { IfErr result (HaltsIn (R.sig ring.now) C.allows C.allows_spent (run_within program (R.sig ring.now) (rows_of a.now)) (C.given chooser.old) (C.given chooser.new) (C.settings chooser.new)) }
    ensures within_budget { AreWithinBudget (C.given chooser.old) (C.settings chooser.old).budget → AreWithinBudget (C.given chooser.new) (C.settings chooser.new).budget }
    ensures settings { C.settings chooser.new ≡ C.settings chooser.old }
{
    let started = match begin(ring, alloc, a) {
        Ok(progress) => progress,
        Err(stop) => return Err(halt_at(stop, StopAt::Forced)),
    };
    let Ok(()) = chooser.start_run() else {
        return Err(Halt::Memory);
    };
    let progress = complete(ring, alloc, a, chooser, started)?;
    let _rows = a.rows();
    let rows = progress.basis.len();
    let Ok(from) = from_matrix(alloc, ring.signature(), a, rows) else {
        return Err(Halt::Memory);
    };
    Ok(finished(progress, from))
}

// The chooser is asked until nothing is left. The matrix is there for the clauses alone.
fn complete<R: OreRing, C: Chooser>(
    ring: &R,
    alloc: Global,
    a: &Matrix,
    chooser: &mut C,
    started: Progress,
) -> Result<Progress, Halt>
    requires begun { C.given chooser.old ≢ [] }
    requires led { IsLed (R.sig ring.now) a.now C.allows (present (C.given chooser.old)) started }
    requires grown { BeginsWithLeads (C.shown chooser.old) started.basis }
    ensures led { IfOk result (IsLed (R.sig ring.now) a.now C.allows (present (C.given chooser.new))) }
    ensures listed { IfOk result (λ p. AreAllListed (leads_of p.basis.items) p.listed) }
    ensures begun { C.given chooser.new ≢ [] }
    ensures earlier { earlier (C.given chooser.new) ≡ earlier (C.given chooser.old) }
    ensures halted { IfErr result (IsHalted (R.sig ring.now) a.now (C.given chooser.new) (C.settings chooser.new)) }
    ensures allowed { RuleAllowsEach (R.sig ring.now) a.now C.allows (present (C.given chooser.new)) }
    ensures spent_allowed { IfErr result (λ halt. halt ≡ Spent → MayBeSpent (R.sig ring.now) a.now C.allows_spent (present (C.given chooser.new))) }
    ensures within_budget { AreWithinBudget (C.given chooser.old) (C.settings chooser.old).budget → AreWithinBudget (C.given chooser.new) (C.settings chooser.new).budget }
    ensures settings { C.settings chooser.new ≡ C.settings chooser.old }
{
    let _ = a;
    let mut progress = started;
    while let Some(choice) = chosen(chooser, &progress)? {
        progress = follow(ring, alloc, progress, choice)?;
        let _cols = progress.basis.cols();
    }
    Ok(progress)
}

// The next choice; none where each pair is dealt with.
fn chosen<C: Chooser>(chooser: &mut C, progress: &Progress) -> Result<Option<Choice>, Halt>
    requires begun { C.given chooser.old ≢ [] }
    requires lists { HaveSamePairs progress.now.listed (chosen_pairs (present (C.given chooser.old))) }
    requires grown { BeginsWithLeads (C.shown chooser.old) progress.now.basis }
    ensures next { IfOk result (IsNext (leads_of progress.now.basis.items) progress.now.listed (C.given chooser.old) (C.settings chooser.old).budget) }
    ensures allowed { IfOk result (IsNextAllowed C.allows (basis_leads progress.now.basis) (chosen_pairs (present (C.given chooser.old)))) }
    ensures given { IfOk result (λ o. C.given chooser.new ≡ given_with (C.given chooser.old) o) }
    ensures shown { IfOk result (λ _. C.shown chooser.new ≡ basis_leads progress.now.basis) }
    ensures same { IfErr result (λ _. C.given chooser.new ≡ C.given chooser.old) }
    ensures refusal { IfErr result (IsChooserRefusal (leads_of progress.now.basis.items) progress.now.listed (C.given chooser.old) (C.settings chooser.old)) }
    ensures refusal_allowed { IfErr result (IsRefusalAllowed C.allows_spent (basis_leads progress.now.basis) (chosen_pairs (present (C.given chooser.old)))) }
    ensures settings { C.settings chooser.new ≡ C.settings chooser.old }
    ensures leads { HaveLeads progress.now.basis.items }
{
    let _cols = progress.basis.cols();
    let Ok(next) = chooser.next(&progress.basis, &progress.listed) else {
        return Err(Halt::Memory);
    };
    match next {
        Next::Choose(choice) => Ok(Some(choice)),
        Next::Complete => Ok(None),
        Next::Spent => Err(Halt::Spent),
        Next::NoLawful => Err(Halt::NoLawful),
    }
}
