//! What a choice makes of a run.

ghost use Rattle.std.specs.Prelude.{◌≡◌, true, IfOk, IfErr};
ghost use Rattle.ore_rows.specs.Reduction.{leads_of};
ghost use Rattle.ore_pairs.specs.PairRule.{is_lawful};
ghost use Rattle.ore_groebner.specs.Following.{IsFollowed, IsStopOf};
ghost use Rattle.ore_groebner.specs.RunProgress.{run_state, IsProgressOf};
ghost use Rattle.ore_rows.specs.declared.choices.Choice.TheVariants as choices;

use crate::halting::halt_at;
use crate::outcome::{Halt, StopAt};
use crate::progress::{Progress, skip, treat};
use ore_monomial::{NoMemory, Signature};
use ore_ring::OreRing;
use ore_rows::Choice;
use std::alloc::Global;

// What a choice makes of the progress.
pub(crate) fn follow<R: OreRing>(
    ring: &R,
    alloc: Global,
    progress: Progress,
    choice: Choice,
) -> Result<Progress, Halt>
    requires fits { IsProgressOf (R.sig ring.now) progress }
    requires lawful { is_lawful (leads_of progress.basis.items) progress.listed choice ≡ true }
    ensures followed { IfOk result (IsFollowed (R.sig ring.now) progress choice) }
    ensures halted { IfErr result (IsStopOf (R.sig ring.now) (run_state progress) choice) }
{
    match choice {
        Choice::Treat { i, j } => follow_treat(ring, alloc, progress, i, j),
        Choice::Skip { i, j, via } => match follow_skip(ring.signature(), progress, i, j, via) {
            Ok(next) => Ok(next),
            Err(_) => Err(Halt::Memory),
        },
    }
}

// The pair is treated.
fn follow_treat<R: OreRing>(
    ring: &R,
    alloc: Global,
    progress: Progress,
    i: usize,
    j: usize,
) -> Result<Progress, Halt>
    requires fits { IsProgressOf (R.sig ring.now) progress }
    requires lawful { is_lawful (leads_of progress.basis.items) progress.listed (choices.Treat i j) ≡ true }
    ensures followed { IfOk result (IsFollowed (R.sig ring.now) progress (choices.Treat i j)) }
    ensures halted { IfErr result (IsStopOf (R.sig ring.now) (run_state progress) (choices.Treat i j)) }
{
    match treat(ring, alloc, progress, i, j) {
        Ok(next) => Ok(next),
        Err(stop) => Err(halt_at(stop, StopAt::Treat { i, j })),
    }
}

// The pair is skipped by way of a third row.
fn follow_skip(
    sig: &Signature,
    progress: Progress,
    i: usize,
    j: usize,
    via: usize,
) -> Result<Progress, NoMemory>
    requires fits { IsProgressOf sig.now progress }
    requires lawful { is_lawful (leads_of progress.basis.items) progress.listed (choices.Skip i j via) ≡ true }
    ensures followed { IfOk result (IsFollowed sig.now progress (choices.Skip i j via)) }
{
    let _ = sig;
    Ok(skip(progress, i, j, via)?)
}
