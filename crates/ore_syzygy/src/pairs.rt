//! The pairs of a run, as entries of a block.

ghost use Rattle.std.specs.Prelude.{◌≡◌, ◌≤◌, ◌<◌, ◌+◌, ◌-◌, ◌^◌, ◌∷◌, ℕ, List, length, map, IfOk};
ghost use Rattle.ore_pairs.specs.PairList as listed;
ghost use Rattle.ore_blocks.specs.BlockOfRun.{stored_entry};
ghost use Rattle.ore_groebner.specs.RunProgress.{entries_from, new_rows};
ghost use Rattle.ore_groebner.specs.declared.outcome.Event.{Event as Done};
ghost use Rattle.ore_groebner.specs.declared.outcome.Event.TheVariants.{Treated};

use ore_groebner::{Event, Events, Outcome};
use ore_monomial::{Exps, NoMemory};
use ore_parts::{PairEntry, Pairs};
use ore_rows::{Basis, Step, Steps};
use std::alloc::Global;

// The pairs of a run, each with what was done with it.
pub(crate) fn pairs_of(alloc: Global, basis: &Basis, events: Events) -> Result<Pairs, NoMemory>
    requires { new_rows events ≤ length basis.now.items }
    ensures { IfOk result (λ x. x ≡ map stored_entry (entries_from (length basis.now.items - new_rows events) events)) }
{
    let first = basis.len() - count_new(&events);
    entries(alloc, events, first)
}

// How many events made a basis row.
fn count_new(events: &Events) -> usize
    ensures { result ≡ new_rows events.now }
{
    events.few();
    let mut count = 0;
    for k in 0..events.len() {
        count += rows_made(events.get(k));
    }
    count
}

// 1 for an event that made a basis row, else 0.
fn rows_made(event: &Event) -> usize
    ensures value { (rest : List Done) → new_rows (event.now ∷ rest) ≡ result + new_rows rest }
    ensures few { result ≤ 1 }
{
    match event {
        Event::Treated {
            i: _,
            j: _,
            steps: _,
            outcome,
        } => match outcome {
            Outcome::Zero => 0,
            Outcome::NewRow { coef: _ } => 1,
        },
        Event::Skipped { i: _, j: _, via: _ } => 0,
    }
}

// The entries of events, where so many basis rows stood before the first.
fn entries(alloc: Global, events: Events, first: usize) -> Result<Pairs, NoMemory>
    requires few { first < 2 ^ 63 }
    ensures { IfOk result (λ x. x ≡ map stored_entry (entries_from first events)) }
{
    events.few();
    let mut out = Vec::with_capacity(alloc, events.len())?;
    let mut next = first;
    for event in events.into_vec() {
        let (entry, after) = entry_of(event, next)?;
        out.push(entry)?;
        next = after;
    }
    Ok(Pairs::from_vec(out))
}

// The entry of an event, where `next` basis rows stand before it, and how many stand behind it.
fn entry_of(event: Event, next: usize) -> Result<(PairEntry, usize), NoMemory>
    requires few { next + 1 < 2 ^ 64 }
    ensures value { IfOk result (λ p. (rest : List Done) → map stored_entry (entries_from next (event ∷ rest)) ≡ p.0 ∷ map stored_entry (entries_from p.1 rest)) }
    ensures after { IfOk result (λ p. p.1 ≤ next + 1) }
{
    match event {
        Event::Treated {
            i,
            j,
            steps,
            outcome,
        } => {
            let (steps, after) = all_steps(steps, outcome, next)?;
            Ok((PairEntry::Pair { i, j, steps }, after))
        }
        Event::Skipped { i, j, via } => Ok((PairEntry::Skip { i, j, via }, next)),
    }
}

// The steps of a treated pair, with the one that takes a new basis row away, and how many basis rows stand behind it.
fn all_steps(steps: Steps, outcome: Outcome, next: usize) -> Result<(Steps, usize), NoMemory>
    requires few { next + 1 < 2 ^ 64 }
    ensures value { IfOk result (λ p. (i j : ℕ) (rest : List Done) → entries_from next (Treated i j steps outcome ∷ rest) ≡ listed.Pair i j p.0 ∷ entries_from p.1 rest) }
    ensures after { IfOk result (λ p. p.1 ≤ next + 1) }
{
    match outcome {
        Outcome::Zero => Ok((steps, next)),
        Outcome::NewRow { coef } => {
            let mut taken = steps.into_vec();
            taken.push(Step {
                index: next,
                exps: Exps::zero(),
                coef,
            })?;
            Ok((Steps::from_vec(taken), next + 1))
        }
    }
}
