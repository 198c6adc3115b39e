//! The numbers of a run.

ghost use Rattle.std.specs.List.{All};
ghost use Rattle.ore_ring.specs.Belongs.{AllBelong};

use crate::fault::Fault;
use ore_groebner::run::run;
use ore_groebner::{Event, Events, Halt};
use ore_mixed::MixedRing;
use ore_report::LiveChooser;
use ore_rows::{Choice, Matrix};

/// How many pairs a run may treat.
const BUDGET: u32 = 100_000;

/// Runs on the rows of a matrix, and prints the numbers of the run in a line.
///
/// The entries of the matrix are of the signature of the ring.
///
/// # Errors
/// The line can't be printed. That the run stops is none: the line says so.
pub fn print_run(rt: &HostRuntime, ring: &MixedRing, name: &str, a: &Matrix) -> Result<(), Fault>
    requires { All (AllBelong ring.now) a.now.rows }
{
    let mut chooser = LiveChooser::new(rt.alloc(), BUDGET);
    match run(ring, rt.alloc(), a, &mut chooser) {
        Ok(finished) => {
            let skips = skipped(&finished.events);
            println!(rt;
                "{}: basis rows {}, treated pairs {}, skipped pairs {}, steps {}, syzygies {}",
                name,
                finished.basis.len(),
                finished.events.len().saturating_sub(skips),
                skips,
                steps(&finished.events),
                finished.syzygies.rows()
            )?;
        }
        Err(halt) => {
            println!(rt;
                "{}: {} after {} treated pairs",
                name,
                halt_text(halt),
                treated(chooser)
            )?;
        }
    }
    Ok(())
}

// How many pairs were skipped.
fn skipped(events: &Events) -> usize {
    let mut count: usize = 0;
    for k in 0..events.len() {
        if let Event::Skipped { .. } = events.get(k) {
            count = count.saturating_add(1);
        }
    }
    count
}

// How many steps the reductions of all events took.
fn steps(events: &Events) -> usize {
    let mut count: usize = 0;
    for k in 0..events.len() {
        if let Event::Treated { steps, .. } = events.get(k) {
            count = count.saturating_add(steps.len());
        }
    }
    count
}

// How many pairs were to be treated in the first run, including the one at which it stopped.
fn treated(chooser: LiveChooser) -> usize {
    let runs = chooser.into_runs();
    if runs.len() == 0 {
        return 0;
    }
    let choices = runs.get(0);
    let mut count: usize = 0;
    for k in 0..choices.len() {
        if let Choice::Treat { .. } = choices.get(k) {
            count = count.saturating_add(1);
        }
    }
    count
}

// Why a run stopped.
fn halt_text(halt: Halt) -> &'static str {
    match halt {
        Halt::Overflow(_) => "a number is too great",
        Halt::Degree(_) => "a degree is too great",
        Halt::Spent => "the budget is spent",
        Halt::NoLawful => "a choice isn't lawful",
        Halt::Memory => "memory ran out",
    }
}
