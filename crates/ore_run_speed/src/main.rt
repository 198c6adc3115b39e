//! How much work runs take.
//!
//! The program reads a problem from the standard input and runs twice with the live chooser: on the rows of the
//! matrix, and on those of its transposed adjoint. For each run it prints how many rows the basis has, how many pairs
//! were treated and how many skipped, how many steps the reductions took, and how many syzygies there are; or why the
//! run stopped, and after how many treated pairs, including the one at which it stopped.
//!
//!  * `count`: the numbers of a run.
//!  * `fault`: why the program ends early.
//!
//! The program stands on `ore_problem` (the problem), `ore_adjoint` (the transposed adjoint), `ore_mixed` (the ring),
//! and on `ore_groebner` and `ore_report` (the runs). What it prints isn't proved.
#![tactic(auto)]

mod count;
mod fault;

use count::print_run;
use fault::Fault;
use ore_adjoint::transpose_adjoint;
use ore_mixed::MixedRing;
use ore_problem::read_problem;
use std::io;
use std::process::ExitCode;

fn main(rt: HostRuntime) -> ExitCode {
    match print_runs(&rt) {
        Ok(()) => ExitCode::SUCCESS,
        Err(fault) => {
            let _ = eprintln!(rt; "ore_run_speed: {}", fault.text());
            ExitCode::FAILURE
        }
    }
}

// The numbers of both runs.
fn print_runs(rt: &HostRuntime) -> Result<(), Fault> {
    let text = io::read_to_string(rt.alloc(), rt.stdin())?;
    let problem = read_problem(rt.alloc(), text.as_bytes())?;
    let ring = MixedRing::new(problem.signature.copy());
    print_run(rt, &ring, "rows", &problem.matrix)?;
    let adjoint = transpose_adjoint(&ring, rt.alloc(), &problem.matrix)?;
    print_run(rt, &ring, "transposed adjoint", &adjoint)
}
