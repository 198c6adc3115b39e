//! How long products of operators take.
//!
//! `ore_speed all` multiplies dense operators of 10, 100 and 1,000 terms in each of three algebras and
//! prints a row for each. With no word the program multiplies two small operators and prints how many
//! terms the product has, which is the same at each run.
//!
//! The algebras have about as many differential operators as coordinates:
//!
//!  * 1 variable: a coordinate `t`.
//!  * 3 variables: the coordinates `t`, `x`, and `d` with `d t = t d + 1`.
//!  * 6 variables: three coordinates, each with its differential operator.
//!
//! A dense operator of `n` terms has the first `n` monomials by degree, so that none of a lower degree is
//! left out. Its fractions are the whole numbers from 1 to 9 in turn. Both factors of a product are the
//! same operator.
//!
//! A contribution is one whole number of the product of two monomials, once for each pair of terms of the
//! factors. Each is multiplied by the fractions of its pair, and all are sorted by their monomials before
//! they are added. So the last column, the time of a contribution divided by the logarithm of
//! the number of terms of the product, doesn't grow with the number of contributions where the time is at
//! most that number times the logarithm. Beside a logarithm the time of a contribution has a fixed part,
//! so in small products the last column is larger.
//!
//!  * `algebra`: the three algebras.
//!  * `dense`: dense operators.
//!  * `contributions`: how many contributions a product has.
//!  * `measure`: products, timed.
//!  * `fault`: why the program ends early.
//!
//! The program stands on `ore_mixed` (the ring), `ore_ring` (operators), `ore_monomial` (signatures) and,
//! for the fractions, `ore_rational`. What it prints isn't proved: the contracts here say that the operators
//! which it multiplies belong to their algebra.
#![tactic(auto)]

mod algebra;
mod contributions;
mod dense;
mod fault;
mod measure;

use algebra::Algebra;
use contributions::contributions;
use dense::dense;
use fault::Fault;
use measure::print_row;
use ore_ring::OreRing;
use std::env;
use std::process::ExitCode;

fn main(rt: HostRuntime) -> ExitCode {
    match run(&rt) {
        Ok(()) => ExitCode::SUCCESS,
        Err(fault) => {
            let _ = eprintln!(rt; "ore_speed: {}", fault.text());
            ExitCode::FAILURE
        }
    }
}

// Does what the words of the command line ask for.
fn run(rt: &HostRuntime) -> Result<(), Fault> {
    match env::args(rt)?.nth(1) {
        None => print_small_product(rt),
        Some(word) => {
            if word.as_str() == "all" {
                print_table(rt)
            } else {
                Err(Fault::Words)
            }
        }
    }
}

// The numbers of one small product, without a time.
fn print_small_product(rt: &HostRuntime) -> Result<(), Fault> {
    let ring = Algebra::Three.ring()?;
    let factor = dense(&ring, rt.alloc(), 10)?;
    let product = ring.mul(rt.alloc(), &factor, &factor)?;
    let count = contributions(&ring, rt.alloc(), &factor, &factor)?;
    println!(rt;
        "3 variables, 10 terms each side: {} contributions, {} terms in the product",
        count,
        product.len()
    )?;
    Ok(())
}

// A row for each algebra and each number of terms.
fn print_table(rt: &HostRuntime) -> Result<(), Fault> {
    println!(rt;
        "{:>9} {:>5} {:>13} {:>13} {:>11} {:>12} {:>21}",
        "variables",
        "terms",
        "contributions",
        "product terms",
        "seconds",
        "products/s",
        "ns/(contribution*log)"
    )?;
    for algebra in [Algebra::One, Algebra::Three, Algebra::Six] {
        for terms in [10, 100, 1000] {
            print_row(rt, algebra, terms)?;
        }
    }
    Ok(())
}

#[cfg(test)]
mod tests;
