//! Products, timed.

ghost use Rattle.ore_ring.specs.Belongs.{Belongs};

use crate::algebra::Algebra;
use crate::contributions::contributions;
use crate::dense::dense;
use crate::fault::Fault;
use ore_mixed::MixedRing;
use ore_ring::{Op, OreRing};
use std::num::{nearest_u64_to_f64, nearest_usize_to_f64};
use std::time::{Duration, Instant};

/// After so many milliseconds no further product is begun.
const ENOUGH: u128 = 500;

/// The most products that are timed together.
const MOST_PRODUCTS: u32 = 1_000_000;

// Products of the same factors, and the time that all of them took.
#[derive(Clone, Copy, Drop)]
struct Measured {
    products: u32,
    elapsed: Duration,
}

/// Times the square of a dense operator and prints a row of the table.
pub fn print_row(rt: &HostRuntime, algebra: Algebra, terms: u32) -> Result<(), Fault> {
    let ring = algebra.ring()?;
    let factor = dense(&ring, rt.alloc(), terms)?;
    let length = ring.mul(rt.alloc(), &factor, &factor)?.len();
    let count = contributions(&ring, rt.alloc(), &factor, &factor)?;
    let measured = timed(rt, &ring, &factor)?;
    let seconds = measured.elapsed.as_secs_f64() / measured.products as f64;
    let steps = nearest_u64_to_f64(count) * nearest_usize_to_f64(length).log2();
    let scaled = seconds * 1e9 / steps;
    println!(rt;
        "{:>9} {:>5} {:>13} {:>13} {:>11.6} {:>12.1} {:>21.1}",
        OreRing::signature(&ring).count(),
        factor.len(),
        count,
        length,
        seconds,
        1.0 / seconds,
        scaled
    )?;
    Ok(())
}

// Multiplies an operator by itself until there is enough to time.
fn timed(rt: &HostRuntime, ring: &MixedRing, factor: &Op) -> Result<Measured, Fault>
    requires { Belongs ring.now factor.now }
{
    let start = Instant::now(rt)?;
    for products in 1..MOST_PRODUCTS {
        ring.mul(rt.alloc(), factor, factor)?;
        let elapsed = start.elapsed(rt)?;
        if elapsed.as_millis() >= ENOUGH {
            return Ok(Measured { products, elapsed });
        }
    }
    ring.mul(rt.alloc(), factor, factor)?;
    Ok(Measured {
        products: MOST_PRODUCTS,
        elapsed: start.elapsed(rt)?,
    })
}
