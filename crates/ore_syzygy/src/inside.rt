//! The inside rows of a block that a run makes.

ghost use Rattle.std.specs.Prelude.{◌≡◌, ◌<◌, ◌^◌, ◌++◌, ◌∷◌, List, ℕ, suc, length, map, IfOk, IfErr};
ghost use Rattle.std.specs.List.{range_with_len};
ghost use Rattle.ore_rational.specs.Field.{rationals};
ghost use Rattle.ore_monomial.specs.declared.stop.RingStop.TheVariants.{Memory};
ghost use Rattle.ore_rows.specs.Rows as rows;
ghost use Rattle.ore_rows.specs.declared.choices.Origin.TheVariants as origins;
ghost use Rattle.ore_pairs.specs.RunBlocks.{is_origin, row_from, pair_origins, inside_origins};
ghost use Rattle.ore_blocks.specs.BlockOfRun.{ordered_row};
ghost use Rattle.ore_groebner.specs.RunProgress.{entries_from};
ghost use Rattle.ore_groebner.specs.declared.outcome.Event.{Event as Done};

use ore_groebner::{Event, Events, Origins};
use ore_monomial::{NoMemory, RingStop, Signature};
use ore_ring::{Op, OreRing};
use ore_rows::{Matrix, Origin, Row, row_copy};
use std::alloc::Global;

// A row for each row of the matrix of a run, which is a column of the syzygies, and for each treated pair: the one that is
// given for the syzygy which comes from it, and zeros where none does.
pub(crate) fn inside_rows<R: OreRing>(
    ring: &R,
    alloc: Global,
    syzygies: &Matrix,
    events: &Events,
    origins: &Origins,
    given: &Matrix,
) -> Result<Matrix, RingStop>
    requires { length origins.now ≡ length given.now.rows }
    ensures value { IfOk result (λ x. (n : ℕ) → x ≡ record { cols = given.now.cols; rows = map (row_from origins.now given.now.rows (ordered_row (R.sig ring.now).order (rows.zero_row rationals given.now.cols))) (inside_origins syzygies.now.cols (entries_from n events.now)) }) }
    ensures memory { IfErr result (λ e. e ≡ Memory) }
{
    let places = origins_of(alloc, syzygies.cols(), events)?;
    rows_at(ring, alloc, origins, given, &places)
}

// The rows that stand beside some origins, and zeros where none does.
fn rows_at<R: OreRing>(
    ring: &R,
    alloc: Global,
    origins: &Origins,
    given: &Matrix,
    places: &[Origin],
) -> Result<Matrix, RingStop>
    requires { length origins.now ≡ length given.now.rows }
    ensures value { IfOk result (λ x. x ≡ record { cols = given.now.cols; rows = map (row_from origins.now given.now.rows (ordered_row (R.sig ring.now).order (rows.zero_row rationals given.now.cols))) places.now }) }
    ensures memory { IfErr result (λ e. e ≡ Memory) }
{
    let mut out = Vec::new(alloc);
    for k in 0..places.len() {
        out.push(row_at(ring, alloc, origins, given, &places[k])?)?;
    }
    Ok(Matrix::from_rows(given.cols(), out))
}

// An origin for each row of a matrix, and then one for each treated pair.
fn origins_of(alloc: Global, rows: usize, events: &Events) -> Result<Vec<Origin>, NoMemory>
    ensures { IfOk result (λ x. (n : ℕ) → x.items ≡ inside_origins rows (entries_from n events.now)) }
{
    let mut out = zero_origins(alloc, rows)?;
    out.extend_from_slice(&treated_origins(alloc, events)?)?;
    Ok(out)
}

// An origin for each row of a matrix.
fn zero_origins(alloc: Global, rows: usize) -> Result<Vec<Origin>, NoMemory>
    ensures { IfOk result (λ x. x.items ≡ map (λ i. origins.ZeroRow i) (range_with_len 0 rows)) }
{
    let mut out = Vec::new(alloc);
    for i in 0..rows {
        out.push(Origin::ZeroRow(i))?;
    }
    Ok(out)
}

// An origin for each treated pair.
fn treated_origins(alloc: Global, events: &Events) -> Result<Vec<Origin>, NoMemory>
    ensures { IfOk result (λ x. (n : ℕ) → x.items ≡ pair_origins 0 (entries_from n events.now)) }
{
    let mut out = Vec::new(alloc);
    for k in 0..events.len() {
        out = with_origin(out, events.get(k), k)?;
    }
    Ok(out)
}

// The event at place `k` has an origin where it treats a pair.
fn with_origin(front: Vec<Origin>, event: &Event, k: usize) -> Result<Vec<Origin>, NoMemory>
    ensures { IfOk result (λ x. (n : ℕ) (rest : List Done) → front.items ++ pair_origins k (entries_from n (event.now ∷ rest)) ≡ x.items ++ pair_origins (suc k) (entries_from n rest)) }
{
    match event {
        Event::Treated {
            i: _,
            j: _,
            steps: _,
            outcome: _,
        } => {
            let mut out = front;
            out.push(Origin::Event(k))?;
            Ok(out)
        }
        Event::Skipped { i: _, j: _, via: _ } => Ok(front),
    }
}

// The row that stands beside an origin, or zeros.
fn row_at<R: OreRing>(
    ring: &R,
    alloc: Global,
    origins: &Origins,
    given: &Matrix,
    origin: &Origin,
) -> Result<Row, RingStop>
    requires { length origins.now ≡ length given.now.rows }
    ensures value { IfOk result (λ r. r ≡ row_from origins.now given.now.rows (ordered_row (R.sig ring.now).order (rows.zero_row rationals given.now.cols)) origin.now) }
    ensures width { IfOk result (λ r. length r ≡ given.now.cols) }
    ensures memory { IfErr result (λ e. e ≡ Memory) }
{
    for k in 0..origins.len() {
        if is_same(origins.get(k), origin) {
            return row_copy(ring, alloc, given.row(k));
        }
    }
    Ok(zero_row(alloc, ring.signature(), given.cols())?)
}

// Whether both origins are the same.
#[tactic(auto, unfolding(ore_pairs::specs::RunBlocks::is_origin))]
fn is_same(a: &Origin, b: &Origin) -> bool
    ensures { result ≡ is_origin a.now b.now }
{
    match (a, b) {
        (Origin::ZeroRow(i), Origin::ZeroRow(k)) => i == k,
        (Origin::Event(i), Origin::Event(k)) => i == k,
        (Origin::ZeroRow(_), Origin::Event(_)) => false,
        (Origin::Event(_), Origin::ZeroRow(_)) => false,
    }
}

// So many zeros.
fn zero_row(alloc: Global, sig: &Signature, n: usize) -> Result<Row, NoMemory>
    ensures value { IfOk result (λ r. r ≡ ordered_row sig.now.order (rows.zero_row rationals n)) }
    ensures width { IfOk result (λ r. length r ≡ n) }
{
    let mut out = Vec::new(alloc);
    for _k in 0..n {
        out.push(Op::zero(alloc, sig.order()))?;
    }
    Ok(Row::from_vec(out))
}
