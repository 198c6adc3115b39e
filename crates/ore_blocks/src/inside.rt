//! The inside rows of an exact block.

ghost use Rattle.std.specs.Prelude.{◌≡◌, ◌<◌, ◌≤◌, length, drop, IfOk};
ghost use Rattle.std.specs.List.{All};
ghost use Rattle.ore_algebra.specs.Limits.{program};
ghost use Rattle.ore_monomial.specs.Monomial.{degree};
ghost use Rattle.ore_monomial.specs.Signature.{MonomialOf};
ghost use Rattle.ore_ring.specs.Belongs.{AllBelong};
ghost use Rattle.ore_rows.specs.Stored.{rows_of, sums_of};
ghost use Rattle.ore_pairs.specs.Steps.{lcm_of_leads};
ghost use Rattle.ore_parts.specs.OfSignature.{AreStoredStepsOf, IsEntryOf};
ghost use Rattle.ore_blocks.specs.CheckBlock.{check_inside, rows_inside, pairs_inside, row_matrix_of};
ghost use Rattle.ore_blocks.specs.InnerContracts.{FitsLeads};
ghost use Rattle.ore_blocks.specs.Judging.{Judges};
ghost use Rattle.ore_blocks.specs.PlaceConditions.{row_inside, pair_inside};

use crate::equal::are_same;
use crate::formed::{combined, difference, less_steps_at, s_row_at};
use crate::pairs::{rows_taken, treated_count};
use crate::place::{Name, Place, Section};
use crate::reason::Reason;
use crate::refusal::{Refusal, required};
use ore_leads::Leads;
use ore_parts::{ExactBlock, PairEntry, Pairs};
use ore_ring::OreRing;
use ore_rows::{Matrix, Row, Steps, unit_row};
use std::alloc::Global;

/// The inside rows of a block, for each row of `a` and then for each treated pair. `m` has a column for each row of
/// `a`, and the places of the block before these are right.
///
/// # Errors
/// The first place whose condition fails, or of which an operation stops; and want of memory.
#[tactic(auto, using(crate::proofs::Refusals::refuses_on), unfolding(crate::specs::CheckBlock::check_inside))]
pub fn check_inside<R: OreRing>(
    ring: &R,
    alloc: Global,
    a: &Matrix,
    m: &Matrix,
    leads: &Leads,
    section: Section,
    block: &ExactBlock,
) -> Result<(), Refusal>
    requires m_cols { m.now.cols ≡ length a.now.rows }
    requires from_rows { length block.now.from.rows ≡ length a.now.rows }
    requires from_cols { block.now.from.cols ≡ length block.now.to.rows }
    requires to_rows { length block.now.to.rows ≡ length leads.now }
    requires to_cols { block.now.to.cols ≡ length a.now.rows }
    requires fits_leads { All (FitsLeads leads.now) block.now.pairs }
    requires m_of { All (AllBelong (R.sig ring.now)) m.now.rows }
    requires leads_of { All (λ t. MonomialOf (R.sig ring.now) t.monomial) leads.now }
    requires from_of { All (AllBelong (R.sig ring.now)) block.now.from.rows }
    requires to_of { All (AllBelong (R.sig ring.now)) block.now.to.rows }
    requires pairs_of { All (IsEntryOf (R.sig ring.now)) block.now.pairs }
    requires inside_of { All (AllBelong (R.sig ring.now)) block.now.inside.rows }
    ensures { Judges (λ u. u) result (check_inside program (R.sig ring.now) (row_matrix_of a.now) (row_matrix_of m.now) leads.now section (row_matrix_of block.now.from) (row_matrix_of block.now.to) block.now.pairs (row_matrix_of block.now.inside)) }
{
    let inside = &block.inside;
    let rows = a.rows() as u128 + treated_count(&block.pairs) as u128;
    required(
        Place::Header(section, Name::Inside),
        Reason::Shape,
        inside.rows() as u128 == rows && inside.cols() == m.rows(),
    )?;
    rows_inside(ring, alloc, &block.to, m, section, &block.from, inside)?;
    pairs_inside(
        ring,
        alloc,
        leads,
        &block.to,
        m,
        section,
        &block.pairs,
        inside,
        a.rows(),
    )
}

// The inside rows for each row of `from`.
fn rows_inside<R: OreRing>(
    ring: &R,
    alloc: Global,
    to: &Matrix,
    m: &Matrix,
    section: Section,
    from: &Matrix,
    inside: &Matrix,
) -> Result<(), Refusal>
    requires m_cols { m.now.cols ≡ to.now.cols }
    requires from_cols { from.now.cols ≡ length to.now.rows }
    requires inside_cols { inside.now.cols ≡ length m.now.rows }
    requires inside_rows { length from.now.rows ≤ length inside.now.rows }
    requires to_of { All (AllBelong (R.sig ring.now)) to.now.rows }
    requires m_of { All (AllBelong (R.sig ring.now)) m.now.rows }
    requires from_of { All (AllBelong (R.sig ring.now)) from.now.rows }
    requires inside_of { All (AllBelong (R.sig ring.now)) inside.now.rows }
    ensures { Judges (λ u. u) result (rows_inside program (R.sig ring.now) to.now.cols (rows_of to.now) (rows_of m.now) section 0 (rows_of from.now) (rows_of inside.now)) }
{
    for i in 0..from.rows() {
        row_inside(
            ring,
            alloc,
            to,
            m,
            Place::Row(section, Name::Inside, i),
            i,
            from.row(i),
            inside.row(i),
        )?;
    }
    Ok(())
}

// The inside row for a row of `from`.
#[tactic(auto, using(crate::proofs::Refusals::refuses_on), unfolding(crate::specs::PlaceConditions::row_inside))]
fn row_inside<R: OreRing>(
    ring: &R,
    alloc: Global,
    to: &Matrix,
    m: &Matrix,
    place: Place,
    i: usize,
    row: &Row,
    inside: &Row,
) -> Result<(), Refusal>
    requires m_cols { m.now.cols ≡ to.now.cols }
    requires row_width { length row.now ≡ length to.now.rows }
    requires inside_width { length inside.now ≡ length m.now.rows }
    requires to_of { All (AllBelong (R.sig ring.now)) to.now.rows }
    requires m_of { All (AllBelong (R.sig ring.now)) m.now.rows }
    requires row_of { AllBelong (R.sig ring.now) row.now }
    requires inside_of { AllBelong (R.sig ring.now) inside.now }
    ensures { Judges (λ u. u) result (row_inside program (R.sig ring.now) to.now.cols (rows_of to.now) (rows_of m.now) place i (sums_of row.now) (sums_of inside.now)) }
{
    let product = combined(ring, alloc, place, row, to)?;
    let unit = unit_row(alloc, ring.signature(), to.cols(), i)?;
    let left = difference(ring, alloc, place, &unit, &product)?;
    let right = combined(ring, alloc, place, inside, m)?;
    required(place, Reason::Inside, are_same(ring, &left, &right))
}

// The inside rows from a place on, for each treated pair.
fn pairs_inside<R: OreRing>(
    ring: &R,
    alloc: Global,
    leads: &Leads,
    to: &Matrix,
    m: &Matrix,
    section: Section,
    pairs: &Pairs,
    inside: &Matrix,
    first: usize,
) -> Result<(), Refusal>
    requires m_cols { m.now.cols ≡ to.now.cols }
    requires to_rows { length to.now.rows ≡ length leads.now }
    requires inside_cols { inside.now.cols ≡ length m.now.rows }
    requires fits_leads { All (FitsLeads leads.now) pairs.now }
    requires leads_of { All (λ t. MonomialOf (R.sig ring.now) t.monomial) leads.now }
    requires to_of { All (AllBelong (R.sig ring.now)) to.now.rows }
    requires m_of { All (AllBelong (R.sig ring.now)) m.now.rows }
    requires pairs_of { All (IsEntryOf (R.sig ring.now)) pairs.now }
    requires inside_of { All (AllBelong (R.sig ring.now)) inside.now.rows }
    ensures { Judges (λ u. u) result (pairs_inside program (R.sig ring.now) to.now.cols leads.now (rows_of to.now) (rows_of m.now) section first pairs.now (drop first (rows_of inside.now))) }
{
    let mut next = first;
    for k in 0..pairs.len() {
        if next >= inside.rows() {
            return Ok(());
        }
        let place = Place::Row(section, Name::Inside, next);
        let entry = pairs.get(k);
        pair_inside(ring, alloc, leads, to, m, place, entry, inside.row(next))?;
        next += rows_taken(entry);
    }
    Ok(())
}

// The inside row for a pair, where it is treated.
#[tactic(auto, unfolding(crate::specs::PlaceConditions::pair_inside))]
fn pair_inside<R: OreRing>(
    ring: &R,
    alloc: Global,
    leads: &Leads,
    to: &Matrix,
    m: &Matrix,
    place: Place,
    entry: &PairEntry,
    inside: &Row,
) -> Result<(), Refusal>
    requires m_cols { m.now.cols ≡ to.now.cols }
    requires to_rows { length to.now.rows ≡ length leads.now }
    requires inside_width { length inside.now ≡ length m.now.rows }
    requires fits_leads { FitsLeads leads.now entry.now }
    requires leads_of { All (λ t. MonomialOf (R.sig ring.now) t.monomial) leads.now }
    requires to_of { All (AllBelong (R.sig ring.now)) to.now.rows }
    requires m_of { All (AllBelong (R.sig ring.now)) m.now.rows }
    requires entry_of { IsEntryOf (R.sig ring.now) entry.now }
    requires inside_of { AllBelong (R.sig ring.now) inside.now }
    ensures { Judges (λ u. u) result (pair_inside program (R.sig ring.now) to.now.cols leads.now (rows_of to.now) (rows_of m.now) place entry.now (sums_of inside.now)) }
{
    match entry {
        PairEntry::Pair { i, j, steps } => treated_inside(
            ring, alloc, leads, to, m, place, *i, *j, steps, inside,
        ),
        PairEntry::Skip { .. } => Ok(()),
    }
}

// The inside row for a treated pair.
#[tactic(auto, using(crate::proofs::Refusals::refuses_on), unfolding(crate::specs::PlaceConditions::pair_inside))]
fn treated_inside<R: OreRing>(
    ring: &R,
    alloc: Global,
    leads: &Leads,
    to: &Matrix,
    m: &Matrix,
    place: Place,
    i: usize,
    j: usize,
    steps: &Steps,
    inside: &Row,
) -> Result<(), Refusal>
    requires m_cols { m.now.cols ≡ to.now.cols }
    requires to_rows { length to.now.rows ≡ length leads.now }
    requires inside_width { length inside.now ≡ length m.now.rows }
    requires first { i < length leads.now }
    requires second { j < length leads.now }
    requires fits { degree (lcm_of_leads leads.now i j).monomial ≤ 32767 }
    requires places { All (λ t. t.index < length leads.now) steps.now }
    requires leads_of { All (λ t. MonomialOf (R.sig ring.now) t.monomial) leads.now }
    requires to_of { All (AllBelong (R.sig ring.now)) to.now.rows }
    requires m_of { All (AllBelong (R.sig ring.now)) m.now.rows }
    requires steps_of { AreStoredStepsOf (R.sig ring.now) steps.now }
    requires inside_of { AllBelong (R.sig ring.now) inside.now }
    ensures { Judges (λ u. u) result (pair_inside program (R.sig ring.now) to.now.cols leads.now (rows_of to.now) (rows_of m.now) place (PairEntry.Pair i j steps.now) (sums_of inside.now)) }
{
    let start = s_row_at(ring, alloc, place, leads, to, i, j)?;
    let left = less_steps_at(ring, alloc, place, to, start, steps)?;
    let right = combined(ring, alloc, place, inside, m)?;
    required(place, Reason::Inside, are_same(ring, &left, &right))
}
