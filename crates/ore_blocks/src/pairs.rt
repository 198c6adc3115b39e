//! The pairs of a basis, each by those before it.

ghost use Rattle.std.specs.Prelude.{◌≡◌, ◌∷◌, ◌<◌, ◌≤◌, ◌&&◌, nat_eq, length, IfOk};
ghost use Rattle.std.specs.List.{All};
ghost use Rattle.ore_algebra.specs.Limits.{program};
ghost use Rattle.ore_rational.specs.Field.{rationals};
ghost use Rattle.ore_monomial.specs.Monomial.{degree};
ghost use Rattle.ore_monomial.specs.Signature.{MonomialOf};
ghost use Rattle.ore_ring.specs.Belongs.{AllBelong};
ghost use Rattle.ore_rows.specs.Arithmetic.{within};
ghost use Rattle.ore_rows.specs.Stored.{rows_of, sums_of};
ghost use Rattle.ore_pairs.specs.PairList.{pair_count, treated_count};
ghost use Rattle.ore_pairs.specs.PairRule.{HaveSamePairs, may_skip, may_treat};
ghost use Rattle.ore_pairs.specs.Steps.{common_fits, lcm_of_leads};
ghost use Rattle.ore_parts.specs.OfSignature.{IsEntryOf};
ghost use Rattle.ore_blocks.specs.CheckBlock.{check_entry, check_pairs, dealt_pairs, pair_of, rows_taken};
ghost use Rattle.ore_blocks.specs.Conditions.{formed, required};
ghost use Rattle.ore_blocks.specs.Judging.{Judges};
ghost use Rattle.ore_blocks.specs.InnerContracts.{FitsLeads};

use crate::count::pair_count;
use crate::formed::s_row_at;
use crate::place::{Place, Section};
use crate::reason::Reason;
use crate::refusal::{Refusal, required};
use crate::steps::check_steps;
use ore_leads::Leads;
use ore_monomial::{Exps, NoMemory};
use ore_pairs::Listed;
use ore_pairs::multiples::common_multiple;
use ore_pairs::rule::{may_skip, may_treat};
use ore_parts::{PairEntry, Pairs};
use ore_ring::OreRing;
use ore_rows::Matrix;
use std::alloc::Global;

/// The pairs of a basis: they are as many as the basis has, and each is right by those before it. There is a
/// lead for each basis row.
///
/// # Errors
/// The first place whose condition fails, or of which an operation stops; and want of memory.
#[tactic(auto, using(crate::proofs::Refusals::refuses_on), unfolding(crate::specs::CheckBlock::check_pairs))]
pub fn check_pairs<R: OreRing>(
    ring: &R,
    alloc: Global,
    basis: &Matrix,
    leads: &Leads,
    section: Section,
    pairs: &Pairs,
) -> Result<(), Refusal>
    requires rows { length leads.now ≡ length basis.now.rows }
    requires leads_of { All (λ t. MonomialOf (R.sig ring.now) t.monomial) leads.now }
    requires basis_of { All (AllBelong (R.sig ring.now)) basis.now.rows }
    requires pairs_of { All (IsEntryOf (R.sig ring.now)) pairs.now }
    ensures judges { Judges (λ u. u) result (check_pairs program (R.sig ring.now) (rows_of basis.now) leads.now section pairs.now) }
    ensures fits_leads { IfOk result (λ _. All (FitsLeads leads.now) pairs.now) }
{
    check_count(alloc, leads, section, pairs)?;
    let mut listed = Listed::new(alloc);
    for k in 0..pairs.len() {
        let entry = pairs.get(k);
        check_entry(ring, alloc, basis, leads, section, k, &listed, entry)?;
        list_pair(leads, &mut listed, entry)?;
    }
    Ok(())
}

// There are as many pairs as the basis has.
fn check_count(alloc: Global, leads: &Leads, section: Section, pairs: &Pairs) -> Result<(), Refusal>
    ensures { Judges (λ u. u) result (required (Place.Pairs section) Reason.Pairs (nat_eq (length pairs.now) (pair_count leads.now))) }
{
    let count = pair_count(alloc, leads)?;
    required(
        Place::Pairs(section),
        Reason::Pairs,
        pairs.len() as u128 == count,
    )
}

// One more pair is listed.
#[tactic(auto, unfolding(crate::specs::CheckBlock::pair_of))]
fn list_pair(leads: &Leads, listed: &mut Listed, entry: &PairEntry) -> Result<(), NoMemory>
    requires { FitsLeads leads.now entry.now }
    ensures { IfOk result (λ _. HaveSamePairs listed.new (pair_of entry.now ∷ listed.old)) }
{
    let _leads = leads;
    match entry {
        PairEntry::Pair { i, j, .. } => listed.add(*i, *j),
        PairEntry::Skip { i, j, .. } => listed.add(*i, *j),
    }
}

/// How many of some pairs are treated.
pub fn treated_count(pairs: &Pairs) -> usize
    ensures { result ≡ treated_count (dealt_pairs pairs.now) }
{
    let mut treated = 0;
    for k in 0..pairs.len() {
        treated += rows_taken(pairs.get(k));
    }
    treated
}

/// How many inside rows a pair takes: one where it is treated.
pub fn rows_taken(entry: &PairEntry) -> usize
    ensures value { result ≡ rows_taken entry.now }
    ensures small { result ≤ 1 }
{
    match entry {
        PairEntry::Pair { .. } => 1,
        PairEntry::Skip { .. } => 0,
    }
}

// The pair with a number is right by those before it.
#[tactic(auto, using(crate::proofs::Refusals::refuses_on), unfolding(crate::specs::CheckBlock::check_entry, ore_pairs::specs::PairRule::may_treat))]
fn check_entry<R: OreRing>(
    ring: &R,
    alloc: Global,
    basis: &Matrix,
    leads: &Leads,
    section: Section,
    k: usize,
    before: &Listed,
    entry: &PairEntry,
) -> Result<(), Refusal>
    requires rows { length leads.now ≡ length basis.now.rows }
    requires leads_of { All (λ t. MonomialOf (R.sig ring.now) t.monomial) leads.now }
    requires basis_of { All (AllBelong (R.sig ring.now)) basis.now.rows }
    requires entry_of { IsEntryOf (R.sig ring.now) entry.now }
    ensures judges { Judges (λ u. u) result (check_entry program (R.sig ring.now) (rows_of basis.now) leads.now section k before.now entry.now) }
{
    let place = Place::Pair(section, k, 0);
    match entry {
        PairEntry::Pair { i, j, steps } => {
            required(place, Reason::Pair, may_treat(leads, before, *i, *j))?;
            let multiple = common(ring, place, leads, *i, *j)?;
            let row = s_row_at(ring, alloc, place, leads, basis, *i, *j)?;
            let column = leads.get(*i).0;
            check_steps(
                ring, alloc, basis, leads, column, &multiple, section, k, row, steps,
            )
        }
        PairEntry::Skip { i, j, via } => required(
            place,
            Reason::Skip,
            is_skipped(leads, before, *i, *j, *via),
        ),
    }
}

// The common multiple of two leads, at a place.
fn common<R: OreRing>(
    ring: &R,
    place: Place,
    leads: &Leads,
    i: usize,
    j: usize,
) -> Result<Exps, Refusal>
    requires first { i < length leads.now }
    requires second { j < length leads.now }
    ensures judges { Judges (λ _. tt) result (formed place (common_fits rationals (within program (R.sig ring.now)) (lcm_of_leads leads.now i j))) }
    ensures value { IfOk result (λ e. e ≡ (lcm_of_leads leads.now i j).monomial) }
    ensures fits { IfOk result (λ _. degree (lcm_of_leads leads.now i j).monomial ≤ 32767) }
{
    let _ring = ring;
    match common_multiple(leads, i, j) {
        Ok(multiple) => Ok(multiple),
        Err(_passed) => Err(Refusal::Degree { place }),
    }
}

// Whether a pair is new and may be skipped by way of a third row.
#[tactic(auto, unfolding(ore_pairs::specs::PairRule::may_treat))]
fn is_skipped(leads: &Leads, before: &Listed, i: usize, j: usize, via: usize) -> bool
    ensures { result ≡ (may_treat leads.now before.now i j && may_skip leads.now before.now i j via) }
{
    if !may_treat(leads, before, i, j) {
        return false;
    }
    may_skip(leads, before, i, j, via)
}
