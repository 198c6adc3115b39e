//! Which pair may be treated, and which skipped, by leads and listed pairs.

ghost use Rattle.std.specs.Prelude.{◌≡◌, ◌<◌, ◌↔◌, length, IsTrue};
ghost use Rattle.ore_monomial.specs.Monomial.{Divides, lcm};
ghost use Rattle.ore_leads.specs.FirstDivisor.{divides_term};
ghost use Rattle.ore_pairs.specs.PairRule.{may_skip, may_treat};
ghost use Rattle.ore_pairs.specs.Steps.{lead_at, lcm_of_leads};

use crate::listed::Listed;
use ore_leads::Leads;
use ore_monomial::Exps;

/// Whether the pair at `i` and `j` may be treated: `i` stands before `j`, both have a lead, the leads stand in one column,
/// and the pair isn't listed.
#[tactic(auto, unfolding(crate::specs::PairRule::may_treat))]
pub fn may_treat(leads: &Leads, listed: &Listed, i: usize, j: usize) -> bool
    ensures { result ≡ may_treat leads.now listed.now i j }
{
    if i >= j {
        return false;
    }
    if j >= leads.len() {
        return false;
    }
    leads.get(i).0 == leads.get(j).0 && !listed.has(i, j)
}

/// Whether the pair at `i` and `j` may be skipped by way of the lead at `via`: that is a third one and divides the
/// common multiple of theirs, and its pairs with both are listed.
#[tactic(auto, unfolding(crate::specs::PairRule::may_skip))]
pub fn may_skip(leads: &Leads, listed: &Listed, i: usize, j: usize, via: usize) -> bool
    requires first { i < length leads.now }
    requires second { j < length leads.now }
    ensures { result ≡ may_skip leads.now listed.now i j via }
{
    if via >= leads.len() {
        return false;
    }
    if via == i {
        return false;
    }
    if via == j {
        return false;
    }
    if !divides_common(leads, i, j, via) {
        return false;
    }
    listed.has_either(i, via) && listed.has_either(j, via)
}

// Whether the lead at `via` divides the common multiple of those at `i` and `j`.
fn divides_common(leads: &Leads, i: usize, j: usize, via: usize) -> bool
    requires first { i < length leads.now }
    requires second { j < length leads.now }
    requires third { via < length leads.now }
    ensures { result ≡ divides_term (lead_at leads.now via) (lcm_of_leads leads.now i j) }
{
    let first = leads.get(i);
    let second = leads.get(j);
    let third = leads.get(via);
    third.0 == first.0 && divides_lcm(&third.1, &first.1, &second.1)
}

// Whether a monomial divides the least common multiple of two others, of whatever degree that is.
fn divides_lcm(exps: &Exps, first: &Exps, second: &Exps) -> bool
    ensures { IsTrue result ↔ Divides exps.now (lcm first.now second.now) }
{
    for k in 0..12 {
        if exps.get(k) > first.get(k).max(second.get(k)) {
            return false;
        }
    }
    true
}
