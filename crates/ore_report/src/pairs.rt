//! By way of which row a pair may be skipped; whether a choice is lawful, and whether a pair is left.

ghost use Rattle.std.specs.Prelude.{◌≡◌, ◌<◌, length};
ghost use Rattle.std.specs.List.{list_any, range_with_len};
ghost use Rattle.ore_pairs.specs.PairRule as rule;
ghost use Rattle.ore_report.specs.ChainRule.{least_via};

use ore_leads::Leads;
use ore_pairs::Listed;
use ore_pairs::rule::{may_skip, may_treat};
use ore_rows::Choice;

/// The least row by way of which the pair may be skipped, if there is one.
pub fn least_via(leads: &Leads, listed: &Listed, i: usize, j: usize) -> Option<usize>
    requires first { i < length leads.now }
    requires second { j < length leads.now }
    ensures { result ≡ least_via leads.now listed.now i j }
{
    for via in 0..leads.len() {
        if may_skip(leads, listed, i, j, via) {
            return Some(via);
        }
    }
    None
}

/// Whether the choice is lawful.
pub fn is_lawful(leads: &Leads, listed: &Listed, choice: Choice) -> bool
    ensures { result ≡ rule.is_lawful leads.now listed.now choice }
{
    match choice {
        Choice::Treat { i, j } => may_treat(leads, listed, i, j),
        Choice::Skip { i, j, via } => {
            may_treat(leads, listed, i, j) && may_skip(leads, listed, i, j, via)
        }
    }
}

/// Whether a pair may be treated.
pub fn some_unlisted(leads: &Leads, listed: &Listed) -> bool
    ensures { result ≡ rule.some_pair (length leads.now) (rule.may_treat leads.now listed.now) }
{
    for i in 0..leads.len() {
        if some_partner(leads, listed, i) {
            return true;
        }
    }
    false
}

// Whether the row at `i` is the first of a pair that may be treated.
fn some_partner(leads: &Leads, listed: &Listed, i: usize) -> bool
    ensures { result ≡ list_any (rule.may_treat leads.now listed.now i) (range_with_len 0 (length leads.now)) }
{
    for j in 0..leads.len() {
        if may_treat(leads, listed, i, j) {
            return true;
        }
    }
    false
}
