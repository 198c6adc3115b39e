//! How many pairs of rows a basis has.

ghost use Rattle.std.specs.Prelude.{◌≡◌, ◌≤◌, IfOk};
ghost use Rattle.ore_pairs.specs.PairList.{pair_count};
ghost use Rattle.ore_blocks.specs.InnerContracts.{count_at};

use ore_leads::Leads;
use ore_monomial::NoMemory;
use std::alloc::Global;
use std::collections::BTreeMap;

/// How many pairs of leads stand in one column.
///
/// # Errors
/// Want of memory.
pub fn pair_count(alloc: Global, leads: &Leads) -> Result<u128, NoMemory>
    ensures { IfOk result (λ n. n ≡ pair_count leads.now) }
{
    let mut counts: BTreeMap<usize, usize> = BTreeMap::new(alloc);
    let mut pairs: u128 = 0;
    for k in 0..leads.len() {
        let column = leads.get(leads.len() - 1 - k).0;
        let behind = count_at(&counts, column);
        pairs += behind as u128;
        counts.insert(column, behind + 1)?;
    }
    Ok(pairs)
}

// How many leads were counted in a column.
fn count_at(counts: &BTreeMap<usize, usize>, column: usize) -> usize
    ensures { result ≡ count_at counts.now column }
{
    match counts.get(&column) {
        Some(count) => *count,
        None => 0,
    }
}
