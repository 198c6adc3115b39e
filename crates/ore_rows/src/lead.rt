//! The lead of a row.

ghost use Rattle.std.specs.Prelude.{◌≡◌, ◌+◌, ◌<◌, length, take, MatchOption};
ghost use Rattle.ore_rational.specs.Field.{rationals};
ghost use Rattle.ore_ring.specs.Belongs.{AllBelong};
ghost use Rattle.ore_rows.specs.LeadFound.{IsLeadFound, greater_found};
ghost use Rattle.ore_rows.specs.RowLead.{IsRowLead};
ghost use Rattle.ore_rows.specs.Stored.{IsZeroRow, sums_of};

use crate::row::Row;
use ore_monomial::{Exps, Order, Signature, compare};
use ore_rational::Rational;
use ore_ring::lead;

/// The greatest term of a row in the order of the signature: its column, where the first is 0, its monomial and its
/// coefficient. There is none in a row of zeros. Of terms with one monomial that in the first column is the greatest.
/// The entries are of the signature.
pub fn row_lead(sig: &Signature, row: &Row) -> Option<(usize, Exps, Rational)>
    requires { AllBelong sig.now row.now }
    ensures { MatchOption result (IsZeroRow row.now) (λ t. IsRowLead rationals sig.now.order (sums_of row.now) (record { monomial = t.1; column = t.0 }) t.2) }
{
    let mut found = None;
    for k in 0..row.len() {
        found = found_with(sig, row, k, found);
    }
    found
}

// The lead of the first entries and of that at place `k`, where `before` is that of the entries before it.
fn found_with(
    sig: &Signature,
    row: &Row,
    k: usize,
    before: Option<(usize, Exps, Rational)>,
) -> Option<(usize, Exps, Rational)>
    requires within { k < length row.now }
    requires row_of { AllBelong sig.now row.now }
    requires before { IsLeadFound sig.now.order (take k row.now) before }
    ensures { IsLeadFound sig.now.order (take (k + 1) row.now) result }
{
    let entry = row.entry(k);
    if entry.is_zero() {
        return before;
    }
    greater(sig.order(), before, k, lead(entry))
}

// The greater of the lead before the column `k` and the lead of the entry there.
fn greater(
    order: Order,
    before: Option<(usize, Exps, Rational)>,
    k: usize,
    next: Option<(Exps, Rational)>,
) -> Option<(usize, Exps, Rational)>
    ensures { result ≡ greater_found order before k next }
{
    match (before, next) {
        (before, None) => before,
        (None, Some((exps, coef))) => Some((k, exps, coef)),
        (Some((column, most, coef)), Some((exps, next_coef))) => {
            if compare(order, &exps, &most).is_gt() {
                Some((k, exps, next_coef))
            } else {
                Some((column, most, coef))
            }
        }
    }
}
