//! Pairs of basis rows, over a ring that has all kinds of letters.

ghost use Rattle.std.specs.Prelude.{◌≡◌, ◌<◌, IfOk, length};
ghost use Rattle.ore_rows.specs.Reduction.{basis_lead};
ghost use Rattle.ore_rows.specs.StoredBasis.{BasisBelongs};

use crate::names::letters;
use crate::texts::{basis_from, row_is};
use ore_agree::operators::mixed;
use ore_groebner::entries::entry_row;
use ore_mixed::MixedRing;
use ore_monomial::{Exps, Order};
use ore_pairs::{Listed, common, may_skip, s_row};
use ore_rational::Rational;
use ore_ring::OreRing;
use ore_rows::Basis;
use ore_text::Names;
use std::alloc::Global;
use std::test::Fail;

// The first two rows have equal lead columns.
fn check_columns(basis: &Basis) -> Result<(), Fail>
    ensures second { IfOk result (λ _. 1 < length basis.now.items) }
    ensures columns { IfOk result (λ _. (basis_lead basis.now.items 0).column ≡ (basis_lead basis.now.items 1).column) }
{
    if basis.len() < 2 {
        return Err(Fail::new("there is no second row"));
    }
    let first = basis.leads().get(0);
    let second = basis.leads().get(1);
    if first.0 != second.0 {
        return Err(Fail::new("the columns differ"));
    }
    Ok(())
}

// Whether the common multiple of d and t is t d.
fn has_common(basis: &Basis) -> Result<bool, Fail>
    requires rows { 1 < length basis.now.items }
    requires columns { (basis_lead basis.now.items 0).column ≡ (basis_lead basis.now.items 1).column }
{
    let t_d = Exps::from_list(&[1, 0, 0, 0, 0, 0, 1, 0, 0, 0, 0, 0])?;
    Ok(common(basis, 0, 1)? == t_d)
}

// Whether t d - d t = -1.
fn combines<R: OreRing>(ring: &R, alloc: Global, names: &Names, basis: &Basis) -> Result<bool, Fail>
    requires names { length names.now ≡ length (R.sig ring.now).kinds }
    requires of { BasisBelongs (R.sig ring.now) basis.now.items }
    requires rows { 1 < length basis.now.items }
    requires columns { (basis_lead basis.now.items 0).column ≡ (basis_lead basis.now.items 1).column }
{
    let (row, cofactor) = s_row(ring, alloc, basis, 0, 1)?;
    if !row_is(ring, alloc, names, &row, "-1")? {
        return Ok(false);
    }
    row_is(ring, alloc, names, &cofactor, "t,-d")
}

#[test]
fn a_combination(rt: HostRuntime) -> Result<(), Fail> {
    let ring = MixedRing::new(mixed(Order::DegRevLex)?);
    let names = letters(rt.alloc())?;
    let basis = basis_from(&ring, rt.alloc(), &names, 2, "d;t", "1,0;0,1")?;
    check_columns(&basis)?;
    assert!(rt; has_common(&basis)?);
    assert!(rt; combines(&ring, rt.alloc(), &names, &basis)?);
    Ok(())
}

// The list of these pairs.
fn listed_of(alloc: Global, pairs: &[(usize, usize)]) -> Result<Listed, Fail> {
    let mut listed = Listed::new(alloc);
    for (i, j) in pairs {
        if i >= j {
            return Err(Fail::new("a pair isn't in order"));
        }
        listed.add(*i, *j)?;
    }
    Ok(listed)
}

// Whether the pair of the first two rows may be skipped by way of one of these, where some pairs are listed.
fn may_skip_by(
    basis: &Basis,
    alloc: Global,
    pairs: &[(usize, usize)],
    ways: &[usize],
) -> Result<bool, Fail>
    requires rows { 1 < length basis.now.items }
    requires columns { (basis_lead basis.now.items 0).column ≡ (basis_lead basis.now.items 1).column }
{
    let listed = listed_of(alloc, pairs)?;
    for via in ways {
        if may_skip(basis, &listed, 0, 1, *via) {
            return Ok(true);
        }
    }
    Ok(false)
}

#[test]
fn listed_pairs(rt: HostRuntime) -> Result<(), Fail> {
    let listed = listed_of(rt.alloc(), &[(0, 2), (1, 3)])?;
    assert!(rt; listed.has(0, 2) && listed.has(1, 3));
    assert!(rt; !listed.has(0, 1) && !listed.has(0, 3));
    Ok(())
}

#[test]
fn skipped_pairs(rt: HostRuntime) -> Result<(), Fail> {
    let ring = MixedRing::new(mixed(Order::DegRevLex)?);
    let names = letters(rt.alloc())?;
    // t u divides the common multiple of t and u, and b doesn't
    let basis = basis_from(&ring, rt.alloc(), &names, 1, "t;u;t*u;b", "0;0;0;0")?;
    check_columns(&basis)?;
    assert!(rt; may_skip_by(&basis, rt.alloc(), &[(0, 2), (1, 2)], &[2])?);
    assert!(rt; !may_skip_by(&basis, rt.alloc(), &[(0, 2), (2, 3)], &[2])?);
    // by way of one of both, of the fourth, or of none
    let all = [(0, 2), (1, 2), (0, 3), (1, 3)];
    assert!(rt; !may_skip_by(&basis, rt.alloc(), &all, &[0, 1, 3, 9])?);
    Ok(())
}

#[test]
fn a_row_with_one_fraction(rt: HostRuntime) -> Result<(), Fail> {
    let ring = MixedRing::new(mixed(Order::DegRevLex)?);
    let names = letters(rt.alloc())?;
    let half = Rational::new(1, 2)?;
    let row = entry_row(rt.alloc(), OreRing::signature(&ring), 3, 2, half)?;
    assert!(rt; row_is(&ring, rt.alloc(), &names, &row, "0,0,1/2")?);
    Ok(())
}
