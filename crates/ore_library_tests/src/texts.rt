//! Rows and bases of texts.

ghost use Rattle.std.specs.Prelude.{◌≡◌, IfOk, length};
ghost use Rattle.ore_ring.specs.Belongs.{AllBelong};
ghost use Rattle.ore_rows.specs.StoredBasis.{BasisBelongs};

use crate::bases::add;
use ore_expr::read_operator;
use ore_ring::{Op, OreRing};
use ore_rows::{Basis, Row};
use ore_text::Names;
use std::alloc::Global;
use std::test::Fail;

/// The row of the operators between the commas.
pub(crate) fn row_from<R: OreRing>(
    ring: &R,
    alloc: Global,
    names: &Names,
    cols: usize,
    text: &str,
) -> Result<Row, Fail>
    requires { length names.now ≡ length (R.sig ring.now).kinds }
    ensures of { IfOk result (AllBelong (R.sig ring.now)) }
    ensures wide { IfOk result (λ r. length r ≡ cols) }
{
    let mut entries = Vec::new(alloc);
    for entry in text.split(',') {
        let Ok(operator) = read_operator(ring, alloc, names, entry.as_bytes()) else {
            return Err(Fail::new("an entry isn't read"))
        };
        entries.push(operator)?;
    }
    if entries.len() != cols {
        return Err(Fail::new("a row has another number of entries"));
    }
    Ok(Row::from_vec(entries))
}

// Whether operators are equal, as far as there are others beside them.
fn are_equal(operators: &[Op], others: &[Op]) -> bool {
    for (operator, other) in operators.iter().zip(others) {
        if !operator.equal(other) {
            return false;
        }
    }
    true
}

/// Whether a row is that of the text.
pub(crate) fn row_is<R: OreRing>(
    ring: &R,
    alloc: Global,
    names: &Names,
    row: &Row,
    text: &str,
) -> Result<bool, Fail>
    requires { length names.now ≡ length (R.sig ring.now).kinds }
{
    let expected = row_from(ring, alloc, names, row.len(), text)?;
    Ok(are_equal(row.entries(), expected.entries()))
}

/// The basis of the rows of a text, with the cofactor rows of another.
pub(crate) fn basis_from<R: OreRing>(
    ring: &R,
    alloc: Global,
    names: &Names,
    width: usize,
    rows: &str,
    cofactors: &str,
) -> Result<Basis, Fail>
    requires { length names.now ≡ length (R.sig ring.now).kinds }
    ensures of { IfOk result (λ b. BasisBelongs (R.sig ring.now) b.items) }
{
    let signature = ring.signature();
    let mut basis = Basis::new(alloc, 1, width);
    for (row, cofactor) in rows.split(';').zip(cofactors.split(';')) {
        let first = row_from(ring, alloc, names, 1, row)?;
        let second = row_from(ring, alloc, names, width, cofactor)?;
        add(&mut basis, signature, first, second)?;
    }
    Ok(basis)
}
