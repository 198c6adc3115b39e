//! Rows that are put into a basis.

ghost use Rattle.std.specs.Prelude.{◌≡◌, IfOk, length};
ghost use Rattle.ore_ring.specs.Belongs.{AllBelong};
ghost use Rattle.ore_rows.specs.StoredBasis.{BasisBelongs};

use ore_monomial::Signature;
use ore_rational::Rational;
use ore_rows::{Basis, Row, row_lead};
use std::test::Fail;

/// One more row of a basis, where its lead coefficient is 1.
pub(crate) fn add(
    basis: &mut Basis,
    signature: &Signature,
    row: Row,
    cofactor: Row,
) -> Result<(), Fail>
    requires row_width { length row ≡ basis.old.cols }
    requires cofactor_width { length cofactor ≡ basis.old.width }
    requires row_of { AllBelong signature.now row }
    requires cofactor_of { AllBelong signature.now cofactor }
    requires of { BasisBelongs signature.now basis.old.items }
    ensures of { IfOk result (λ _. BasisBelongs signature.now basis.new.items) }
    ensures cols { IfOk result (λ _. basis.new.cols ≡ basis.old.cols) }
    ensures width { IfOk result (λ _. basis.new.width ≡ basis.old.width) }
{
    let Some(found) = row_lead(signature, &row) else {
        return Err(Fail::new("a row is zero"))
    };
    if found.2 != Rational::one() {
        return Err(Fail::new("a lead coefficient isn't 1"));
    }
    basis.push(signature, row, cofactor)?;
    Ok(())
}
