//! The last work of a search: forming the identities of the certificate that it found.

ghost use Rattle.std.specs.Prelude.{◌≡◌, IfOk};
ghost use Rattle.std.specs.List.{All};
ghost use Rattle.ore_algebra.specs.Limits.{program};
ghost use Rattle.ore_monomial.specs.Gives.{Gives};
ghost use Rattle.ore_ring.specs.Belongs.{AllBelong};
ghost use Rattle.ore_cert.specs.CertificateOf.{IsCertificateOf};
ghost use Rattle.ore_blocks.specs.CheckBlock.{row_matrix_of};
ghost use Rattle.ore_check.specs.Check.{IsNoReport, check};
ghost use Rattle.ore_check.specs.InnerContracts.{answer_stop};
ghost use Rattle.ore_check.specs.Plans.{IsFormed, formed_as};

use crate::answer::Checked;
use crate::certificate::check;
use ore_cert::Certificate;
use ore_monomial::RingStop;
use ore_ring::OreRing;
use ore_rows::Matrix;
use std::alloc::Global;

/// The certificate of the matrix `r`, once the identities are formed that its check calls for: the last work of every
/// search for a certificate. A condition that fails is passed over; of a certificate that a search finds none does.
///
/// The operators of both are of the signature of the ring, and the certificate is no report.
///
/// # Errors
/// The stop of the first operation that stops, and want of memory.
pub fn certify<R: OreRing>(
    ring: &R,
    alloc: Global,
    r: &Matrix,
    cert: Certificate,
) -> Result<Certificate, RingStop>
    requires of { All (AllBelong (R.sig ring.now)) r.now.rows }
    requires cert_of { IsCertificateOf (R.sig ring.now) cert }
    requires claims { IsNoReport cert }
    ensures formed { IsFormed (R.sig ring.now) (row_matrix_of r.now) cert result }
    ensures same { IfOk result (λ c. c ≡ cert) }
{
    form_identities(ring, alloc, r, &cert)?;
    Ok(cert)
}

// Forms the identities of a certificate, or stops.
fn form_identities<R: OreRing>(
    ring: &R,
    alloc: Global,
    r: &Matrix,
    cert: &Certificate,
) -> Result<(), RingStop>
    requires of { All (AllBelong (R.sig ring.now)) r.now.rows }
    requires cert_of { IsCertificateOf (R.sig ring.now) cert.now }
    requires claims { IsNoReport cert.now }
    ensures formed { (claims : IsNoReport cert.now) → Gives (λ _. cert.now) result (formed_as cert.now (check program (R.sig ring.now) (row_matrix_of r.now) cert.now claims)) }
{
    answer_stop(check(ring, alloc, r, cert))
}

// Why an operation stopped, where one did.
fn answer_stop(answer: Checked) -> Result<(), RingStop>
    ensures { result ≡ answer_stop answer }
{
    match answer {
        Checked::Valid | Checked::Invalid { .. } => Ok(()),
        Checked::Overflow { .. } => Err(RingStop::Overflow),
        Checked::Degree { .. } => Err(RingStop::Degree),
        Checked::Memory => Err(RingStop::Memory),
    }
}
