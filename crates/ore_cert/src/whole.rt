//! Reads certificates.

ghost use Rattle.std.specs.Prelude.{◌≡◌, length, IfOk, IfErr};
ghost use Rattle.ore_cert.specs.declared.certificate.Certificate as certificate;
ghost use Rattle.ore_parts.specs.Formats.{ReadsOne};
ghost use Rattle.ore_cert.specs.CertificateOf.{IsCertificateOf};
ghost use Rattle.ore_parts.specs.Reading.{IsFaultOf};
ghost use Rattle.ore_cert.specs.WholeFormats.{closed_format, kinds_format, certificate_format};
ghost use Rattle.ore_cert.specs.WholeText.{certificate_text, IsWrittenCertificate, IsCertificate};

use crate::bodies::read_body;
use crate::certificate::Certificate;
use crate::kind::{Kind, read_kind};
use ore_monomial::Signature;
use ore_parts::{CertFault, Lines};
use ore_text::{Algebra, Names};
use std::alloc::Global;

/// The certificate whose text this is.
///
/// # Errors
/// The faulty line, from 1: the first that no certificate with the same lines before it has there; and want of memory.
pub fn read_certificate(
    alloc: Global,
    sig: &Signature,
    names: &Names,
    text: &[u8],
) -> Result<Certificate, CertFault>
    requires { length names.now ≡ length sig.now.kinds }
    ensures found { IfOk result (λ c. IsWrittenCertificate sig.now names.now c × (text.now ≡ certificate_text names.now sig.now.order c)) }
    ensures of { IfOk result (IsCertificateOf sig.now) }
    ensures only { IfOk result (λ c. (other : certificate.Certificate) → IsWrittenCertificate sig.now names.now other → text.now ≡ certificate_text names.now sig.now.order other → c ≡ other) }
    ensures faulty { IfErr result (IsFaultOf (IsCertificate sig.now names.now) text.now) }
{
    let mut lines = Lines::new(text);
    let cert = read_headed(alloc, &Algebra::new(sig, names), &mut lines)?;
    lines.expect_end()?;
    Ok(cert)
}

// The first line, and what follows it.
fn read_headed(
    alloc: Global,
    algebra: &Algebra<'_>,
    lines: &mut Lines<'_>,
) -> Result<Certificate, CertFault>
    ensures { ReadsOne (certificate_format algebra.now.signature.now algebra.now.names.now) lines.old result lines.new }
{
    lines.expect(b"certificate 1\n")?;
    read_of_kind(alloc, algebra, lines)
}

// The line of the kind, and what follows it.
fn read_of_kind(
    alloc: Global,
    algebra: &Algebra<'_>,
    lines: &mut Lines<'_>,
) -> Result<Certificate, CertFault>
    ensures { ReadsOne (kinds_format algebra.now.signature.now algebra.now.names.now) lines.old result lines.new }
{
    let kind = read_kind(lines)?;
    read_closed(alloc, algebra, kind, lines)
}

// The rest of a certificate of this kind, and the last line.
fn read_closed(
    alloc: Global,
    algebra: &Algebra<'_>,
    kind: Kind,
    lines: &mut Lines<'_>,
) -> Result<Certificate, CertFault>
    ensures { ReadsOne (closed_format algebra.now.signature.now algebra.now.names.now kind) lines.old result lines.new }
{
    let cert = read_body(alloc, algebra, kind, lines)?;
    lines.expect(b"end\n")?;
    Ok(cert)
}
