//! Laws of the texts of certificates.

ghost use Rattle.std.specs.Prelude.{ℕ, List};
ghost use Rattle.ore_monomial.specs.Signature.{Signature};
ghost use Rattle.ore_cert.specs.CertificateLaws.{PrintedCertificateIsRead, TextIsOfOne};
ghost use Rattle.ore_parts.specs.FaultyLine.{HasOneFaultyLine};
ghost use Rattle.ore_cert.specs.WholeText.{IsCertificate};

/// What is printed of a certificate that may be written is read as that certificate, where there is memory.
pub fn law_printed_is_read()
    ensures { PrintedCertificateIsRead }
{}

/// No text is that of two certificates.
pub fn law_text_is_of_one()
    ensures { TextIsOfOne }
{}

/// A text has at most one faulty line, and none where it is the text of a certificate.
pub fn law_faulty_line_is_one()
    ensures { (s : Signature) (names : List (List ℕ)) → HasOneFaultyLine (IsCertificate s names) }
{}
