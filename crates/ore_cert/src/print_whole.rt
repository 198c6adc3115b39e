//! Prints certificates.

ghost use Rattle.std.specs.Prelude.{◌≡◌, ◌++◌, ◌∷◌, [], length, codes, IfOk, OnOk};
ghost use Rattle.std.specs.List.{flat_map};
ghost use Rattle.ore_ring.specs.Belongs.{Belongs, AllBelong};
ghost use Rattle.ore_text.specs.Lines.{line};
ghost use Rattle.ore_parts.specs.BlockText.{place, matrix_part, row_part, exact_text, outside_text};
ghost use Rattle.ore_parts.specs.OfSignature.{MatrixOf, IsExactOf, IsOutsideOf, IsLinkOf};
ghost use Rattle.ore_cert.specs.CertificateOf.{AreLinksOf, IsCertificateOf};
ghost use Rattle.ore_cert.specs.KindWords.{cause_words, kind_words};
ghost use Rattle.ore_cert.specs.WholeText.{choice_text, run_text, plan_words, stop_words, report_rest, generators_name, link_text, operator_line, rest_text, certificate_text, brief_text};

use crate::certificate::{Certificate, Side};
use crate::kind::Kind;
use crate::report::{Cause, Plan, Report, Stop};
use ore_monomial::{NoMemory, Signature};
use ore_parts::print_block::{append_count, append_one, append_skip, append_two};
use ore_parts::{
    ExactBlock, Link, Links, OutsideBlock, append_exact, append_matrix, append_outside,
    append_row_part,
};
use ore_ring::Op;
use ore_rows::{Choice, Choices, Matrix, Row, Runs};
use ore_text::{Algebra, Names, append_operator};
use std::alloc::Global;

/// The text of a certificate.
///
/// The certificate is of the signature, and there is one name for each variable.
///
/// # Errors
/// Want of memory.
pub fn print_certificate(
    alloc: Global,
    sig: &Signature,
    names: &Names,
    cert: &Certificate,
) -> Result<Vec<u8>, NoMemory>
    requires of { IsCertificateOf sig.now cert.now }
    requires names { length names.now ≡ length sig.now.kinds }
    ensures { IfOk result (λ text. text.items ≡ certificate_text names.now sig.now.order cert.now) }
{
    whole_text(alloc, &Algebra::new(sig, names), cert)
}

/// The kind of a certificate and what it claims, where it says that a module has no torsion, or has an element that is
/// torsion; else the whole text.
///
/// The certificate is of the signature, and there is one name for each variable.
///
/// # Errors
/// Want of memory.
pub fn print_brief(
    alloc: Global,
    sig: &Signature,
    names: &Names,
    cert: &Certificate,
) -> Result<Vec<u8>, NoMemory>
    requires of { IsCertificateOf sig.now cert.now }
    requires names { length names.now ≡ length sig.now.kinds }
    ensures { IfOk result (λ text. text.items ≡ brief_text names.now sig.now.order cert.now) }
{
    brief(alloc, &Algebra::new(sig, names), cert)
}

// The text of a certificate.
fn whole_text(alloc: Global, algebra: &Algebra<'_>, cert: &Certificate) -> Result<Vec<u8>, NoMemory>
    requires { IsCertificateOf algebra.now.signature.now cert.now }
    ensures { IfOk result (λ text. text.items ≡ certificate_text algebra.now.names.now algebra.now.signature.now.order cert.now) }
{
    let mut text = Vec::new(alloc);
    text.extend_from_slice(b"certificate 1\n")?;
    append_kind(&mut text, cert.kind())?;
    append_rest(alloc, &mut text, algebra, cert)?;
    text.extend_from_slice(b"end\n")?;
    Ok(text)
}

// What a verdict claims, and of another kind the whole text.
fn brief(alloc: Global, algebra: &Algebra<'_>, cert: &Certificate) -> Result<Vec<u8>, NoMemory>
    requires { IsCertificateOf algebra.now.signature.now cert.now }
    ensures { IfOk result (λ text. text.items ≡ brief_text algebra.now.names.now algebra.now.signature.now.order cert.now) }
{
    match cert {
        Certificate::Controllable { q, .. } => print_controllable(alloc, algebra, cert.word(), q),
        Certificate::AutonomousElement {
            element,
            operator,
            ..
        } => print_autonomous(alloc, algebra, cert.word(), element, operator),
        Certificate::LeftInverse { .. } => whole_text(alloc, algebra, cert),
        Certificate::RightInverse { .. } => whole_text(alloc, algebra, cert),
        Certificate::NoLeftInverse { .. } => whole_text(alloc, algebra, cert),
        Certificate::NoRightInverse { .. } => whole_text(alloc, algebra, cert),
        Certificate::Kernel { .. } => whole_text(alloc, algebra, cert),
        Certificate::Resolution { .. } => whole_text(alloc, algebra, cert),
        Certificate::ExtZero { .. } => whole_text(alloc, algebra, cert),
        Certificate::ExtNonzero { .. } => whole_text(alloc, algebra, cert),
        Certificate::Halted { .. } => whole_text(alloc, algebra, cert),
    }
}

// The line of the word, and the matrix Q.
fn print_controllable(
    alloc: Global,
    algebra: &Algebra<'_>,
    word: &[u8],
    q: &Matrix,
) -> Result<Vec<u8>, NoMemory>
    requires { MatrixOf algebra.now.signature.now q.now }
    ensures { IfOk result (λ text. text.items ≡ line (word.now ∷ []) ++ matrix_part algebra.now.names.now algebra.now.signature.now.order (codes "Q") q.now) }
{
    let mut text = Vec::new(alloc);
    append_word(&mut text, word)?;
    append_matrix(&mut text, algebra, b"Q", q)?;
    Ok(text)
}

// The line of the word, the element and the operator.
fn print_autonomous(
    alloc: Global,
    algebra: &Algebra<'_>,
    word: &[u8],
    element: &Row,
    operator: &Op,
) -> Result<Vec<u8>, NoMemory>
    requires element { AllBelong algebra.now.signature.now element.now }
    requires operator { Belongs algebra.now.signature.now operator.now }
    ensures { IfOk result (λ text. text.items ≡ line (word.now ∷ []) ++ (row_part algebra.now.names.now algebra.now.signature.now.order (codes "element") element.now
        ++ operator_line algebra.now.names.now algebra.now.signature.now.order (codes "operator") operator.now)) }
{
    let mut text = Vec::new(alloc);
    append_word(&mut text, word)?;
    append_row_part(&mut text, algebra, b"element", element)?;
    append_operator_line(&mut text, algebra, b"operator", operator)?;
    Ok(text)
}

// Appends the line of a kind.
fn append_kind(out: &mut Vec<u8>, kind: Kind) -> Result<(), NoMemory>
    ensures { OnOk result (out.new.items ≡ out.old.items ++ (kind_words kind ++ 10 ∷ [])) }
{
    let word = kind.word();
    match kind {
        Kind::Controllable => append_word(out, word),
        Kind::AutonomousElement => append_word(out, word),
        Kind::LeftInverse => append_word(out, word),
        Kind::RightInverse => append_word(out, word),
        Kind::NoLeftInverse => append_word(out, word),
        Kind::NoRightInverse => append_word(out, word),
        Kind::KernelLeft => append_pair_of_words(out, word, b"left"),
        Kind::KernelRight => append_pair_of_words(out, word, b"right"),
        Kind::Resolution { count } => append_count(out, word, count),
        Kind::ExtZero { count } => append_count(out, word, count),
        Kind::ExtNonzero { count } => append_count(out, word, count),
        Kind::Halted { cause } => append_cause(out, word, &cause),
    }
}

// Appends the line of one word.
fn append_word(out: &mut Vec<u8>, word: &[u8]) -> Result<(), NoMemory>
    ensures { OnOk result (out.new.items ≡ out.old.items ++ line (word.now ∷ [])) }
{
    out.extend_from_slice(word)?;
    out.push(b'\n')?;
    Ok(())
}

// Appends the line of two words.
fn append_pair_of_words(out: &mut Vec<u8>, first: &[u8], second: &[u8]) -> Result<(), NoMemory>
    ensures { OnOk result (out.new.items ≡ out.old.items ++ line (first.now ∷ second.now ∷ [])) }
{
    out.extend_from_slice(first)?;
    out.push(b' ')?;
    append_word(out, second)
}

// Appends what stands between the line of the kind and the last line.
fn append_rest(
    alloc: Global,
    out: &mut Vec<u8>,
    algebra: &Algebra<'_>,
    cert: &Certificate,
) -> Result<(), NoMemory>
    requires { IsCertificateOf algebra.now.signature.now cert.now }
    ensures { OnOk result (out.new.items ≡ out.old.items ++ rest_text algebra.now.names.now algebra.now.signature.now.order cert.now) }
{
    match cert {
        Certificate::Controllable { q, block } => {
            append_with_exact(alloc, out, algebra, b"Q", q, block)
        }
        Certificate::AutonomousElement {
            element,
            operator,
            cofactor,
            block,
        } => append_autonomous(alloc, out, algebra, element, operator, cofactor, block),
        Certificate::LeftInverse { s } => append_matrix(out, algebra, b"S", s),
        Certificate::RightInverse { s } => append_matrix(out, algebra, b"S", s),
        Certificate::NoLeftInverse { unit, block } | Certificate::NoRightInverse { unit, block } =>
            { append_with_unit(alloc, out, algebra, *unit, block) }
        Certificate::Kernel {
            side,
            generators,
            block,
        } => append_generators(alloc, out, algebra, side, generators, block),
        Certificate::Resolution { links } => append_links(alloc, out, algebra, links),
        Certificate::ExtZero { links, block } => {
            append_ext_zero(alloc, out, algebra, links, block)
        }
        Certificate::ExtNonzero {
            links,
            element,
            block,
        } => append_ext_nonzero(alloc, out, algebra, links, element, block),
        Certificate::Halted { report } => append_report_rest(out, report),
    }
}

// Appends the matrix of a name, and a block.
fn append_with_exact(
    alloc: Global,
    out: &mut Vec<u8>,
    algebra: &Algebra<'_>,
    name: &[u8],
    matrix: &Matrix,
    block: &ExactBlock,
) -> Result<(), NoMemory>
    requires matrix { MatrixOf algebra.now.signature.now matrix.now }
    requires block { IsExactOf algebra.now.signature.now block.now }
    ensures { OnOk result (out.new.items ≡ out.old.items ++ (matrix_part algebra.now.names.now algebra.now.signature.now.order name.now matrix.now ++ exact_text algebra.now.names.now algebra.now.signature.now.order block.now)) }
{
    append_matrix(out, algebra, name, matrix)?;
    append_exact(alloc, out, algebra, block)
}

// Appends an element, the operator and the cofactor row, and a block.
fn append_autonomous(
    alloc: Global,
    out: &mut Vec<u8>,
    algebra: &Algebra<'_>,
    element: &Row,
    operator: &Op,
    cofactor: &Row,
    block: &OutsideBlock,
) -> Result<(), NoMemory>
    requires element { AllBelong algebra.now.signature.now element.now }
    requires operator { Belongs algebra.now.signature.now operator.now }
    requires cofactor { AllBelong algebra.now.signature.now cofactor.now }
    requires block { IsOutsideOf algebra.now.signature.now block.now }
    ensures { OnOk result (out.new.items ≡ out.old.items ++ (row_part algebra.now.names.now algebra.now.signature.now.order (codes "element") element.now
        ++ (operator_line algebra.now.names.now algebra.now.signature.now.order (codes "operator") operator.now ++ (row_part algebra.now.names.now algebra.now.signature.now.order (codes "cofactor") cofactor.now ++ outside_text algebra.now.names.now algebra.now.signature.now.order block.now)))) }
{
    append_row_part(out, algebra, b"element", element)?;
    append_operator_line(out, algebra, b"operator", operator)?;
    append_row_part(out, algebra, b"cofactor", cofactor)?;
    append_outside(alloc, out, algebra, block)
}

// Appends the place of the unit row, and a block.
fn append_with_unit(
    alloc: Global,
    out: &mut Vec<u8>,
    algebra: &Algebra<'_>,
    unit: usize,
    block: &OutsideBlock,
) -> Result<(), NoMemory>
    requires { IsOutsideOf algebra.now.signature.now block.now }
    ensures { OnOk result (out.new.items ≡ out.old.items ++ (line (codes "unit" ∷ place unit ∷ []) ++ outside_text algebra.now.names.now algebra.now.signature.now.order block.now)) }
{
    append_one(out, b"unit", unit)?;
    append_outside(alloc, out, algebra, block)
}

// Appends the generators of a kernel, and a block.
fn append_generators(
    alloc: Global,
    out: &mut Vec<u8>,
    algebra: &Algebra<'_>,
    side: &Side,
    generators: &Matrix,
    block: &ExactBlock,
) -> Result<(), NoMemory>
    requires generators { MatrixOf algebra.now.signature.now generators.now }
    requires block { IsExactOf algebra.now.signature.now block.now }
    ensures { OnOk result (out.new.items ≡ out.old.items ++ (matrix_part algebra.now.names.now algebra.now.signature.now.order (generators_name side.now) generators.now ++ exact_text algebra.now.names.now algebra.now.signature.now.order block.now)) }
{
    let name = generators_name(side);
    append_with_exact(alloc, out, algebra, name, generators, block)
}

// The name of the generators of a kernel.
fn generators_name(side: &Side) -> &'static [u8]
    ensures { result.now ≡ generators_name side.now }
{
    match side {
        Side::Left => b"L",
        Side::Right => b"Q",
    }
}

fn append_links(
    alloc: Global,
    out: &mut Vec<u8>,
    algebra: &Algebra<'_>,
    links: &Links,
) -> Result<(), NoMemory>
    requires { AreLinksOf algebra.now.signature.now links.now }
    ensures { OnOk result (out.new.items ≡ out.old.items ++ flat_map (link_text algebra.now.names.now algebra.now.signature.now.order) links.now) }
{
    for k in 0..links.len() {
        append_link(alloc, out, algebra, links.get(k))?;
    }
    Ok(())
}

fn append_link(
    alloc: Global,
    out: &mut Vec<u8>,
    algebra: &Algebra<'_>,
    link: &Link,
) -> Result<(), NoMemory>
    requires { IsLinkOf algebra.now.signature.now link.now }
    ensures { OnOk result (out.new.items ≡ out.old.items ++ link_text algebra.now.names.now algebra.now.signature.now.order link.now) }
{
    append_with_exact(alloc, out, algebra, b"L", &link.l, &link.block)
}

// Appends links, and a block.
fn append_ext_zero(
    alloc: Global,
    out: &mut Vec<u8>,
    algebra: &Algebra<'_>,
    links: &Links,
    block: &ExactBlock,
) -> Result<(), NoMemory>
    requires links { AreLinksOf algebra.now.signature.now links.now }
    requires block { IsExactOf algebra.now.signature.now block.now }
    ensures { OnOk result (out.new.items ≡ out.old.items ++ (flat_map (link_text algebra.now.names.now algebra.now.signature.now.order) links.now ++ exact_text algebra.now.names.now algebra.now.signature.now.order block.now)) }
{
    append_links(alloc, out, algebra, links)?;
    append_exact(alloc, out, algebra, block)
}

// Appends links, an element, and a block.
fn append_ext_nonzero(
    alloc: Global,
    out: &mut Vec<u8>,
    algebra: &Algebra<'_>,
    links: &Links,
    element: &Row,
    block: &OutsideBlock,
) -> Result<(), NoMemory>
    requires links { AreLinksOf algebra.now.signature.now links.now }
    requires element { AllBelong algebra.now.signature.now element.now }
    requires block { IsOutsideOf algebra.now.signature.now block.now }
    ensures { OnOk result (out.new.items ≡ out.old.items ++ (flat_map (link_text algebra.now.names.now algebra.now.signature.now.order) links.now
        ++ (row_part algebra.now.names.now algebra.now.signature.now.order (codes "element") element.now ++ outside_text algebra.now.names.now algebra.now.signature.now.order block.now))) }
{
    append_links(alloc, out, algebra, links)?;
    append_row_part(out, algebra, b"element", element)?;
    append_outside(alloc, out, algebra, block)
}

// Appends the line of a word and an operator.
fn append_operator_line(
    out: &mut Vec<u8>,
    algebra: &Algebra<'_>,
    word: &[u8],
    operator: &Op,
) -> Result<(), NoMemory>
    requires { Belongs algebra.now.signature.now operator.now }
    ensures { OnOk result (out.new.items ≡ out.old.items ++ operator_line algebra.now.names.now algebra.now.signature.now.order word.now operator.now) }
{
    out.extend_from_slice(word)?;
    out.push(b' ')?;
    append_operator(out, algebra, operator)?;
    out.push(b'\n')?;
    Ok(())
}

// Appends the lines of a report but for that of its cause.
fn append_report_rest(out: &mut Vec<u8>, report: &Report) -> Result<(), NoMemory>
    ensures { OnOk result (out.new.items ≡ out.old.items ++ report_rest report.now) }
{
    append_plan(out, &report.plan)?;
    append_runs(out, &report.runs)?;
    append_stop(out, &report.stop)
}

// Appends the line of a word and a cause.
fn append_cause(out: &mut Vec<u8>, word: &[u8], cause: &Cause) -> Result<(), NoMemory>
    ensures { OnOk result (out.new.items ≡ out.old.items ++ line (word.now ∷ cause_words cause.now)) }
{
    out.extend_from_slice(word)?;
    match cause {
        Cause::Overflow => out.extend_from_slice(b" overflow\n")?,
        Cause::Degree => out.extend_from_slice(b" degree\n")?,
        Cause::Budget(treated) => append_count(out, b" budget", *treated as usize)?,
    }
    Ok(())
}

fn append_plan(out: &mut Vec<u8>, plan: &Plan) -> Result<(), NoMemory>
    ensures { OnOk result (out.new.items ≡ out.old.items ++ line (codes "plan" ∷ plan_words plan.now)) }
{
    match plan {
        Plan::Analyse => out.extend_from_slice(b"plan analyse\n")?,
        Plan::KernelLeft => out.extend_from_slice(b"plan kernel left\n")?,
        Plan::KernelRight => out.extend_from_slice(b"plan kernel right\n")?,
        Plan::InverseLeft => out.extend_from_slice(b"plan inverse left\n")?,
        Plan::InverseRight => out.extend_from_slice(b"plan inverse right\n")?,
        Plan::Resolve(links) => append_count(out, b"plan resolve", *links as usize)?,
        Plan::Ext(place) => append_count(out, b"plan ext", *place as usize)?,
        Plan::Adjoint => out.extend_from_slice(b"plan adjoint\n")?,
    }
    Ok(())
}

fn append_runs(out: &mut Vec<u8>, runs: &Runs) -> Result<(), NoMemory>
    ensures { OnOk result (out.new.items ≡ out.old.items ++ flat_map run_text runs.now) }
{
    for k in 0..runs.len() {
        append_run(out, runs.get(k))?;
    }
    Ok(())
}

// Appends the number of choices of a run, and the choices.
fn append_run(out: &mut Vec<u8>, choices: &Choices) -> Result<(), NoMemory>
    ensures { OnOk result (out.new.items ≡ out.old.items ++ run_text choices.now) }
{
    append_count(out, b"run", choices.len())?;
    append_choices(out, choices)
}

fn append_choices(out: &mut Vec<u8>, choices: &Choices) -> Result<(), NoMemory>
    ensures { OnOk result (out.new.items ≡ out.old.items ++ flat_map choice_text choices.now) }
{
    for k in 0..choices.len() {
        append_choice(out, choices.get(k))?;
    }
    Ok(())
}

fn append_choice(out: &mut Vec<u8>, choice: &Choice) -> Result<(), NoMemory>
    ensures { OnOk result (out.new.items ≡ out.old.items ++ choice_text choice.now) }
{
    match choice {
        Choice::Treat { i, j } => append_two(out, b"treat", *i, *j),
        Choice::Skip { i, j, via } => append_skip(out, *i, *j, *via),
    }
}

fn append_stop(out: &mut Vec<u8>, stop: &Stop) -> Result<(), NoMemory>
    ensures { OnOk result (out.new.items ≡ out.old.items ++ line (codes "stop" ∷ stop_words stop.now)) }
{
    match stop {
        Stop::Forced => {
            out.extend_from_slice(b"stop forced\n")?;
            Ok(())
        }
        Stop::Treat { i, j } => append_two(out, b"stop treat", *i, *j),
        Stop::Budget => {
            out.extend_from_slice(b"stop budget\n")?;
            Ok(())
        }
    }
}
