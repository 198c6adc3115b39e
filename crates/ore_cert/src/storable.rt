//! That what a certificate stores is in the program's ranges.
//!
//! The functions here go through a value and do nothing. Their contracts say what holds of each value of its type.

ghost use Rattle.std.specs.Prelude.{◌≡◌, slice_get};
ghost use Rattle.std.specs.List.{All};
ghost use Rattle.ore_ring.specs.Terms.{Summand, falling};
ghost use Rattle.ore_text.specs.Printable.{IsStorableTerm, IsStorable};
ghost use Rattle.ore_cert.specs.Storable.{IsStorableStep, AreStorableSteps, IsStorableEntry, AreStorablePairs, IsStorableRow, IsStorableMatrix, IsStorableExact, IsStorableOutside, IsStorableLink, IsStorableCertificate};

use crate::certificate::Certificate;
use ore_monomial::Exps;
use ore_parts::{ExactBlock, Link, Links, OutsideBlock, PairEntry, Pairs};
use ore_rational::Rational;
use ore_ring::Op;
use ore_rows::{Matrix, Row, Step, Steps};

/// The numbers and degrees of a certificate are in the program's ranges, and its lists are shorter than 2^63.
pub fn law_certificate_is_storable(cert: &Certificate)
    ensures { IsStorableCertificate cert.now }
{
    match cert {
        Certificate::Controllable { q, block } => with_exact(q, block),
        Certificate::AutonomousElement {
            element,
            operator,
            cofactor,
            block,
        } => autonomous(element, operator, cofactor, block),
        Certificate::LeftInverse { s } => matrix_is_storable(s),
        Certificate::RightInverse { s } => matrix_is_storable(s),
        Certificate::NoLeftInverse { block, .. } => outside_is_storable(block),
        Certificate::NoRightInverse { block, .. } => outside_is_storable(block),
        Certificate::Kernel {
            generators,
            block,
            ..
        } => with_exact(generators, block),
        Certificate::Resolution { links } => links_are_storable(links),
        Certificate::ExtZero { links, block } => extension_zero(links, block),
        Certificate::ExtNonzero {
            links,
            element,
            block,
        } => extension_nonzero(links, element, block),
        Certificate::Halted { .. } => (),
    }
}

fn with_exact(matrix: &Matrix, block: &ExactBlock)
    ensures matrix { IsStorableMatrix matrix.now }
    ensures block { IsStorableExact block.now }
{
    matrix_is_storable(matrix);
    exact_is_storable(block);
}

fn autonomous(element: &Row, operator: &Op, cofactor: &Row, block: &OutsideBlock)
    ensures element { IsStorableRow element.now }
    ensures operator { IsStorable operator.now.sum }
    ensures cofactor { IsStorableRow cofactor.now }
    ensures block { IsStorableOutside block.now }
{
    row_is_storable(element);
    operator_is_storable(operator);
    row_is_storable(cofactor);
    outside_is_storable(block);
}

fn extension_zero(links: &Links, block: &ExactBlock)
    ensures links { All IsStorableLink links.now }
    ensures block { IsStorableExact block.now }
{
    links_are_storable(links);
    exact_is_storable(block);
}

fn extension_nonzero(links: &Links, element: &Row, block: &OutsideBlock)
    ensures links { All IsStorableLink links.now }
    ensures element { IsStorableRow element.now }
    ensures block { IsStorableOutside block.now }
{
    links_are_storable(links);
    row_is_storable(element);
    outside_is_storable(block);
}

fn links_are_storable(links: &Links)
    ensures { All IsStorableLink links.now }
{
    for k in 0..links.len() {
        link_is_storable(links.get(k));
    }
}

fn link_is_storable(link: &Link)
    ensures { IsStorableLink link.now }
{
    matrix_is_storable(&link.l);
    exact_is_storable(&link.block);
}

fn exact_is_storable(block: &ExactBlock)
    ensures { IsStorableExact block.now }
{
    matrix_is_storable(&block.basis);
    matrix_is_storable(&block.from);
    matrix_is_storable(&block.to);
    pairs_are_storable(&block.pairs);
    matrix_is_storable(&block.inside);
}

fn outside_is_storable(block: &OutsideBlock)
    ensures { IsStorableOutside block.now }
{
    matrix_is_storable(&block.basis);
    matrix_is_storable(&block.from);
    pairs_are_storable(&block.pairs);
    steps_are_storable(&block.quotients);
    row_is_storable(&block.rest);
}

fn pairs_are_storable(pairs: &Pairs)
    ensures { AreStorablePairs pairs.now }
{
    pairs.few();
    each_pair(pairs);
}

fn each_pair(pairs: &Pairs)
    ensures { All IsStorableEntry pairs.now }
{
    for k in 0..pairs.len() {
        entry_is_storable(pairs.get(k));
    }
}

fn entry_is_storable(entry: &PairEntry)
    ensures { IsStorableEntry entry.now }
{
    match entry {
        PairEntry::Pair { steps, .. } => steps_are_storable(steps),
        PairEntry::Skip { .. } => (),
    }
}

fn steps_are_storable(steps: &Steps)
    ensures { AreStorableSteps steps.now }
{
    let _count = steps.len();
    each_step(steps);
}

fn each_step(steps: &Steps)
    ensures { All IsStorableStep steps.now }
{
    for k in 0..steps.len() {
        step_is_storable(steps.get(k));
    }
}

fn step_is_storable(step: &Step)
    ensures { IsStorableStep step.now }
{
    term_is_storable(&step.exps, &step.coef);
}

fn matrix_is_storable(matrix: &Matrix)
    ensures { IsStorableMatrix matrix.now }
{
    let _rows = matrix.rows();
    let _cols = matrix.cols();
    each_row(matrix);
}

fn each_row(matrix: &Matrix)
    ensures { All IsStorableRow matrix.now.rows }
{
    for k in 0..matrix.rows() {
        row_is_storable(matrix.row(k));
    }
}

fn row_is_storable(row: &Row)
    ensures { IsStorableRow row.now }
{
    let _count = row.entries().len();
    each_entry(row);
}

fn each_entry(row: &Row)
    ensures { All (λ f. IsStorable f.sum) row.now }
{
    for k in 0..row.len() {
        operator_is_storable(row.entry(k));
    }
}

fn operator_is_storable(op: &Op)
    ensures { IsStorable op.now.sum }
{
    for k in 0..op.len() {
        term_at(op, k);
    }
}

// The term at place `k`, if there is one.
fn term_at(op: &Op, k: usize)
    ensures { (t : Summand) → slice_get (falling op.now.by op.now.sum) k ≡ Some t → IsStorableTerm t }
{
    if let Some(term) = op.get(k) {
        term_is_storable(&term.0, &term.1);
    }
}

fn term_is_storable(exps: &Exps, coef: &Rational)
    ensures { IsStorableTerm (exps.now, coef.now) }
{
    let _degree = exps.degree();
    let _numerator = coef.numerator();
    let _denominator = coef.denominator();
}
