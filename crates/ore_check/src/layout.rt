//! The lines of the text of a certificate at which its places stand.
//!
//! Conditions are said of places, so another form of the text would be another layout.

ghost use Rattle.std.specs.Prelude.{◌≡◌, ◌+◌, ◌<◌, ◌≤◌, ◌^◌, suc, [], length};
ghost use Rattle.ore_check.specs.Layout.{entry_lines, exact_layout, exact_line, inverse_layout, line_in, line_of, lines_before, outside_layout, outside_line, start_of};
ghost use Rattle.ore_check.specs.Check.{IsNoReport, capped};
ghost use Rattle.ore_check.specs.InnerContracts.{IsLow};

use crate::link_lines::{nonzero_line, resolution_line, zero_line};
use ore_blocks::{Name, Place};
use ore_cert::{Certificate, ExactBlock, OutsideBlock, PairEntry, Pairs};
use ore_rows::Matrix;
use std::alloc::Global;

/// The lines at which the parts of a section begin. A part that the section hasn't has the line 0.
#[derive(Clone, Copy, Debug, PartialEq, Eq, Drop)]
pub struct Layout {
    /// What is claimed: a matrix, an element or the number of a unit row.
    pub claim: u128,
    /// The block.
    pub block: u128,
    /// The matrix `from` of the block.
    pub from: u128,
    /// The matrix `to` of the block.
    pub to: u128,
    /// The pairs of the block.
    pub pairs: u128,
    /// The matrix `inside` of the block.
    pub inside: u128,
    /// The steps of the block.
    pub steps: u128,
    /// The matrix `rest` of the block.
    pub rest: u128,
    /// What stands behind the section.
    pub end: u128,
}

/// The line of a place of a certificate, from 1; of a line past 2^64 - 1, that it is. A report must not be handed in.
pub fn line_in(alloc: Global, cert: &Certificate, place: Place) -> u128
    requires claims { IsNoReport cert.now }
    ensures { capped result ≡ capped (line_in cert.now place) }
{
    match cert {
        Certificate::Controllable { q, block } => exact_line(behind(3, q), block, place),
        Certificate::AutonomousElement { block, .. } => outside_line(8, block, place),
        Certificate::LeftInverse { s } => inverse_line(alloc, s, place),
        Certificate::RightInverse { s } => inverse_line(alloc, s, place),
        Certificate::NoLeftInverse { block, .. } => outside_line(4, block, place),
        Certificate::NoRightInverse { block, .. } => outside_line(4, block, place),
        Certificate::Kernel {
            generators,
            block,
            ..
        } => exact_line(behind(3, generators), block, place),
        Certificate::Resolution { links } => resolution_line(links, place),
        Certificate::ExtZero { links, block } => zero_line(links, block, place),
        Certificate::ExtNonzero { links, block, .. } => nonzero_line(links, block, place),
        Certificate::Halted { .. } => unreachable!(),
    }
}

/// The line of a place of an exact block that begins at a line.
pub fn exact_line(first: u128, block: &ExactBlock, place: Place) -> u128
    requires low { first < 2 ^ 66 }
    ensures { result ≡ exact_line first block.now place }
{
    line_of(&exact_layout(3, first, block), &block.pairs, place)
}

/// The line of a place of an outside block that begins at a line.
pub fn outside_line(first: u128, block: &OutsideBlock, place: Place) -> u128
    requires low { first < 2 ^ 66 }
    ensures { result ≡ outside_line first block.now place }
{
    line_of(&outside_layout(3, first, block), &block.pairs, place)
}

// The line of a place of an inverse.
fn inverse_line(alloc: Global, s: &Matrix, place: Place) -> u128
    ensures { result ≡ line_of (inverse_layout s.now) [] place }
{
    let layout = Layout {
        claim: 3,
        block: 0,
        from: 0,
        to: 0,
        pairs: 0,
        inside: 0,
        steps: 0,
        rest: 0,
        end: behind(3, s),
    };
    line_of(&layout, &Pairs::from_vec(Vec::new(alloc)), place)
}

/// The layout of a section with its claim at a line, and an exact block at another.
pub fn exact_layout(claim: u128, block_line: u128, block: &ExactBlock) -> Layout
    requires claim { claim < 2 ^ 66 }
    requires low { block_line < 2 ^ 67 }
    ensures value { result ≡ exact_layout claim block_line block.now }
    ensures low { IsLow result }
{
    let from = behind(block_line + 1, &block.basis);
    let to = behind(from, &block.from);
    let pairs = behind(to, &block.to);
    let inside = pairs + 1 + lines_before(&block.pairs, block.pairs.len());
    Layout {
        claim,
        block: block_line,
        from,
        to,
        pairs,
        inside,
        steps: 0,
        rest: 0,
        end: behind(inside, &block.inside),
    }
}

/// The layout of a section with its claim at a line, and an outside block at another.
pub fn outside_layout(claim: u128, block_line: u128, block: &OutsideBlock) -> Layout
    requires claim { claim < 2 ^ 66 }
    requires low { block_line < 2 ^ 67 }
    ensures value { result ≡ outside_layout claim block_line block.now }
    ensures low { IsLow result }
{
    let from = behind(block_line + 1, &block.basis);
    let pairs = behind(from, &block.from);
    let steps = pairs + 1 + lines_before(&block.pairs, block.pairs.len());
    let rest = steps + 1 + block.quotients.len() as u128;
    Layout {
        claim,
        block: block_line,
        from,
        to: 0,
        pairs,
        inside: 0,
        steps,
        rest,
        end: rest + 2,
    }
}

/// The line of a place, by the layout and the pairs of its section.
pub fn line_of(layout: &Layout, pairs: &Pairs, place: Place) -> u128
    requires low { IsLow layout.now }
    ensures { result ≡ line_of layout.now pairs.now place }
{
    match place {
        Place::Header(_, name) => start_of(layout, name),
        Place::Row(_, name, k) => start_of(layout, name) + 1 + k as u128,
        Place::Operator => layout.claim + 2,
        Place::Unit => layout.claim,
        Place::Block(_) => layout.block,
        Place::Pairs(_) => layout.pairs,
        Place::Pair(_, k, n) => layout.pairs + 1 + lines_before(pairs, k) + n as u128,
        Place::Step(n) => layout.steps + n as u128,
        Place::End => layout.end,
    }
}

// The line that names a matrix.
fn start_of(layout: &Layout, name: Name) -> u128
    requires low { IsLow layout.now }
    ensures value { result ≡ start_of layout.now name }
    ensures low { result < 2 ^ 127 + 2 ^ 80 }
{
    match name {
        Name::Generators => layout.claim,
        Name::Inverse => layout.claim,
        Name::Element => layout.claim,
        Name::Cofactor => layout.claim + 3,
        Name::Basis => layout.block + 1,
        Name::From => layout.from,
        Name::To => layout.to,
        Name::Inside => layout.inside,
        Name::Rest => layout.rest,
    }
}

/// The line behind a matrix that begins at a line.
pub fn behind(line: u128, m: &Matrix) -> u128
    requires low { line < 2 ^ 127 + 2 ^ 75 }
    ensures value { result ≡ line + suc (length m.now.rows) }
    ensures low { result ≤ line + 2 ^ 64 }
{
    line + 1 + m.rows() as u128
}

// How many lines the first `k` pairs have.
fn lines_before(pairs: &Pairs, k: usize) -> u128
    ensures value { result ≡ lines_before pairs.now k }
    ensures low { result ≤ 2 ^ 127 }
{
    pairs.few();
    let mut lines = 0;
    for n in 0..k {
        if n >= pairs.len() {
            return lines;
        }
        lines += entry_lines(pairs.get(n));
    }
    lines
}

// How many lines a pair has.
#[tactic(auto, unfolding(crate::specs::Layout::entry_lines))]
fn entry_lines(entry: &PairEntry) -> u128
    ensures value { result ≡ entry_lines entry.now }
    ensures low { result ≤ 2 ^ 64 }
{
    match entry {
        PairEntry::Pair { steps, .. } => 1 + steps.len() as u128,
        PairEntry::Skip { .. } => 1,
    }
}
