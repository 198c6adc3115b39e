//! The lines of certificates with links.
//!
//! Some links may have more lines than 128 bits count. So a line past 2^64 - 1, for which the answer has 2^64 - 1, may be
//! replaced by another such.

ghost use Rattle.std.specs.Prelude.{◌≡◌, ◌≤◌, ◌^◌, ℕ, List, length};
ghost use Rattle.ore_ring.specs.Ordered.{Ordered};
ghost use Rattle.ore_check.specs.Check.{capped};
ghost use Rattle.ore_check.specs.InnerContracts.{AreSameLine, IsLow, behind_first};
ghost use Rattle.ore_check.specs.Layout.{link_layout, link_line, linked_line, section_of, line_in};
ghost use Rattle.ore_cert.specs.declared.certificate.Certificate.{Certificate};

use crate::layout::{Layout, behind, exact_layout, line_of, outside_layout};
use ore_blocks::{Place, Section};
use ore_cert::{ExactBlock, Link, Links, OutsideBlock};

/// The line of a place of a resolution.
pub fn resolution_line(links: &Links, place: Place) -> u128
    ensures { capped result ≡ capped (line_in (Certificate.Resolution links.now) place) }
{
    linked_line(links, behind_links(links, links.len()), place)
}

/// The line of a place of a certificate that an extension module is zero.
pub fn zero_line(links: &Links, block: &ExactBlock, place: Place) -> u128
    ensures { capped result ≡ capped (line_in (Certificate.ExtZero links.now block.now) place) }
{
    let first = behind_links(links, links.len());
    let line = line_of(&exact_layout(0, first, block), &block.pairs, place);
    linked_line(links, line, place)
}

/// The line of a place of a certificate that an extension module isn't zero.
pub fn nonzero_line(links: &Links, block: &OutsideBlock, place: Place) -> u128
    ensures { (element : List Ordered) → capped result ≡ capped (line_in (Certificate.ExtNonzero links.now element block.now) place) }
{
    let first = behind_links(links, links.len());
    let line = line_of(
        &outside_layout(first, first + 2, block),
        &block.pairs,
        place,
    );
    linked_line(links, line, place)
}

// The line of a place in some links, or else this one.
fn linked_line(links: &Links, line: u128, place: Place) -> u128
    ensures { (other : ℕ) → AreSameLine line other → AreSameLine result (linked_line links.now other place (section_of place)) }
{
    match section_of(place) {
        Section::Link(i) => link_line(links, i, place),
        Section::Body => line,
    }
}

// The section of a place.
fn section_of(place: Place) -> Section
    ensures { result ≡ section_of place }
{
    match place {
        Place::Header(section, _) => section,
        Place::Row(section, _, _) => section,
        Place::Block(section) => section,
        Place::Pairs(section) => section,
        Place::Pair(section, _, _) => section,
        Place::Operator => Section::Body,
        Place::Unit => Section::Body,
        Place::Step(_) => Section::Body,
        Place::End => Section::Body,
    }
}

// The line of a place in link `i`, where there is one.
fn link_line(links: &Links, i: usize, place: Place) -> u128
    ensures { AreSameLine result (link_line 3 links.now i place) }
{
    if i >= links.len() {
        return behind_links(links, links.len());
    }
    let link = links.get(i);
    let layout = link_layout(behind_links(links, i), link);
    line_of(&layout, &link.block.pairs, place)
}

// The line behind the first `k` links.
fn behind_links(links: &Links, k: usize) -> u128
    requires { k ≤ length links.now }
    ensures same { AreSameLine result (behind_first 3 links.now k) }
    ensures low { result ≤ 2 ^ 65 }
{
    let mut line = 3;
    for n in 0..k {
        line = behind_link(line, links.get(n));
    }
    line
}

// The line behind a link that begins at a line.
fn behind_link(line: u128, link: &Link) -> u128
    requires { line ≤ 2 ^ 65 }
    ensures same { AreSameLine result (link_layout line link.now).end }
    ensures low { result ≤ 2 ^ 65 }
{
    low(link_layout(line, link).end)
}

// The layout of a link that begins at a line.
fn link_layout(line: u128, link: &Link) -> Layout
    requires { line ≤ 2 ^ 65 }
    ensures value { result ≡ link_layout line link.now }
    ensures low { IsLow result }
{
    exact_layout(line, behind(line, &link.l), &link.block)
}

// A line, or another past 2^64 - 1.
fn low(line: u128) -> u128
    ensures same { AreSameLine result line }
    ensures low { result ≤ 2 ^ 65 }
{
    if line <= 36_893_488_147_419_103_232 {
        line
    } else {
        36_893_488_147_419_103_232
    }
}
