//! Signatures: the variables of an algebra.

ghost use Rattle.std.specs.Prelude.{◌≡◌, ◌<◌, ◌≤◌, ◌↔◌, length, slice_index_or, IsOk, IfOk, IfErr, IsTrue};
ghost use Rattle.std.specs.List.{list_any};
ghost use Rattle.std.specs.declared.option.Option.TheVariants.{None, Some};
ghost use Rattle.ore_monomial.specs.FaultWords.{signature_word};
ghost use Rattle.ore_monomial.specs.Signature.{first_fault, kind_at};
ghost use Rattle.ore_monomial.specs.Signature as rule;

use crate::order::Order;
use arrayvec::ArrayVec;
use std::marker::Model;

/// What a variable is, and how it passes over its coordinate `t`.
#[derive(Clone, Copy, Debug, Default, PartialEq, Eq, Drop)]
pub enum VarKind {
    /// A coordinate, on which operators act.
    Coordinate,
    /// Commutes with everything.
    #[default]
    Constant,
    /// An operator that commutes with everything.
    Plain,
    /// `d t = t d + 1`, where `t` is the variable with the index `on`.
    Differential { on: u8 },
    /// `s t = t s + step s`.
    Shift { on: u8, step: u16 },
    /// `D t = t D - step D`.
    Delay { on: u8, step: u16 },
}

/// Why a list of kinds is no signature. The number is the index of the variable.
#[derive(Clone, Copy, Debug, PartialEq, Eq, Drop)]
pub enum SignatureFault {
    /// There are more than 12 variables.
    TooMany,
    /// `on` isn't the index of a coordinate that is declared before.
    BadCoordinate(usize),
    /// An earlier differential operator acts on the same coordinate.
    TwoDifferentials(usize),
    /// The step isn't from 1 to 1000.
    BadStep(usize),
    /// Its group comes before the group of the variable before it.
    GroupOrder(usize),
}

impl SignatureFault {
    /// Its word in a reply, whichever variable has it.
    pub fn word(self) -> &'static [u8]
        ensures { result.now ≡ signature_word self }
    {
        match self {
            SignatureFault::TooMany => b"too-many-variables",
            SignatureFault::BadCoordinate(_) => b"bad-coordinate",
            SignatureFault::TwoDifferentials(_) => b"two-differentials",
            SignatureFault::BadStep(_) => b"bad-step",
            SignatureFault::GroupOrder(_) => b"group-order",
        }
    }
}

/// The greatest number of variables.
const MOST_VARIABLES: usize = 12;

/// The kinds of the variables in declared order, and the order of monomials.
#[derive(Drop)]
pub struct Signature {
    kinds: ArrayVec<VarKind, 12>,
    order: Order,
}

impl Model for Signature {
    ghost use Rattle.std.specs.Prelude.{◌≡◌};
    ghost use Rattle.std.specs.declared.option.Option.TheVariants.{None};
    ghost use Rattle.ore_monomial.specs.Signature.{Signature as Lawful, first_fault};
    ghost use Rattle.ore_monomial.specs.SignatureCode.{signature_code, signature_of};

    ghost Value = { Lawful };

    ghost coded = { signature_code };

    ghost view = { λ a. signature_of a.kinds.items a.order };

    ghost invariant = { λ a. first_fault a.kinds.items ≡ None };
}

impl Signature {
    /// The signature with these variables.
    ///
    /// # Errors
    /// The fault of the first variable that has one. Of the faults of one variable the first
    /// counts, in this order: too many, order of groups, coordinate, two differentials, step.
    pub fn new(vars: &[VarKind], order: Order) -> Result<Signature, SignatureFault>
        ensures accepted { IsOk result ↔ (first_fault vars.now ≡ None) }
        ensures kinds { IfOk result (λ s. s.kinds ≡ vars.now) }
        ensures order { IfOk result (λ s. s.order ≡ order) }
        ensures refused { IfErr result (λ fault. first_fault vars.now ≡ Some fault) }
    {
        let mut kinds = ArrayVec::new();
        for kind in vars {
            if let Some(fault) = fault_of(kinds.as_slice(), *kind) {
                return Err(fault);
            }
            kinds.push(*kind);
        }
        Ok(Signature { kinds, order })
    }

    /// The number of variables.
    pub fn count(&self) -> usize
        ensures value { result ≡ length self.now.kinds }
        ensures small { result ≤ 12 }
    {
        self.kinds.len()
    }

    /// The order of monomials.
    pub fn order(&self) -> Order
        ensures { result ≡ self.now.order }
    {
        self.order
    }

    /// The kind of the variable `k`.
    pub fn kind(&self, k: usize) -> VarKind
        requires { k < length self.now.kinds }
        ensures { result ≡ kind_at self.now k }
    {
        self.kinds.as_slice()[k]
    }

    /// The same signature once more.
    pub fn copy(&self) -> Signature
        ensures { result ≡ self.now }
    {
        let mut kinds = ArrayVec::new();
        for kind in self.kinds.as_slice() {
            kinds.push(*kind);
        }
        Signature {
            kinds,
            order: self.order,
        }
    }
}

// What is wrong with a kind that follows others.
fn fault_of(before: &[VarKind], kind: VarKind) -> Option<SignatureFault>
    ensures { result ≡ rule.fault_of before.now kind }
{
    let index = before.len();
    if index >= MOST_VARIABLES {
        return Some(SignatureFault::TooMany);
    }
    if group_of(kind) < last_group(before) {
        return Some(SignatureFault::GroupOrder(index));
    }
    if lacks_coordinate(before, kind) {
        return Some(SignatureFault::BadCoordinate(index));
    }
    if is_second(before, kind) {
        return Some(SignatureFault::TwoDifferentials(index));
    }
    if has_bad_step(kind) {
        return Some(SignatureFault::BadStep(index));
    }
    None
}

fn group_of(kind: VarKind) -> u8
    ensures { result ≡ rule.group_of kind }
{
    match kind {
        VarKind::Coordinate => 0,
        VarKind::Constant => 1,
        _ => 2,
    }
}

fn last_group(kinds: &[VarKind]) -> u8
    ensures { result ≡ rule.last_group kinds.now }
{
    match kinds.last() {
        Some(kind) => group_of(*kind),
        None => 0,
    }
}

fn lacks_coordinate(before: &[VarKind], kind: VarKind) -> bool
    ensures { result ≡ rule.lacks_coordinate before.now kind }
{
    match kind {
        VarKind::Differential { on } => !is_coordinate_at(before, on),
        VarKind::Shift { on, step: _ } => !is_coordinate_at(before, on),
        VarKind::Delay { on, step: _ } => !is_coordinate_at(before, on),
        _ => false,
    }
}

fn is_coordinate_at(kinds: &[VarKind], index: u8) -> bool
    ensures { result ≡ rule.is_coordinate (slice_index_or kinds.now index VarKind.Constant) }
{
    match kinds.get(index as usize) {
        Some(VarKind::Coordinate) => true,
        _ => false,
    }
}

fn is_second(before: &[VarKind], kind: VarKind) -> bool
    ensures { result ≡ rule.is_second before.now kind }
{
    match kind {
        VarKind::Differential { on } => has_differential_on(before, on),
        _ => false,
    }
}

fn has_differential_on(kinds: &[VarKind], coordinate: u8) -> bool
    ensures { result ≡ list_any (rule.is_differential_on coordinate) kinds.now }
{
    kinds
        .iter()
        .any(|kind| is_differential_on(coordinate, *kind))
}

fn is_differential_on(coordinate: u8, kind: VarKind) -> bool
    ensures { result ≡ rule.is_differential_on coordinate kind }
{
    match kind {
        VarKind::Differential { on } => on == coordinate,
        _ => false,
    }
}

fn has_bad_step(kind: VarKind) -> bool
    ensures { result ≡ rule.has_bad_step kind }
{
    match kind {
        VarKind::Shift { on: _, step } => step < 1 || 1000 < step,
        VarKind::Delay { on: _, step } => step < 1 || 1000 < step,
        _ => false,
    }
}

#[cfg(test)]
mod tests;
