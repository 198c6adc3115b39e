//! Declarations, and the names and the signature that they make.

ghost use Rattle.std.specs.Prelude.{◌≡◌, ◌≤◌, [], true, length, map, option_map, IfOk, IfSome};
ghost use Rattle.ore_monomial.specs.SignatureCode.{signature_of};
ghost use Rattle.ore_expr.specs.Tokens.{IsName};
ghost use Rattle.ore_problem.specs.Declarations.{named as named_of, two_words as two_words_of, three_words as three_words_of, four_words as four_words_of, declared_by as declared_by_of, is_digits as is_digits_of, coordinate_index as coordinate_index_of, step_value as step_value_of, declaration_fault};
ghost use Rattle.ore_problem.specs.Problems.{declared_frame, fault_or, with_declared};
ghost use Rattle.ore_problem.specs.Reader.{declaration_view, IsExtended};
ghost use Rattle.ore_problem.specs.Stored.{ReadsProblem};

use crate::fault::{ProblemFault, ProblemReason};
use crate::print::kind_word;
use crate::problem::Problem;
use crate::word::{is_digits, is_name, is_word, value_up_to};
use ore_monomial::{Order, Signature, SignatureFault, VarKind};
use ore_rows::Matrix;
use ore_text::Names;
use std::alloc::{AllocError, Global};
use std::marker::Model;

/// The index that stands for no coordinate.
const NO_COORDINATE: u8 = 255;

/// The number that stands for a step above 1000.
const GREAT_STEP: u32 = 1001;

/// The greatest number of variables.
const MOST_VARIABLES: usize = 12;

/// A declared name, and its kind.
#[derive(Clone, Copy, Drop)]
pub(crate) struct Declaration<'a> {
    /// The bytes of the name.
    pub name: &'a [u8],
    /// What the variable is.
    pub kind: VarKind,
}

/// The names that were declared, and their signature.
#[derive(Drop)]
pub(crate) struct Frame {
    names: Names,
    signature: Signature,
}

impl Model for Frame {
    ghost use Rattle.std.specs.Prelude.{◌≡◌, length};
    ghost use Rattle.ore_problem.specs.Problems.{Frame as Declared};

    ghost Value = { Declared };

    ghost view = { λ a. record { names = a.names; signature = a.signature } };

    ghost invariant = { λ a. length a.names ≡ length a.signature.kinds };
}

impl Frame {
    /// No names yet, in this order of monomials.
    pub fn new(alloc: Global, order: Order) -> Frame
        ensures { result ≡ record { names = []; signature = signature_of [] order } }
    {
        Frame {
            names: Names::new(alloc),
            signature: empty_signature(order),
        }
    }

    /// The names in the order of declaration, one for each variable.
    pub fn names(&self) -> &Names
        ensures value { result.now ≡ self.now.names }
        ensures count { length self.now.names ≡ length self.now.signature.kinds }
    {
        &self.names
    }

    /// The signature of the declared variables.
    pub fn signature(&self) -> &Signature
        ensures { result.now ≡ self.now.signature }
    {
        &self.signature
    }

    /// The problem with this matrix.
    pub fn into_problem(self, matrix: Matrix) -> Problem
        ensures value { result ≡ record { names = self.names; signature = self.signature; matrix = matrix } }
        ensures count { length result.names ≡ length result.signature.kinds }
    {
        Problem {
            names: self.names,
            signature: self.signature,
            matrix,
        }
    }

    /// Adds the declaration that the words of a line are, behind the others.
    ///
    /// # Errors
    /// The words are no declaration, or it has a fault behind the others; and want of memory. Then nothing is said of
    /// the frame.
    #[tactic(auto, unfolding(crate::specs::Problems::declared_frame))]
    pub fn declare(
        &mut self,
        alloc: Global,
        line: usize,
        words: &[&[u8]],
    ) -> Result<(), ProblemFault>
        ensures { ReadsProblem (λ _. self.new) result (declared_frame self.old line (map (λ w. w.now) words.now)) }
    {
        let Some(declaration) = declared_by(&self.names, words) else {
            return Err(ProblemFault::at(line, ProblemReason::BadDeclaration))
        };
        self.add(alloc, line, declaration)
    }

    #[tactic(auto, unfolding(crate::specs::Declarations::declaration_fault))]
    fn add(
        &mut self,
        alloc: Global,
        line: usize,
        declaration: Declaration,
    ) -> Result<(), ProblemFault>
        requires { IsName declaration.name.now }
        ensures { ReadsProblem (λ _. self.new) result (fault_or (declaration_fault self.old.names self.old.signature.kinds (declaration_view declaration.entry)) line (with_declared self.old (declaration_view declaration.entry))) }
    {
        if self.signature.count() >= MOST_VARIABLES {
            let fault = ProblemReason::Signature(SignatureFault::TooMany);
            return Err(ProblemFault::at(line, fault));
        }
        if self.names.find(declaration.name).is_some() {
            return Err(ProblemFault::at(line, ProblemReason::NameTwice));
        }
        let signature = match with_kind(alloc, &self.signature, declaration.kind)? {
            Ok(signature) => signature,
            Err(fault) => return Err(ProblemFault::at(line, ProblemReason::Signature(fault))),
        };
        self.names.add(declaration.name)?;
        self.signature = signature;
        Ok(())
    }
}

fn empty_signature(order: Order) -> Signature
    ensures { result ≡ signature_of [] order }
{
    match Signature::new(&[], order) {
        Ok(signature) => signature,
        Err(_) => unreachable!(),
    }
}

// The signature with one kind more.
fn with_kind(
    alloc: Global,
    signature: &Signature,
    kind: VarKind,
) -> Result<Result<Signature, SignatureFault>, AllocError>
    ensures { IfOk result (λ made. IsExtended made signature.now kind) }
{
    let mut kinds = kinds_of(alloc, signature)?;
    kinds.push(kind)?;
    Ok(Signature::new(&kinds, signature.order()))
}

fn kinds_of(alloc: Global, signature: &Signature) -> Result<Vec<VarKind>, AllocError>
    ensures { IfOk result (λ kinds. kinds.items ≡ signature.now.kinds) }
{
    let mut kinds = Vec::new(alloc);
    for k in 0..signature.count() {
        kinds.push(signature.kind(k))?;
    }
    Ok(kinds)
}

/// The declaration that some words are, behind at most 12 names.
#[tactic(auto, unfolding(crate::specs::Declarations::declared_by))]
pub(crate) fn declared_by<'a>(names: &Names, words: &[&'a [u8]]) -> Option<Declaration<'a>>
    requires { length names.now ≤ 12 }
    ensures value { option_map declaration_view result ≡ declared_by_of names.now (map (λ w. w.now) words.now) }
    ensures form { IfSome result (λ d. IsName d.name.now) }
{
    match words {
        [] => None,
        [_] => None,
        [word, name] => two_words(word, name),
        [word, name, on] => three_words(names, word, name, on),
        [word, name, on, step] => four_words(names, word, name, on, step),
        [_, _, _, _, _, ..] => None,
    }
}

fn two_words<'a>(word: &[u8], name: &'a [u8]) -> Option<Declaration<'a>>
    ensures value { option_map declaration_view result ≡ two_words_of [] word.now name.now }
    ensures form { IfSome result (λ d. IsName d.name.now) }
{
    if is_word(word, kind_word(VarKind::Coordinate)) {
        return named(name, true, VarKind::Coordinate);
    }
    if is_word(word, kind_word(VarKind::Constant)) {
        return named(name, true, VarKind::Constant);
    }
    if is_word(word, kind_word(VarKind::Plain)) {
        return named(name, true, VarKind::Plain);
    }
    None
}

fn three_words<'a>(names: &Names, word: &[u8], name: &'a [u8], on: &[u8]) -> Option<Declaration<'a>>
    requires { length names.now ≤ 12 }
    ensures value { option_map declaration_view result ≡ three_words_of names.now word.now name.now on.now }
    ensures form { IfSome result (λ d. IsName d.name.now) }
{
    let fits = is_name(on);
    let on = coordinate_index(names, on);
    let kind = VarKind::Differential { on };
    if is_word(word, kind_word(kind)) {
        return named(name, fits, kind);
    }
    None
}

fn four_words<'a>(
    names: &Names,
    word: &[u8],
    name: &'a [u8],
    on: &[u8],
    step: &[u8],
) -> Option<Declaration<'a>>
    requires { length names.now ≤ 12 }
    ensures value { option_map declaration_view result ≡ four_words_of names.now word.now name.now on.now step.now }
    ensures form { IfSome result (λ d. IsName d.name.now) }
{
    if !is_digits(step) {
        return None;
    }
    let fits = is_name(on);
    let on = coordinate_index(names, on);
    let step = step_value(step);
    let shift = VarKind::Shift { on, step };
    let delay = VarKind::Delay { on, step };
    if is_word(word, kind_word(shift)) {
        return named(name, fits, shift);
    }
    if is_word(word, kind_word(delay)) {
        return named(name, fits, delay);
    }
    None
}

fn named(name: &[u8], fits: bool, kind: VarKind) -> Option<Declaration>
    ensures value { option_map declaration_view result ≡ named_of name.now fits kind }
    ensures form { IfSome result (λ d. IsName d.name.now) }
{
    if is_name(name) && fits {
        Some(Declaration { name, kind })
    } else {
        None
    }
}

// The index of a name, or the number for none.
fn coordinate_index(names: &Names, name: &[u8]) -> u8
    requires { length names.now ≤ 12 }
    ensures { result ≡ coordinate_index_of names.now name.now }
{
    match names.find(name) {
        Some(index) => index as u8,
        None => NO_COORDINATE,
    }
}

fn step_value(digits: &[u8]) -> u16
    requires { is_digits_of digits.now ≡ true }
    ensures { result ≡ step_value_of digits.now }
{
    value_up_to(digits, GREAT_STEP) as u16
}
