//! What a token does to an expression that is read so far.

ghost use Rattle.std.specs.Prelude.{◌≡◌, false, ◌++◌, ◌<ℤ◌, nat_abs, pos, OnOk};
ghost use Rattle.std.specs.List.{AllPass};
ghost use Rattle.std.specs.Char.{is_ascii_digit};
ghost use Rattle.std.specs.Str.Parse.{digits_value};
ghost use Rattle.ore_rational.specs.Fraction.{reduce};
ghost use Rattle.ore_rational.specs.Range.{InRange};
ghost use Rattle.ore_expr.specs.Faults.{index_of};
ghost use Rattle.ore_expr.specs.ParserRange.{number_due};
ghost use Rattle.ore_expr.specs.ParserState.{parser_state};
ghost use Rattle.ore_expr.specs.Parsing.{start, has_value as has_value_of, wants_atom as wants_atom_of, ends_atom, ends_factor, ends_sum, ends, taken_where, takes_number, takes_name, takes_sum, takes_minus, takes_product, takes_slash, takes_caret, takes_open, takes_close, takes_token};
ghost use Rattle.ore_expr.specs.Reading.{Reads};
ghost use Rattle.ore_expr.specs.TokenView.{token_of, IsNumeric};

use super::{Due, Level, Parser, Waiting};
use crate::digits::{denominator, number, power};
use crate::fault::TextFault;
use crate::instruction::Instruction;
use crate::token::Token;
use ore_rational::Rational;
use ore_text::Names;
use std::alloc::{AllocError, Global};

// The greatest power of a name, and of another atom.
const GREATEST_EXPONENT: u16 = 32767;

const GREATEST_POWER: u16 = 64;

// How many parentheses may be open.
const GREATEST_DEPTH: usize = 64;

impl Due {
    // A value stands before, so that an operation may follow.
    fn has_value(self) -> bool
        ensures { result ≡ has_value_of self }
    {
        match self {
            Due::AfterNumber(_) | Due::AfterName(_) | Due::AfterAtom | Due::AfterFactor => true,
            Due::Start | Due::Operand | Due::Denominator(_) | Due::Exponent(_) | Due::Power => {
                false
            }
        }
    }

    // An atom may come.
    fn wants_atom(self) -> bool
        ensures { result ≡ wants_atom_of self }
    {
        match self {
            Due::Start | Due::Operand => true,
            Due::AfterNumber(_) | Due::AfterName(_) | Due::AfterAtom | Due::AfterFactor => false,
            Due::Denominator(_) | Due::Exponent(_) | Due::Power => false,
        }
    }
}

impl Level {
    // No product waits.
    fn of_sum(sum: Waiting) -> Level
        ensures { result ≡ record { sum = sum; product = false } }
    {
        Level {
            sum,
            product: false,
        }
    }
}

// The fraction `numerator / denominator`, in lowest terms.
fn fraction(numerator: i128, denominator: i128) -> Rational
    requires numerator { InRange numerator }
    requires denominator { InRange denominator }
    requires above { pos 0 <ℤ denominator }
    ensures { result ≡ reduce numerator (nat_abs denominator) }
{
    match Rational::new(numerator, denominator) {
        Ok(fraction) => fraction,
        Err(_) => unreachable!(),
    }
}

// The instruction of a number, or of a variable, that no slash and no power follows.
fn end_atom(made: &mut Vec<Instruction>, due: Due) -> Result<(), AllocError>
    requires { InRange (number_due due) }
    ensures { OnOk result (made.new.items ≡ made.old.items ++ ends_atom due) }
{
    match due {
        Due::AfterNumber(n) => made.push(Instruction::Constant(Rational::whole(n)))?,
        Due::AfterName(variable) => made.push(Instruction::Power {
            variable,
            exponent: 1,
        })?,
        _ => {}
    }
    Ok(())
}

// The product that waits for a factor.
fn end_factor(made: &mut Vec<Instruction>, waits: bool) -> Result<(), AllocError>
    ensures { OnOk result (made.new.items ≡ made.old.items ++ ends_factor waits) }
{
    if waits {
        made.push(Instruction::Multiply)?;
    }
    Ok(())
}

// The sum that waits for a term.
fn end_sum(made: &mut Vec<Instruction>, sum: Waiting) -> Result<(), AllocError>
    ensures { OnOk result (made.new.items ≡ made.old.items ++ ends_sum sum) }
{
    match sum {
        Waiting::Nothing => {}
        Waiting::Add => made.push(Instruction::Add)?,
        Waiting::Subtract => made.push(Instruction::Subtract)?,
    }
    Ok(())
}

// What a number or a variable and the product that waits make, once the factor ends.
fn end_product(made: &mut Vec<Instruction>, due: Due, level: Level) -> Result<(), AllocError>
    requires { InRange (number_due due) }
    ensures { OnOk result (made.new.items ≡ made.old.items ++ (ends_atom due ++ ends_factor level.product)) }
{
    end_atom(made, due)?;
    end_factor(made, level.product)?;
    Ok(())
}

// What they and the sum that waits make, once the term ends.
fn end_term(made: &mut Vec<Instruction>, due: Due, level: Level) -> Result<(), AllocError>
    requires { InRange (number_due due) }
    ensures { OnOk result (made.new.items ≡ made.old.items ++ (ends_atom due ++ ends_factor level.product) ++ ends_sum level.sum) }
{
    end_product(made, due, level)?;
    end_sum(made, level.sum)?;
    Ok(())
}

impl Parser {
    /// Nothing is read yet.
    pub(crate) fn new(alloc: Global) -> Parser
        ensures { parser_state result ≡ start }
    {
        Parser {
            due: Due::Start,
            level: Level::of_sum(Waiting::Nothing),
            outside: Vec::new(alloc),
            made: Vec::new(alloc),
        }
    }

    /// Takes a token that begins at this place of the text.
    ///
    /// # Errors
    /// The fault of the token, with this place, and want of memory, as a stop. Then nothing is said of the state.
    pub(crate) fn take(
        &mut self,
        names: &Names,
        place: usize,
        token: Token<'_>,
    ) -> Result<(), TextFault>
        requires { IsNumeric (token_of token) }
        ensures { Reads (λ _. parser_state self.new) result (takes_token names.now (parser_state self.old) place (token_of token.entry)) }
    {
        match token {
            Token::Number(digits) => self.take_number(place, digits),
            Token::Name(name) => self.take_name(names, place, name),
            Token::Plus => self.take_sum(place, Waiting::Add),
            Token::Minus => self.take_minus(place),
            Token::Star => self.take_product(place),
            Token::Slash => self.take_slash(place),
            Token::Caret => self.take_caret(place),
            Token::Open => self.take_open(place),
            Token::Close => self.take_close(place),
            Token::Stray(_) => Err(TextFault::Syntax(place)),
        }
    }

    // A number: an atom or its denominator, or a power.
    fn take_number(&mut self, place: usize, digits: &[u8]) -> Result<(), TextFault>
        requires { AllPass is_ascii_digit digits.now }
        ensures { Reads (λ _. parser_state self.new) result (takes_number (parser_state self.old) place (digits_value 10 digits.now) (parser_state self.old).due) }
    {
        match self.due {
            Due::Start | Due::Operand => {
                self.due = Due::AfterNumber(number(place, digits)?);
            }
            Due::Denominator(numerator) => {
                let quotient = fraction(numerator, denominator(place, digits)?);
                self.made.push(Instruction::Constant(quotient))?;
                self.due = Due::AfterAtom;
            }
            Due::Exponent(variable) => {
                let exponent = power(GREATEST_EXPONENT, place, digits)?;
                self.made.push(Instruction::Power { variable, exponent })?;
                self.due = Due::AfterFactor;
            }
            Due::Power => {
                let times = power(GREATEST_POWER, place, digits)?;
                self.made.push(Instruction::Raise(times))?;
                self.due = Due::AfterFactor;
            }
            _ => return Err(TextFault::Syntax(place)),
        }
        Ok(())
    }

    // A name, which has to be declared.
    fn take_name(&mut self, names: &Names, place: usize, name: &[u8]) -> Result<(), TextFault>
        ensures { Reads (λ _. parser_state self.new) result (taken_where (wants_atom_of (parser_state self.old).due) place (takes_name (parser_state self.old) place (index_of names.now name.now))) }
    {
        if !self.due.wants_atom() {
            return Err(TextFault::Syntax(place));
        }
        match names.find(name) {
            Some(variable) => {
                self.due = Due::AfterName(variable);
                Ok(())
            }
            None => Err(TextFault::UnknownName(place)),
        }
    }

    // A plus, or a minus behind a value: the term before it ends.
    fn take_sum(&mut self, place: usize, sum: Waiting) -> Result<(), TextFault>
        ensures { Reads (λ _. parser_state self.new) result (taken_where (has_value_of (parser_state self.old).due) place (takes_sum (parser_state self.old) sum)) }
    {
        if !self.due.has_value() {
            return Err(TextFault::Syntax(place));
        }
        end_term(&mut self.made, self.due, self.level)?;
        self.level = Level::of_sum(sum);
        self.due = Due::Operand;
        Ok(())
    }

    // A minus, before the first term or behind a value.
    fn take_minus(&mut self, place: usize) -> Result<(), TextFault>
        ensures { Reads (λ _. parser_state self.new) result (takes_minus (parser_state self.old) place (parser_state self.old).due) }
    {
        let Due::Start = self.due else {
            return self.take_sum(place, Waiting::Subtract)
        };
        self.made.push(Instruction::Constant(Rational::whole(0)))?;
        self.level = Level::of_sum(Waiting::Subtract);
        self.due = Due::Operand;
        Ok(())
    }

    // A product: the factor before it ends.
    fn take_product(&mut self, place: usize) -> Result<(), TextFault>
        ensures { Reads (λ _. parser_state self.new) result (taken_where (has_value_of (parser_state self.old).due) place (takes_product (parser_state self.old))) }
    {
        if !self.due.has_value() {
            return Err(TextFault::Syntax(place));
        }
        end_product(&mut self.made, self.due, self.level)?;
        self.level.product = true;
        self.due = Due::Operand;
        Ok(())
    }

    // A slash, behind a numerator.
    fn take_slash(&mut self, place: usize) -> Result<(), TextFault>
        ensures { Reads (λ _. parser_state self.new) result (takes_slash (parser_state self.old) place (parser_state self.old).due) }
    {
        let Due::AfterNumber(numerator) = self.due else {
            return Err(TextFault::Syntax(place))
        };
        self.due = Due::Denominator(numerator);
        Ok(())
    }

    // A caret, behind an atom.
    fn take_caret(&mut self, place: usize) -> Result<(), TextFault>
        ensures { Reads (λ _. parser_state self.new) result (takes_caret (parser_state self.old) place (parser_state self.old).due) }
    {
        match self.due {
            Due::AfterNumber(n) => {
                self.made.push(Instruction::Constant(Rational::whole(n)))?;
                self.due = Due::Power;
            }
            Due::AfterName(variable) => self.due = Due::Exponent(variable),
            Due::AfterAtom => self.due = Due::Power,
            _ => return Err(TextFault::Syntax(place)),
        }
        Ok(())
    }

    // An open parenthesis: a depth more.
    fn take_open(&mut self, place: usize) -> Result<(), TextFault>
        ensures { Reads (λ _. parser_state self.new) result (taken_where (wants_atom_of (parser_state self.old).due) place (takes_open (parser_state self.old) place)) }
    {
        if !self.due.wants_atom() {
            return Err(TextFault::Syntax(place));
        }
        if self.outside.len() >= GREATEST_DEPTH {
            return Err(TextFault::TooDeep(place));
        }
        self.outside.push(self.level)?;
        self.level = Level::of_sum(Waiting::Nothing);
        self.due = Due::Start;
        Ok(())
    }

    // A close parenthesis: the expression in parentheses ends.
    fn take_close(&mut self, place: usize) -> Result<(), TextFault>
        ensures { Reads (λ _. parser_state self.new) result (taken_where (has_value_of (parser_state self.old).due) place (takes_close (parser_state self.old) place (parser_state self.old).outside)) }
    {
        if !self.due.has_value() {
            return Err(TextFault::Syntax(place));
        }
        let Some(level) = self.outside.pop() else {
            return Err(TextFault::Syntax(place))
        };
        end_term(&mut self.made, self.due, self.level)?;
        self.level = level;
        self.due = Due::AfterAtom;
        Ok(())
    }

    /// The instructions, where the text ends at this place.
    ///
    /// # Errors
    /// Syntax, with this place, where the expression isn't whole, and want of memory, as a stop.
    pub(crate) fn finish(self, place: usize) -> Result<Vec<Instruction>, TextFault>
        ensures { Reads (λ made. made.items) result (ends place (parser_state self)) }
    {
        let Parser {
            due,
            level,
            outside,
            mut made,
        } = self;
        if !due.has_value() || !outside.is_empty() {
            return Err(TextFault::Syntax(place));
        }
        end_term(&mut made, due, level)?;
        Ok(made)
    }
}
