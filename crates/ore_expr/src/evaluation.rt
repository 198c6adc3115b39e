//! Evaluates the instructions of an expression on a stack of operators, whose top stands last.

ghost use Rattle.std.specs.Prelude.{◌≡◌, ◌<◌, ◌≤◌, ◌++◌, [], ◌∷◌, length, IfOk, MatchOption};
ghost use Rattle.std.specs.List.{All};
ghost use Rattle.ore_algebra.specs.Limits.{program};
ghost use Rattle.ore_rational.specs.Field.{rationals};
ghost use Rattle.ore_monomial.specs.Gives.{Gives, Turns};
ghost use Rattle.ore_monomial.specs.LetterRule.{constant as constant_of};
ghost use Rattle.ore_ring.specs.Belongs.{Belongs, AllBelong};
ghost use Rattle.ore_ring.specs.Within.{opposite as opposite_of, times_within};
ghost use Rattle.ore_expr.specs.declared.instruction.Instruction.TheVariants as code;
ghost use Rattle.ore_expr.specs.Evaluation.{IsOf, applied, value_of};
ghost use Rattle.ore_expr.specs.Stack.{instruction_of, outcome as outcome_of, values_of};
ghost use Rattle.ore_expr.specs.Values.{power_of_variable as power_of, power_within};

use crate::instruction::Instruction;
use crate::operand::{Operand, added};
use ore_monomial::{Exps, RingStop};
use ore_rational::Rational;
use ore_ring::{Op, OreRing};
use std::alloc::Global;

// An operation on two operators.
#[derive(Clone, Copy, Drop)]
enum Operation {
    Sum,
    Difference,
    Product,
}

/// The operator that instructions leave on top, zero where they leave none.
///
/// A power of a variable has the index of a variable of the ring's signature and an exponent of at most 32,767. What
/// `parse` answers is so, where there is one name for each variable.
///
/// # Errors
/// The stop of the first operation that stops, and want of memory.
#[tactic(auto, unfolding(crate::specs::Evaluation::applied))]
pub fn evaluate<R: OreRing>(
    ring: &R,
    alloc: Global,
    instructions: &[Instruction],
) -> Result<Op, RingStop>
    requires { All (IsOf (length (R.sig ring.now).kinds)) instructions.now }
    ensures gives { Gives (λ f. f.sum) result (value_of program (R.sig ring.now) instructions.now) }
    ensures of { IfOk result (Belongs (R.sig ring.now)) }
{
    match instructions {
        [Instruction::Constant(number)] => constant(ring, alloc, *number),
        _ => evaluate_on_stack(ring, alloc, instructions),
    }
}

// The same, on a stack; most entries are one number, which needs none.
fn evaluate_on_stack<R: OreRing>(
    ring: &R,
    alloc: Global,
    instructions: &[Instruction],
) -> Result<Op, RingStop>
    requires { All (IsOf (length (R.sig ring.now).kinds)) instructions.now }
    ensures gives { Gives (λ f. f.sum) result (value_of program (R.sig ring.now) instructions.now) }
    ensures of { IfOk result (Belongs (R.sig ring.now)) }
{
    let mut stack = Vec::new(alloc);
    for instruction in instructions {
        apply(ring, alloc, &mut stack, *instruction)?;
    }
    match stack.pop() {
        Some(top) => Ok(top.finish(alloc)?),
        None => Ok(Op::zero(alloc, ring.signature().order())),
    }
}

// One instruction.
fn apply<R: OreRing>(
    ring: &R,
    alloc: Global,
    stack: &mut Vec<Operand>,
    instruction: Instruction,
) -> Result<(), RingStop>
    requires instruction_of { IsOf (length (R.sig ring.now).kinds) instruction }
    requires stack_of { AllBelong (R.sig ring.now) stack.old.items }
    ensures turns { Turns result (values_of stack.new.items) (applied program (R.sig ring.now) (values_of stack.old.items) instruction) }
    ensures of { IfOk result (λ _. AllBelong (R.sig ring.now) stack.new.items) }
{
    match instruction {
        Instruction::Constant(number) => push_constant(ring, alloc, stack, number),
        Instruction::Power { variable, exponent } => {
            push_power(ring, alloc, stack, variable, exponent)
        }
        Instruction::Add => join(ring, alloc, stack, Operation::Sum),
        Instruction::Subtract => join(ring, alloc, stack, Operation::Difference),
        Instruction::Multiply => join(ring, alloc, stack, Operation::Product),
        Instruction::Raise(count) => raise(ring, alloc, stack, count),
    }
}

// A number is put on top.
fn push_constant<R: OreRing>(
    ring: &R,
    alloc: Global,
    stack: &mut Vec<Operand>,
    number: Rational,
) -> Result<(), RingStop>
    requires { AllBelong (R.sig ring.now) stack.old.items }
    ensures turns { Turns result (values_of stack.new.items) (applied program (R.sig ring.now) (values_of stack.old.items) (code.Constant number)) }
    ensures of { IfOk result (λ _. AllBelong (R.sig ring.now) stack.new.items) }
{
    stack.push(Operand::finished(constant(ring, alloc, number)?))?;
    Ok(())
}

// A power of a variable is put on top.
fn push_power<R: OreRing>(
    ring: &R,
    alloc: Global,
    stack: &mut Vec<Operand>,
    variable: usize,
    exponent: u16,
) -> Result<(), RingStop>
    requires variable_of { variable < length (R.sig ring.now).kinds }
    requires within { exponent ≤ 32767 }
    requires stack_of { AllBelong (R.sig ring.now) stack.old.items }
    ensures turns { Turns result (values_of stack.new.items) (applied program (R.sig ring.now) (values_of stack.old.items) (code.Power variable exponent)) }
    ensures of { IfOk result (λ _. AllBelong (R.sig ring.now) stack.new.items) }
{
    stack.push(Operand::finished(power_of_variable(ring, alloc, variable, exponent)?))?;
    Ok(())
}

// The two on top are replaced by what an operation makes of them.
fn join<R: OreRing>(
    ring: &R,
    alloc: Global,
    stack: &mut Vec<Operand>,
    operation: Operation,
) -> Result<(), RingStop>
    requires { AllBelong (R.sig ring.now) stack.old.items }
    ensures turns { Turns result (values_of stack.new.items) (applied program (R.sig ring.now) (values_of stack.old.items) (instruction_of operation)) }
    ensures of { IfOk result (λ _. AllBelong (R.sig ring.now) stack.new.items) }
{
    let Some((f, g)) = pop_two(stack) else {
        return Ok(())
    };
    stack.push(outcome(ring, alloc, operation, f, g)?)?;
    Ok(())
}

// What an operation makes of two operators.
fn outcome<R: OreRing>(
    ring: &R,
    alloc: Global,
    operation: Operation,
    f: Operand,
    g: Operand,
) -> Result<Operand, RingStop>
    requires f_of { Belongs (R.sig ring.now) f }
    requires g_of { Belongs (R.sig ring.now) g }
    ensures gives { Gives (λ f. f.sum) result (outcome_of program (R.sig ring.now) operation f.sum g.sum) }
    ensures of { IfOk result (Belongs (R.sig ring.now)) }
{
    let g = g.finish(alloc)?;
    match operation {
        Operation::Sum => added(alloc, f, &g),
        Operation::Difference => {
            let opposite = opposite(ring, alloc, &g)?;
            added(alloc, f, &opposite)
        }
        Operation::Product => product(ring, alloc, f, &g),
    }
}

// The operator with each fraction negated.
fn opposite<R: OreRing>(ring: &R, alloc: Global, g: &Op) -> Result<Op, RingStop>
    requires { Belongs (R.sig ring.now) g.now }
    ensures gives { Gives (λ f. f.sum) result (Ok (opposite_of g.now.sum)) }
    ensures of { IfOk result (Belongs (R.sig ring.now)) }
{
    let nothing = Op::zero(alloc, ring.signature().order());
    ring.sub(alloc, &nothing, g)
}

// The product of two operators.
fn product<R: OreRing>(ring: &R, alloc: Global, f: Operand, g: &Op) -> Result<Operand, RingStop>
    requires f_of { Belongs (R.sig ring.now) f }
    requires g_of { Belongs (R.sig ring.now) g.now }
    ensures gives { Gives (λ f. f.sum) result (times_within program (R.sig ring.now) f.sum g.now.sum) }
    ensures of { IfOk result (Belongs (R.sig ring.now)) }
{
    let f = f.finish(alloc)?;
    Ok(Operand::finished(ring.mul(alloc, &f, g)?))
}

// So many factors of the top.
fn raise<R: OreRing>(
    ring: &R,
    alloc: Global,
    stack: &mut Vec<Operand>,
    count: u16,
) -> Result<(), RingStop>
    requires { AllBelong (R.sig ring.now) stack.old.items }
    ensures turns { Turns result (values_of stack.new.items) (applied program (R.sig ring.now) (values_of stack.old.items) (code.Raise count)) }
    ensures of { IfOk result (λ _. AllBelong (R.sig ring.now) stack.new.items) }
{
    let Some(f) = stack.pop() else { return Ok(()) };
    stack.push(operand_power(ring, alloc, f, count)?)?;
    Ok(())
}

// The product of so many factors.
fn operand_power<R: OreRing>(
    ring: &R,
    alloc: Global,
    f: Operand,
    count: u16,
) -> Result<Operand, RingStop>
    requires { Belongs (R.sig ring.now) f }
    ensures gives { Gives (λ f. f.sum) result (power_within program (R.sig ring.now) count f.sum) }
    ensures of { IfOk result (Belongs (R.sig ring.now)) }
{
    let f = f.finish(alloc)?;
    Ok(Operand::finished(power(ring, alloc, &f, count)?))
}

// The two on top, the lower one first. Where there are fewer, nothing is taken.
fn pop_two(stack: &mut Vec<Operand>) -> Option<(Operand, Operand)>
    ensures { MatchOption result ((length stack.old.items < 2) × (stack.new.items ≡ stack.old.items)) (λ p. stack.old.items ≡ stack.new.items ++ p.0 ∷ p.1 ∷ []) }
{
    if stack.len() < 2 {
        return None;
    }
    let second = stack.pop()?;
    let first = stack.pop()?;
    Some((first, second))
}

// A number as an operator.
fn constant<R: OreRing>(ring: &R, alloc: Global, number: Rational) -> Result<Op, RingStop>
    ensures gives { Gives (λ f. f.sum) result (Ok (constant_of rationals number)) }
    ensures of { IfOk result (Belongs (R.sig ring.now)) }
{
    Ok(Op::term(alloc, ring.signature().order(), Exps::zero(), number)?)
}

// A power of a variable as an operator.
fn power_of_variable<R: OreRing>(
    ring: &R,
    alloc: Global,
    variable: usize,
    exponent: u16,
) -> Result<Op, RingStop>
    requires variable_of { variable < length (R.sig ring.now).kinds }
    requires within { exponent ≤ 32767 }
    ensures gives { Gives (λ f. f.sum) result (Ok (power_of variable exponent)) }
    ensures of { IfOk result (Belongs (R.sig ring.now)) }
{
    let signature = ring.signature();
    let mut exponents = [0; 12];
    exponents[variable] = exponent;
    let exps = Exps::from_list(&exponents)?;
    Ok(Op::term(alloc, signature.order(), exps, Rational::one())?)
}

// The product of so many factors, from the left.
fn power<R: OreRing>(ring: &R, alloc: Global, f: &Op, count: u16) -> Result<Op, RingStop>
    requires { Belongs (R.sig ring.now) f.now }
    ensures gives { Gives (λ f. f.sum) result (power_within program (R.sig ring.now) count f.now.sum) }
    ensures of { IfOk result (Belongs (R.sig ring.now)) }
{
    if count == 0 {
        return constant(ring, alloc, Rational::one());
    }
    let mut product = ring.copy(alloc, f)?;
    for _ in 1..count {
        product = ring.mul(alloc, &product, f)?;
    }
    Ok(product)
}
