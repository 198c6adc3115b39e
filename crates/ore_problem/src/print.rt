//! Prints problem texts.

ghost use Rattle.std.specs.Prelude.{◌≡◌, [], ◌∷◌, ◌++◌, codes, decimal, get_or, IfOk, OnOk};
ghost use Rattle.std.specs.List.{All, flat_map, zip};
ghost use Rattle.ore_ring.specs.Belongs.{AllBelong};
ghost use Rattle.ore_rows.specs.Stored.{rows_of};
ghost use Rattle.ore_text.specs.Lines.{line};
ghost use Rattle.ore_problem.specs.ProblemText.{order_word as order_word_of, declaration_word as kind_word_of, declaration_words, declaration_text, matrix_text, problem_text};
ghost use Rattle.ore_problem.specs.Stored.{system_of, IsProblem};

use crate::problem::Problem;
use ore_monomial::{NoMemory, Order, VarKind};
use ore_rows::Matrix;
use ore_text::{Algebra, Names, append_line, append_number, append_row};
use std::alloc::Global;

/// The text of a problem, in its one printed form.
///
/// There is one name for each variable, and the entries of the matrix are of the signature.
///
/// # Errors
/// Want of memory.
pub fn print_problem(alloc: Global, problem: &Problem) -> Result<Vec<u8>, NoMemory>
    requires { IsProblem problem.now }
    ensures { IfOk result (λ text. text.items ≡ problem_text (system_of problem.now)) }
{
    let algebra = Algebra::new(&problem.signature, &problem.names);
    whole_text(alloc, &algebra, &problem.matrix)
}

// The text of the problem with this matrix.
#[tactic(auto, unfolding(crate::specs::ProblemText::problem_text))]
fn whole_text(alloc: Global, algebra: &Algebra<'_>, matrix: &Matrix) -> Result<Vec<u8>, NoMemory>
    requires { All (AllBelong algebra.now.signature.now) matrix.now.rows }
    ensures { IfOk result (λ text. text.items ≡ problem_text (record { names = algebra.now.names.now; signature = algebra.now.signature.now; cols = matrix.now.cols; rows = rows_of matrix.now })) }
{
    let mut text = Vec::new(alloc);
    text.extend_from_slice(b"ore 1\n")?;
    append_order(&mut text, algebra.signature.order())?;
    append_declarations(&mut text, algebra)?;
    append_matrix(&mut text, algebra, matrix)?;
    text.extend_from_slice(b"end\n")?;
    Ok(text)
}

fn append_order(text: &mut Vec<u8>, order: Order) -> Result<(), NoMemory>
    ensures { OnOk result (text.new.items ≡ text.old.items ++ line (codes "order" ∷ order_word_of order ∷ [])) }
{
    text.extend_from_slice(b"order ")?;
    text.extend_from_slice(order_word(order))?;
    text.push(b'\n')?;
    Ok(())
}

pub(crate) fn order_word(order: Order) -> &'static [u8]
    ensures { result.now ≡ order_word_of order }
{
    match order {
        Order::DegLex => b"deglex",
        Order::DegRevLex => b"degrevlex",
    }
}

fn append_declarations(text: &mut Vec<u8>, algebra: &Algebra<'_>) -> Result<(), NoMemory>
    ensures { OnOk result (text.new.items ≡ text.old.items ++ flat_map (declaration_text algebra.now.names.now) (zip algebra.now.names.now algebra.now.signature.now.kinds)) }
{
    let names = algebra.names;
    for k in 0..names.len() {
        append_declaration(text, names, names.name(k), algebra.signature.kind(k))?;
    }
    Ok(())
}

fn append_declaration(
    text: &mut Vec<u8>,
    names: &Names,
    name: &[u8],
    kind: VarKind,
) -> Result<(), NoMemory>
    ensures { OnOk result (text.new.items ≡ text.old.items ++ declaration_text names.now (name.now, kind)) }
{
    text.extend_from_slice(kind_word(kind))?;
    text.push(b' ')?;
    text.extend_from_slice(name)?;
    append_kind(text, names, kind)?;
    text.push(b'\n')?;
    Ok(())
}

pub(crate) fn kind_word(kind: VarKind) -> &'static [u8]
    ensures { result.now ≡ kind_word_of kind }
{
    match kind {
        VarKind::Coordinate => b"coordinate",
        VarKind::Constant => b"constant",
        VarKind::Plain => b"plain",
        VarKind::Differential { on: _ } => b"differential",
        VarKind::Shift { on: _, step: _ } => b"shift",
        VarKind::Delay { on: _, step: _ } => b"delay",
    }
}

// The words behind the name, each with a space before it.
fn append_kind(text: &mut Vec<u8>, names: &Names, kind: VarKind) -> Result<(), NoMemory>
    ensures { OnOk result (text.new.items ≡ text.old.items ++ flat_map (λ w. 32 ∷ w) (declaration_words names.now kind)) }
{
    match kind {
        VarKind::Coordinate => Ok(()),
        VarKind::Constant => Ok(()),
        VarKind::Plain => Ok(()),
        VarKind::Differential { on } => append_coordinate(text, names, on),
        VarKind::Shift { on, step } => append_step(text, names, on, step),
        VarKind::Delay { on, step } => append_step(text, names, on, step),
    }
}

fn append_step(text: &mut Vec<u8>, names: &Names, on: u8, step: u16) -> Result<(), NoMemory>
    ensures { OnOk result (text.new.items ≡ text.old.items ++ 32 ∷ (get_or names.now on [] ++ 32 ∷ decimal step)) }
{
    append_coordinate(text, names, on)?;
    text.push(b' ')?;
    append_number(text, u128::from(step))
}

fn append_coordinate(text: &mut Vec<u8>, names: &Names, on: u8) -> Result<(), NoMemory>
    ensures { OnOk result (text.new.items ≡ text.old.items ++ 32 ∷ get_or names.now on []) }
{
    text.push(b' ')?;
    text.extend_from_slice(name_at(names, on as usize))?;
    Ok(())
}

fn name_at(names: &Names, k: usize) -> &[u8]
    ensures { result.now ≡ get_or names.now k [] }
{
    if k < names.len() { names.name(k) } else { b"" }
}

fn append_matrix(text: &mut Vec<u8>, algebra: &Algebra<'_>, matrix: &Matrix) -> Result<(), NoMemory>
    requires { All (AllBelong algebra.now.signature.now) matrix.now.rows }
    ensures { OnOk result (text.new.items ≡ text.old.items ++ matrix_text algebra.now.names.now algebra.now.signature.now.order matrix.now.cols (rows_of matrix.now)) }
{
    append_sizes(text, matrix.rows(), matrix.cols())?;
    for k in 0..matrix.rows() {
        append_row(text, algebra, matrix.row(k).entries())?;
    }
    Ok(())
}

fn append_sizes(text: &mut Vec<u8>, rows: usize, cols: usize) -> Result<(), NoMemory>
    ensures { OnOk result (text.new.items ≡ text.old.items ++ line (codes "matrix" ∷ decimal rows ∷ decimal cols ∷ [])) }
{
    append_line(text, b"matrix", &[rows as u128, cols as u128])
}
