//! The laws of problem texts, as contracts.
//!
//! The functions here have no answer and do nothing. Their clauses are laws over the definitions of this
//! crate alone, for every text and every problem.

ghost use Rattle.ore_problem.specs.Laws.{IsReadExactly, IsPrefixReadExactly, FindsFirstFaultyLine, PrintedProblemIsRead};

/// A text is read as a problem where it is accepted, as a text of this problem, and nowhere else.
pub fn law_is_read_exactly()
    ensures { IsReadExactly }
{}

/// The front of some bytes is read as a problem where it is accepted, as a text of this problem, and nowhere else. The
/// bytes and lines that reading it takes are those of the accepted front.
pub fn law_prefix_is_read_exactly()
    ensures { IsPrefixReadExactly }
{}

/// A text that is no problem has one faulty line, which its fault names: the first line that no problem with the same lines
/// before it has there. So it is with a text that doesn't begin with a problem.
pub fn law_finds_first_faulty_line()
    ensures { FindsFirstFaultyLine }
{}

/// The text of a problem is read as the problem, alone and where some text follows.
pub fn law_printed_is_read()
    ensures { PrintedProblemIsRead }
{}
