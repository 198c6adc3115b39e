//! The laws of the grammar, as contracts.

ghost use Rattle.ore_expr.specs.Laws.{FindsFaults, ReadsExpressions};

/// A fault that is found is that of the table, and the fault of the table is found.
pub fn law_finds_faults()
    ensures { FindsFaults }
{}

/// What is read is an expression, with the value of its instructions; and each expression is read.
pub fn law_reads_expressions()
    ensures { ReadsExpressions }
{}
