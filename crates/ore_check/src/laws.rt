//! What a valid certificate shows, as contracts.
//!
//! The functions here have no answer and do nothing. `specs/Laws.antt` has the statements, over the fractions and for
//! the order of the signature that is handed in.

ghost use Rattle.ore_check.specs.Laws.{CheckIsTrue, ExactIsTorsionFree, HasOneVerdict, LastLineIsEnd, PartsBeginAtLines, RightKernelIsExact};
ghost use Rattle.ore_algebra.specs.Limits.{program};
ghost use Rattle.ore_check.specs.NonZeroSteps.{PlansFormNonZeroSteps};
ghost use Rattle.ore_check.specs.PlanBudgets.{BudgetExists};
ghost use Rattle.ore_check.specs.PlanLaws.{AdjointHasItsReport, ExtFormsRight, FormsCorrect, NoReportIsNone, ReportIsTrueIfValid, ResolveFormsRight};
ghost use Rattle.ore_check.specs.Plans.{analyse, inverse_left, inverse_right, kernel_left, kernel_right};
ghost use Rattle.ore_check.specs.ValidLaws.{CheckAtMost, CheckIsValid, CheckShowsValid, ValidIsNotInvalid, ValidIsTrue, ValidPasses};
ghost use Rattle.ore_check.specs.Written.{RightMayBeWritten};

use ore_groebner::laws::law_run_ends;
use ore_monomial::Signature;
use ore_pairs::laws::law_few_choices;

/// A certificate for which the check says that it is valid is true.
pub fn law_check_means(sig: &Signature)
    ensures { CheckIsTrue sig.now }
{}

/// Where the rows that take a matrix to zeros are the row module of another, that other leaves no torsion.
pub fn law_torsion_free(sig: &Signature)
    ensures { ExactIsTorsionFree sig.now }
{}

/// No matrix has a true certificate of both verdicts.
pub fn law_one_verdict(sig: &Signature)
    ensures { HasOneVerdict sig.now }
{}

/// The columns that a matrix takes to zeros are just the combinations of the columns of a true right kernel.
pub fn law_right_kernel(sig: &Signature)
    ensures { RightKernelIsExact sig.now }
{}

/// The lines that the layout counts are those of the text of a certificate.
pub fn law_lines_counted(sig: &Signature)
    ensures { LastLineIsEnd sig.now }
{}

/// Each part of the text of a certificate begins at the line that the layout gives to its place.
pub fn law_parts_begin_at_lines(sig: &Signature)
    ensures { PartsBeginAtLines sig.now }
{}

/// The check of a report says that it is valid exactly where the report is honest.
pub fn law_report_means(sig: &Signature)
    ensures { ReportIsTrueIfValid sig.now }
{}

/// Plan adjoint has one honest report where forming the transposed adjoint stops, and else none.
pub fn law_adjoint_report(sig: &Signature)
    ensures { AdjointHasItsReport sig.now }
{}

/// Without limits each place of a certificate is right exactly where the certificate is valid.
pub fn law_check_is_valid(sig: &Signature)
    ensures { CheckIsValid sig.now }
{}

/// Within limits the places of a certificate give what they give without, or an operation stops.
pub fn law_check_at_most(sig: &Signature)
    ensures { CheckAtMost sig.now }
{}

/// No place of a valid certificate fails a condition: within limits it is right, or stops.
pub fn law_valid_passes(sig: &Signature)
    ensures { ValidPasses sig.now }
{}

/// A certificate whose places are right is valid, within whatever limits it is checked.
pub fn law_check_shows_valid(sig: &Signature)
    ensures { CheckShowsValid sig.now }
{}

/// A valid certificate is true.
pub fn law_valid_is_true(sig: &Signature)
    ensures { ValidIsTrue sig.now }
{}

/// No answer to a valid certificate is that a place fails.
pub fn law_valid_is_not_invalid(sig: &Signature)
    ensures { ValidIsNotInvalid sig.now }
{}

/// The certificates that the plans of kernels form are true, and the check accepts them.
pub fn law_kernels_formed(sig: &Signature)
    ensures left { FormsCorrect sig.now (kernel_left program sig.now) }
    ensures right { FormsCorrect sig.now (kernel_right program sig.now) }
{}

/// The certificates that the plans of inverses form are true, and the check accepts them.
pub fn law_inverses_formed(sig: &Signature)
    ensures left { FormsCorrect sig.now (inverse_left program sig.now) }
    ensures right { FormsCorrect sig.now (inverse_right program sig.now) }
{}

/// Where no report of a text is honest by a rule and within a budget, none of courses is.
pub fn law_no_report(sig: &Signature)
    ensures { NoReportIsNone sig.now }
{}

/// The certificates that plan resolve forms are true, and the check accepts them.
pub fn law_resolutions_formed(sig: &Signature)
    ensures { ResolveFormsRight sig.now }
{}

/// The verdicts that plan analyse forms are true, and the check accepts them.
pub fn law_verdicts_formed(sig: &Signature)
    ensures { FormsCorrect sig.now (analyse program sig.now) }
{}

/// The certificates that plan ext forms are true, and the check accepts them.
pub fn law_extensions_formed(sig: &Signature)
    ensures { ExtFormsRight sig.now }
{}

/// No step of a certificate that a plan forms multiplies by zero.
pub fn law_steps_formed(sig: &Signature)
    ensures { PlansFormNonZeroSteps sig.now }
{}

/// For each plan and matrix some number is greater than that of all pairs that the runs of the plan treat together,
/// whatever is chosen and over numbers of any size. No honest report treats so many, nor says that so many were spent.
pub fn law_budget_exists(sig: &Signature)
    ensures { BudgetExists sig.now }
{
    law_run_ends(sig);
    law_few_choices(sig);
}

/// A right certificate, of which no step multiplies by zero and whose stored parts are in range, may be written.
pub fn law_right_may_be_written(sig: &Signature)
    ensures { RightMayBeWritten sig.now }
{}
