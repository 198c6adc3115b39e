//! The laws of courses, as contracts.
//!
//! The functions here have no answer and do nothing. `specs/Laws.antt` has the statements, for all types of states `S`,
//! choices `C` and answers `X`, and for every runner and rule.

ghost use Rattle.ore_course.specs.Laws.{
  AllowsAllHonest,
  AnswersUnlessReported,
  TreatmentsAreBounded,
  BudgetIsNotSpent,
  FailsNowhereIfHonest,
  FindsFirstFailing,
  FollowedIsFormed,
  HaltIsReported,
  HasItsReport,
  HasOneAnswer,
  HasOneEnd,
  HasOneReport,
  HasOnlyReport,
  ReplayDecidesAnswer,
  ReplayDecidesHalt,
  ReportsHaveFewer,
};

/// No line of a report fails exactly where the report is honest, and the line that is found is the one that doesn't pass
/// while those before it do.
pub fn law_first_failing_line<S, C, X>()
    ensures none { FailsNowhereIfHonest S C X }
    ensures first { FindsFirstFailing S C X }
{}

/// Honest is honest by the rule that every lawful choice may come.
pub fn law_honest_by_any_rule<S, C, X>()
    ensures { AllowsAllHonest S C X }
{}

/// Forced work alone has one honest report where it stops, and else none.
pub fn law_forced_report<S, C, X>()
    ensures only { HasOnlyReport S C X }
    ensures own { HasItsReport S C X }
{}

/// What code answers that follows a course is formed by the choices given, by the rule and within the budget; where it
/// halts at a stop or a spent budget, the report of the halt is honest by the rule and within the budget.
pub fn law_followed<S, C, X>()
    ensures formed { FollowedIsFormed S C X }
    ensures reported { HaltIsReported S C X }
{}

/// Where no report is honest by the rule and within the budget, such code answers, or memory gives out.
pub fn law_complete<S, C, X>()
    ensures { AnswersUnlessReported S C X }
{}

/// Following the course by the choices of a report decides the first line of the report that fails.
pub fn law_replay<S, C, X>()
    ensures answered { ReplayDecidesAnswer S C X }
    ensures halted { ReplayDecidesHalt S C X }
{}

/// Where a rule allows one choice at most, and the budget to be spent only before a treatment, there is at most one answer
/// or one honest report within a budget, and not both.
pub fn law_report_is_one<S, C, X>()
    ensures report { HasOneReport S C X }
    ensures answer { HasOneAnswer S C X }
    ensures end { HasOneEnd S C X }
{}

/// Where runs end and each state has finitely many choices, all runs of a course have fewer treatments together than some
/// number. A course that may stop, but is the same else, has no honest report with so many, and none that so great a
/// budget was spent.
pub fn law_treatments_bounded<S, C, X>()
    ensures exists { TreatmentsAreBounded S C X }
    ensures fewer { ReportsHaveFewer S C X }
    ensures spent { BudgetIsNotSpent S C X }
{}
