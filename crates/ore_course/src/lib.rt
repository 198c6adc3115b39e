//! Courses: what a computation does in order, where some of it is chosen freely; and the honest reports of those that
//! stopped.
//!
//! A course is forced work and runs, one after another. A run has free choices, and what follows depends on the state to
//! which they lead. This crate has no code but empty bodies, whose contracts are the laws. States, choices and what a
//! choice makes of a state aren't defined here: a `Runner` has all that the definitions know of them, and the laws hold
//! for every runner. Such trees of interactions are free monads (Swierstra 2008).
//!
//! Definitions (`specs/`):
//!
//! - `Course` is `Done x`, `Stops cause` or `Runs first next`. `forced` turns a value or a cause into a course, `run_from`
//!   a first state into one run, and a do-block puts courses one behind another, as
//!
//!       a ← run_on r
//!       star ← forced (adjoint r)
//!       b ← run_on star
//!       forced (certificate r a b)
//!
//! - `LeadsTo`: complete runs leave this much of a course; `IsFormedBy`: they lead to its answer. A `Rule` says which
//!   choices may come in a state, and in which states the budget may be spent.
//! - `Report` has the choices of the runs that were begun, and where and why the course stopped. It is honest (`IsHonest`)
//!   where the choices lead there, and it may be so by a rule and within a budget. `first_failing` finds the first of its
//!   lines that doesn't pass, and `IsFirstFailing` says which one that is.
//! - `Follows course before given rest` is the invariant of code that follows a course by the choices of a chooser, and
//!   `IsHaltedIn` says why such code has no answer. `replayed` finds the first failing line from lengths alone, where the
//!   chooser gave the choices of the report.
//! - `AreShort`, `HasBudget`: numbers that the choices of a run, and the treatments of all runs, don't reach.
//!
//! `law_*` in `laws` states what is proved of them. Proofs of code cite the lemmas of `proofs/`: `Calls.antt` has one for
//! each kind of statement of a function that follows a course, `OneRun.antt` those for a call that makes one run,
//! `Leads.antt` takes a course apart that was followed to its end, `Endings.antt` shows a run to have a number that its
//! choices don't reach, and `Budget.antt` shows a course to have a budget.
//!
//! For runs on the rows of a matrix these are:
//!
//! | here | there |
//! |---|---|
//! | runner | `runner` of `ore_pairs/specs/Runner.antt`, and `runner_within` for limits |
//! | state, first state | `RunState` and `begin` of `ore_pairs` |
//! | choice, treatment | `Choice` of `ore_rows`; `Treat` |
//! | step, refusal | `step` of `ore_pairs`; `Refusal` is the one here |
//! | complete | each pair with equal lead columns is listed: `is_complete` of `ore_pairs` |
//! | a course of one run | `run_on_rows` and `run_within` of `ore_pairs` |
//! | rule | `rule_of` of `ore_pairs`: what a chooser allows, on what is shown of the state and on its listed pairs |
//! | halt | `halt_in_course` of `ore_groebner/specs/Courses.antt`: `Treat` stands for the choice that treats this pair |
//! | report, its lines | `course_report` of `ore_cert`, without the plan, which names the course; the first run has line 4 |
#![tactic(auto)]

pub mod laws;
