//! The choosers of runs.
//!
//! A [`LiveChooser`] chooses by the chain rule. Of the pairs of basis rows with equal lead columns that aren't listed
//! it takes the one whose common multiple, a term in the lead column, is least, then the one with the least first
//! place, then the one with the least second place. Pairs whose common multiple has a degree above 32,767 come last,
//! by their places alone. The pair is skipped by way of the least row that lets it be, and treated where no row does;
//! there, and only there, the budget may be spent. It keeps the choices that it gave, run by run.
//!
//! [`LiveChooser::into_report`] is the report of a call that halted: a function of the choices that were given, the
//! budget, the plan and the halt. Where nothing was given before a call that follows a course, it is an honest report
//! of this course, by the rule and within the budget (`law_followed` of `ore_course`).
//!
//! The rule of the live chooser is that choice and no other (`chain_allows` and `chain_allows_spent` in
//! `specs/ChainRule.antt`): at each state one choice may come ([`law_rule`]).
//!
//! A [`ReplayChooser`] gives the choices of a report, run by run, while each is lawful where it comes; the pair whose
//! treatment stopped comes behind those of the last run. Its rule is that every lawful choice may come, and its budget
//! is that of all the treatments that it keeps, so it is never spent. By where a call that follows a course stops with it,
//! the first line of the report that fails is known (`law_replay` of `ore_course`).
//!
//! [`Given`] is a list of choices, run by run; [`ShownLeads`] is what a run has shown of its basis. The pairs that wait
//! stand in a queue (`specs/Queue.antt`), an ordered set, each with a place whose order is that of the rule. The pairs
//! of a new basis row enter once, and a choice takes one out.
//!
//! The crate stands on `ore_cert` for reports, on `ore_groebner` for the traits of choosers, on `ore_pairs` for listed
//! pairs, common multiples and the rule by which a pair may be skipped, and on `ore_rows` and `ore_leads` for the leads
//! of a basis.
#![tactic(auto)]

pub mod given;
mod laws;
pub mod live;
mod pairs;
mod queue;
pub mod replay;
pub mod shown_leads;

pub use given::Given;
pub use laws::law_rule;
pub use live::LiveChooser;
pub use replay::ReplayChooser;
pub use shown_leads::ShownLeads;
