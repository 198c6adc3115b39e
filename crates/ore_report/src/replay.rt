//! The chooser of a run that was reported.

ghost use Rattle.std.specs.Prelude.{◌≡◌, ◌≢◌, [], false, true, cond, length, IfOk, IfSome, MatchOption};
ghost use Rattle.ore_course.specs.Replaying.{kept_of, kept_with};
ghost use Rattle.ore_cert.specs.CourseReport.{course_report, stop_as};
ghost use Rattle.ore_pairs.specs.PairRule.{is_lawful, may_treat, some_pair};
ghost use Rattle.ore_groebner.specs.Choosing.{next_kept};
ghost use Rattle.ore_groebner.specs.BasisLeads.{no_leads};
ghost use Rattle.ore_report.specs.Replay.{given_by, gives_kept, replay_allows, replay_allows_spent, replay_settings};

use crate::given::Given;
use crate::pairs::{is_lawful, some_unlisted};
use crate::shown_leads::ShownLeads;
use ore_cert::{Report, Stop};
use ore_groebner::{Chooser, Next, Rule};
use ore_leads::Leads;
use ore_monomial::NoMemory;
use ore_pairs::Listed;
use ore_rows::{Basis, Choice, Runs};
use std::alloc::Global;
use std::marker::Model;

/// It gives the choices of a report, in their order, while they are lawful.
#[derive(Drop)]
pub struct ReplayChooser {
    alloc: Global,
    kept: Given,
    given: Given,
    shown: ShownLeads,
}

impl Model for ReplayChooser {
    ghost use Rattle.std.specs.Prelude.{length, map};
    ghost use Rattle.ore_course.specs.Replaying.{AreFronts};
    ghost use Rattle.ore_report.specs.Replay.{ReplayState, replay_code};

    ghost Value = { ReplayState };

    ghost coded = { replay_code };

    ghost view = { λ a. record { kept = a.kept; counts = map length a.given; shown = a.shown } };

    ghost invariant = { λ a. AreFronts a.kept a.given };
}

impl ReplayChooser {
    /// One that keeps the choices of the report, run by run; the pair whose treatment stopped follows those of the last run,
    /// if there is one. It has given nothing. Its budget is the number of these choices that treat a pair.
    ///
    /// # Errors
    /// Want of memory.
    pub fn new(alloc: Global, report: &Report) -> Result<ReplayChooser, NoMemory>
        ensures { IfOk result (λ c. c ≡ record { kept = kept_of (course_report report.now); counts = []; shown = no_leads }) }
    {
        let mut kept = Given::copy_of(alloc, &report.runs)?;
        keep_stop(alloc, &mut kept, report.stop)?;
        Ok(ReplayChooser {
            alloc,
            kept,
            given: Given::new(alloc),
            shown: ShownLeads::new(alloc),
        })
    }

    /// The choices that it gave: one list for each run that was begun.
    pub fn given(&self) -> &Runs
        ensures { result.now ≡ given_by self.now }
    {
        let _ = &self.kept;
        self.given.runs()
    }

    // The choice that is kept next, where it is lawful.
    fn lawful_next(&self, leads: &Leads, listed: &Listed) -> Option<Choice>
        requires begun { given_by self.now ≢ [] }
        ensures { MatchOption result
            (IfSome (next_kept self.now.kept (given_by self.now)) (λ c. is_lawful leads.now listed.now c ≡ false))
            (λ c. (next_kept self.now.kept (given_by self.now) ≡ Some c) × (is_lawful leads.now listed.now c ≡ true)) }
    {
        let Some(choice) = next_kept(self.kept.runs(), self.given.runs()) else {
            return None;
        };
        if is_lawful(leads, listed, choice) {
            Some(choice)
        } else {
            None
        }
    }
}

// The pair of a stop is kept too, where there is a run.
fn keep_stop(alloc: Global, kept: &mut Given, stop: Stop) -> Result<(), NoMemory>
    ensures { IfOk result (λ _. kept.new ≡ kept_with kept.old (stop_as stop)) }
{
    let Stop::Treat { i, j } = stop else {
        return Ok(());
    };
    if kept.runs().len() == 0 {
        return Ok(());
    }
    kept.push(alloc, Choice::Treat { i, j })
}

// Of the kept choices of the present run the one behind those that were given.
fn next_kept(kept: &Runs, given: &Runs) -> Option<Choice>
    requires begun { given.now ≢ [] }
    ensures { result ≡ next_kept kept.now given.now }
{
    let last = given.len() - 1;
    if last >= kept.len() {
        return None;
    }
    let run = kept.get(last);
    let count = given.get(last).len();
    if count >= run.len() {
        return None;
    }
    Some(*run.get(count))
}

// What is answered without a lawful choice.
fn unchosen(leads: &Leads, listed: &Listed) -> Next
    ensures { result ≡ cond (some_pair (length leads.now) (may_treat leads.now listed.now)) Next.NoLawful Next.Complete }
{
    if some_unlisted(leads, listed) {
        Next::NoLawful
    } else {
        Next::Complete
    }
}

impl Rule for ReplayChooser {
    ghost allows = { replay_allows };

    ghost allows_spent = { replay_allows_spent };
}

impl Chooser for ReplayChooser {
    ghost given = { given_by };

    ghost settings = { replay_settings };

    ghost shown = { λ c. c.shown };

    ghost keeps = { gives_kept };

    fn start_run(&mut self) -> Result<(), NoMemory> {
        self.given.begin(self.alloc)?;
        self.shown = ShownLeads::new(self.alloc);
        Ok(())
    }

    fn next(&mut self, basis: &Basis, listed: &Listed) -> Result<Next, NoMemory> {
        self.shown.show(basis)?;
        let Some(choice) = self.lawful_next(basis.leads(), listed) else {
            return Ok(unchosen(basis.leads(), listed));
        };
        self.given.push(self.alloc, choice)?;
        Ok(Next::Choose(choice))
    }
}
