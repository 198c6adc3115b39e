//! The chooser of a live run.

ghost use Rattle.std.specs.Prelude.{◌≡◌, ◌≢◌, ◌≤◌, [], ◌∷◌, ◌++◌, false, IfOk, IfErr};
ghost use Rattle.ore_algebra.specs.Limits as limits;
ghost use Rattle.ore_course.specs.Following.{IsReportable, Passed, report_of};
ghost use Rattle.ore_course.specs.Report.{ByStop};
ghost use Rattle.ore_cert.specs.CourseReport.{course_report, reported_as};
ghost use Rattle.ore_pairs.specs.PairRule.{HaveSamePairs};
ghost use Rattle.ore_groebner.specs.Courses.{halt_in_course, place_in_course};
ghost use Rattle.ore_groebner.specs.Choosing.{present, chosen_pairs, given_after, AreWithinBudget};
ghost use Rattle.ore_groebner.specs.BasisLeads.{no_leads, basis_leads, BeginsWithLeads};
ghost use Rattle.ore_groebner.specs.declared.chooser.Next.TheVariants.{Choose};
ghost use Rattle.ore_rows.specs.Reduction.{leads_of};
ghost use Rattle.ore_rows.specs.declared.choices.Choice.TheVariants.{Skip};
ghost use Rattle.ore_report.specs.ChainRule.{chain_allows, chain_allows_spent, order_shown};
ghost use Rattle.ore_report.specs.Live.{IsTreatmentAnswer, IsNextPairAnswer, live_settings, keeps_nothing};
ghost use Rattle.ore_report.specs.Queue.{IsFirst, IsPlace};

use crate::given::Given;
use crate::pairs::least_via;
use crate::queue::{Queue, QueuedPair};
use crate::shown_leads::ShownLeads;
use ore_cert::{Cause, Plan, Report, Stop};
use ore_groebner::{Chooser, Halt, Next, Rule, StopAt};
use ore_monomial::NoMemory;
use ore_pairs::Listed;
use ore_rows::{Basis, Choice, Runs};
use std::alloc::Global;
use std::marker::Model;

/// It chooses by the chain rule, and treats pairs while its budget lasts.
#[derive(Drop)]
pub struct LiveChooser {
    alloc: Global,
    budget: u32,
    treated: u32,
    given: Given,
    shown: ShownLeads,
    queue: Queue,
}

impl Model for LiveChooser {
    ghost use Rattle.ore_report.specs.Live.{LiveState, live_code, IsLive};

    ghost Value = { LiveState };

    ghost coded = { live_code };

    ghost view = { λ a. record { budget = a.budget; given = a.given; shown = a.shown } };

    ghost invariant = { λ a. IsLive a.budget a.treated a.given a.shown a.queue };
}

impl LiveChooser {
    /// One that has given nothing, and treats so many pairs in all its runs.
    pub fn new(alloc: Global, budget: u32) -> LiveChooser
        requires { budget ≤ 1000000 }
        ensures { result ≡ record { budget = budget; given = []; shown = no_leads } }
    {
        LiveChooser {
            alloc,
            budget,
            treated: 0,
            given: Given::new(alloc),
            shown: ShownLeads::new(alloc),
            queue: Queue::new(alloc),
        }
    }

    /// The choices that it gave, run by run. They treat no more pairs than its budget has.
    pub fn into_runs(self) -> Runs
        ensures runs { result ≡ self.given }
        ensures within_budget { AreWithinBudget self.given self.budget }
    {
        self.given.into_runs()
    }

    /// The report of a call of this plan that halted so: why and where it stopped, with the choices that it was given. A
    /// choice whose treatment stopped is the stop, and not one of the choices.
    pub fn into_report(self, plan: Plan, halt: &Halt) -> Report
        requires { IsReportable (halt_in_course halt.now) }
        ensures plan { result.plan ≡ plan }
        ensures report { course_report result ≡ report_of self.given self.budget (halt_in_course halt.now) }
    {
        match *halt {
            Halt::Overflow(at) => self.stopped(plan, Cause::Overflow, at),
            Halt::Degree(at) => self.stopped(plan, Cause::Degree, at),
            Halt::Spent | Halt::NoLawful | Halt::Memory => Report {
                cause: Cause::Budget(self.budget),
                plan,
                runs: self.given.into_runs(),
                stop: Stop::Budget,
            },
        }
    }

    // The report of an operation that stopped for the cause.
    fn stopped(self, plan: Plan, cause: Cause, at: StopAt) -> Report
        ensures plan { result.plan ≡ plan }
        ensures report { (why : limits.Cause) → reported_as cause ≡ ByStop why → course_report result ≡ report_of self.given self.budget (Passed why (place_in_course at)) }
    {
        let mut given = self.given;
        let stop = match at {
            StopAt::Forced => Stop::Forced,
            StopAt::Treat { i, j } => {
                given.pop(self.alloc);
                Stop::Treat { i, j }
            }
        };
        Report {
            cause,
            plan,
            runs: given.into_runs(),
            stop,
        }
    }

    // The next pair, if there is one.
    fn next_place(&mut self, basis: &Basis, listed: &Listed) -> Result<Option<QueuedPair>, NoMemory>
        requires lists { HaveSamePairs listed.now (chosen_pairs (present self.old.given)) }
        requires grown { BeginsWithLeads self.old.shown basis.now }
        ensures first { IfOk result (IsFirst (order_shown (basis_leads basis.now)) (leads_of basis.now.items) listed.now) }
        ensures given { self.new.given ≡ self.old.given }
        ensures shown { IfOk result (λ _. self.new.shown ≡ basis_leads basis.now) }
        ensures budget { self.new.budget ≡ self.old.budget }
    {
        self.shown.show(basis)?;
        self.queue.enter(self.shown.order(), basis.leads(), listed)?;
        Ok(self.queue.first())
    }

    // The pair is skipped by way of a row, where there is one, and else treated.
    fn answer_pair(&mut self, place: &QueuedPair, via: Option<usize>) -> Result<Next, NoMemory>
        requires begun { self.old.given ≢ [] }
        requires place { IsPlace (order_shown self.old.shown) self.old.shown.leads place.now }
        ensures answer { IfOk result (IsNextPairAnswer self.old.given self.old.budget place.now.first place.now.second via) }
        ensures given { self.new.given ≡ given_after self.old.given result }
        ensures shown { self.new.shown ≡ self.old.shown }
        ensures budget { self.new.budget ≡ self.old.budget }
    {
        match via {
            None => self.treat(place),
            Some(via) => self.skip(place, via),
        }
    }

    // The pair is treated, where the budget allows.
    fn treat(&mut self, place: &QueuedPair) -> Result<Next, NoMemory>
        requires begun { self.old.given ≢ [] }
        requires place { IsPlace (order_shown self.old.shown) self.old.shown.leads place.now }
        ensures answer { IfOk result (IsTreatmentAnswer self.old.given self.old.budget place.now.first place.now.second) }
        ensures given { self.new.given ≡ given_after self.old.given result }
        ensures shown { self.new.shown ≡ self.old.shown }
        ensures budget { self.new.budget ≡ self.old.budget }
    {
        if self.treated == self.budget {
            return Ok(Next::Spent);
        }
        let choice = Choice::Treat {
            i: place.first,
            j: place.second,
        };
        self.given.push(self.alloc, choice)?;
        self.queue.places.remove(place);
        self.treated += 1;
        Ok(Next::Choose(choice))
    }

    // The pair is skipped by way of a row.
    fn skip(&mut self, place: &QueuedPair, via: usize) -> Result<Next, NoMemory>
        requires begun { self.old.given ≢ [] }
        requires place { IsPlace (order_shown self.old.shown) self.old.shown.leads place.now }
        ensures answer { IfOk result (λ x. x ≡ Choose (Skip place.now.first place.now.second via)) }
        ensures given { self.new.given ≡ given_after self.old.given result }
        ensures shown { self.new.shown ≡ self.old.shown }
        ensures budget { self.new.budget ≡ self.old.budget }
    {
        let choice = Choice::Skip {
            i: place.first,
            j: place.second,
            via,
        };
        self.given.push(self.alloc, choice)?;
        self.queue.places.remove(place);
        Ok(Next::Choose(choice))
    }
}

impl Rule for LiveChooser {
    ghost allows = { chain_allows };

    ghost allows_spent = { chain_allows_spent };
}

impl Chooser for LiveChooser {
    ghost given = { λ c. c.given };

    ghost settings = { λ c. live_settings c.budget };

    ghost shown = { λ c. c.shown };

    ghost keeps = { λ c. keeps_nothing c.budget c.given };

    fn start_run(&mut self) -> Result<(), NoMemory> {
        self.given.begin(self.alloc)?;
        self.shown = ShownLeads::new(self.alloc);
        self.queue = Queue::new(self.alloc);
        Ok(())
    }

    fn next(&mut self, basis: &Basis, listed: &Listed) -> Result<Next, NoMemory> {
        match self.next_place(basis, listed)? {
            None => Ok(Next::Complete),
            Some(place) => {
                let via = least_via(basis.leads(), listed, place.first, place.second);
                self.answer_pair(&place, via)
            }
        }
    }
}
