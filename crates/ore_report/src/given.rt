//! The choices that a chooser gave, run by run.

ghost use Rattle.std.specs.Prelude.{◌≡◌, ◌≢◌, [], ◌∷◌, ◌++◌, IfOk, IfErr};
ghost use Rattle.ore_course.specs.Choices.{but_last, without_last};
ghost use Rattle.ore_groebner.specs.Choosing.{with_choice};

use ore_monomial::NoMemory;
use ore_rows::{Choice, Choices, Runs};
use std::alloc::Global;
use std::marker::Model;
use std::mem;

/// The choices of runs, run by run, of which the last may grow.
#[derive(Drop)]
pub struct Given {
    runs: Runs,
}

impl Model for Given {
    ghost use Rattle.std.specs.Prelude.{List};
    ghost use Rattle.ore_rows.specs.declared.choices.Choice.{Choice};
    ghost use Rattle.ore_report.specs.Codes.{runs_code};

    ghost Value = { List (List Choice) };

    ghost coded = { runs_code };

    ghost view = { λ a. a.runs };
}

impl Given {
    /// No runs.
    pub fn new(alloc: Global) -> Given
        ensures { result ≡ [] }
    {
        Given {
            runs: Runs::from_vec(Vec::new(alloc)),
        }
    }

    /// The choices of these runs, run by run.
    ///
    /// # Errors
    /// Want of memory.
    pub fn copy_of(alloc: Global, runs: &Runs) -> Result<Given, NoMemory>
        ensures { IfOk result (λ given. given ≡ runs.now) }
    {
        let mut items = Vec::new(alloc);
        for k in 0..runs.len() {
            items.push(copied(alloc, runs.get(k))?)?;
        }
        Ok(Given {
            runs: Runs::from_vec(items),
        })
    }

    /// One more run, without choices.
    ///
    /// # Errors
    /// Want of memory. Then nothing has changed.
    pub fn begin(&mut self, alloc: Global) -> Result<(), NoMemory>
        ensures begun { IfOk result (λ _. self.new ≡ self.old ++ [] ∷ []) }
        ensures kept { IfErr result (λ _. self.new ≡ self.old) }
    {
        let mut items = self.take(alloc);
        match items.push(Choices::from_vec(Vec::new(alloc))) {
            Ok(()) => {
                self.runs = Runs::from_vec(items);
                Ok(())
            }
            Err(_) => {
                self.runs = Runs::from_vec(items);
                Err(NoMemory)
            }
        }
    }

    /// One more choice of the last run.
    ///
    /// # Errors
    /// Want of memory. Then nothing has changed.
    pub fn push(&mut self, alloc: Global, choice: Choice) -> Result<(), NoMemory>
        requires { self.old ≢ [] }
        ensures pushed { IfOk result (λ _. self.new ≡ with_choice self.old choice) }
        ensures kept { IfErr result (λ _. self.new ≡ self.old) }
    {
        let mut items = self.take(alloc);
        let last = items.len() - 1;
        let pushed = push_choice(alloc, &mut items[last], choice);
        self.runs = Runs::from_vec(items);
        pushed
    }

    /// The last run loses its last choice. Nothing changes where there is none.
    pub fn pop(&mut self, alloc: Global)
        ensures { self.new ≡ without_last self.old }
    {
        if self.runs.len() == 0 {
            return;
        }
        let mut items = self.take(alloc);
        let last = items.len() - 1;
        pop_choice(alloc, &mut items[last]);
        self.runs = Runs::from_vec(items);
    }

    /// The runs, which stay here.
    pub fn runs(&self) -> &Runs
        ensures { result.now ≡ self.now }
    {
        &self.runs
    }

    /// The runs.
    pub fn into_runs(self) -> Runs
        ensures { result ≡ self }
    {
        self.runs
    }

    // The runs as a vector. None are left.
    fn take(&mut self, alloc: Global) -> Vec<Choices>
        ensures { result.items ≡ self.old }
    {
        mem::replace(&mut self.runs, Runs::from_vec(Vec::new(alloc))).into_vec()
    }
}

// The choices of a run.
fn copied(alloc: Global, run: &Choices) -> Result<Choices, NoMemory>
    ensures { IfOk result (λ copy. copy ≡ run.now) }
{
    let mut items = Vec::new(alloc);
    for k in 0..run.len() {
        items.push(*run.get(k))?;
    }
    Ok(Choices::from_vec(items))
}

// One more choice at the end.
fn push_choice(alloc: Global, run: &mut Choices, choice: Choice) -> Result<(), NoMemory>
    ensures pushed { IfOk result (λ _. run.new ≡ run.old ++ choice ∷ []) }
    ensures kept { IfErr result (λ _. run.new ≡ run.old) }
{
    let mut items = mem::replace(run, Choices::from_vec(Vec::new(alloc))).into_vec();
    match items.push(choice) {
        Ok(()) => {
            *run = Choices::from_vec(items);
            Ok(())
        }
        Err(_) => {
            *run = Choices::from_vec(items);
            Err(NoMemory)
        }
    }
}

// All choices but the last.
fn pop_choice(alloc: Global, run: &mut Choices)
    ensures { run.new ≡ but_last run.old }
{
    let mut items = mem::replace(run, Choices::from_vec(Vec::new(alloc))).into_vec();
    items.pop();
    *run = Choices::from_vec(items);
}
