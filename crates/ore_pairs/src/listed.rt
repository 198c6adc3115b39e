//! The pairs that a run has dealt with.

ghost use Rattle.std.specs.Prelude.{◌≡◌, ◌<◌, [], ◌∷◌, IfOk, IfErr};
ghost use Rattle.ore_pairs.specs.PairRule.{is_listed, either_listed, HaveSamePairs};

use ore_monomial::NoMemory;
use std::alloc::Global;
use std::collections::HashSet;
use std::marker::Model;

/// The pairs of basis rows that a run has treated or skipped, each by the places of its rows, the lesser first.
#[derive(Drop)]
pub struct Listed {
    pairs: HashSet<(usize, usize)>,
}

impl Model for Listed {
    ghost use Rattle.std.specs.Prelude.{List, ℕ};
    ghost use Rattle.ore_pairs.specs.Listed.{pairs_code, AreOrdered};

    ghost Value = { List (ℕ × ℕ) };

    ghost coded = { pairs_code };

    ghost view = { λ a. a.pairs.keys };

    ghost invariant = { λ a. AreOrdered a.pairs.keys };
}

impl Listed {
    /// No pairs.
    pub fn new(alloc: Global) -> Listed
        ensures { result ≡ [] }
    {
        Listed {
            pairs: HashSet::new(alloc),
        }
    }

    /// Whether the pair is listed.
    pub fn has(&self, i: usize, j: usize) -> bool
        ensures { result ≡ is_listed i j self.now }
    {
        self.pairs.contains(&(i, j))
    }

    /// Whether the pair is listed, in one of its two orders.
    pub fn has_either(&self, i: usize, j: usize) -> bool
        ensures { result ≡ either_listed i j self.now }
    {
        let _ = &self.pairs;
        if i < j {
            self.has(i, j)
        } else {
            self.has(j, i)
        }
    }

    /// The pair is listed, if it wasn't before.
    ///
    /// # Errors
    /// Want of memory. Then nothing has changed.
    pub fn add(&mut self, i: usize, j: usize) -> Result<(), NoMemory>
        requires { i < j }
        ensures added { IfOk result (λ _. HaveSamePairs self.new ((i, j) ∷ self.old)) }
        ensures kept { IfErr result (λ _. self.new ≡ self.old) }
    {
        self.pairs.insert((i, j))?;
        Ok(())
    }
}
