//! Declared names.

ghost use Rattle.std.specs.Prelude.{◌≡◌, ◌<◌, [], length, slice_get, IfOk};
ghost use Rattle.ore_text.specs.Names.{index_of};
ghost use Rattle.ore_text.specs.Names.{IsAdded, AreNames};
ghost use Rattle.ore_text.specs.Names.{IsName};

use indexmap::IndexSet;
use ore_monomial::NoMemory;
use std::alloc::Global;
use std::marker::Model;

/// The names of variables in declared order, no two the same.
#[derive(Drop)]
pub struct Names {
    names: IndexSet<Vec<u8>>,
}

impl Model for Names {
    ghost use Rattle.std.specs.Prelude.{ℕ, List, map};
    ghost use Rattle.std.specs.Coded.{coded_list, coded_ℕ};
    ghost use Rattle.ore_text.specs.Names.{AreNames};

    ghost Value = { List (List ℕ) };

    ghost coded = { coded_list (coded_list coded_ℕ) };

    ghost view = { λ a. map (λ n. n.items) a.names.keys };

    ghost invariant = { λ a. AreNames (map (λ n. n.items) a.names.keys) };
}

impl Names {
    /// No names. Those that are added later take memory from `alloc`.
    pub fn new(alloc: Global) -> Names
        ensures { result ≡ [] }
    {
        Names {
            names: IndexSet::new(alloc),
        }
    }

    /// Does nothing: its clause says that each name is of the form of a name, and that no two are the same.
    pub fn names_fit(&self)
        ensures { AreNames self.now }
    {
        let _ = &self.names;
    }

    /// The index of a name, where the first one has index 0, if it is there.
    pub fn find(&self, name: &[u8]) -> Option<usize>
        ensures { result ≡ index_of self.now name.now }
    {
        self.names.get_index_of(name)
    }

    /// The name with the index `k`, which is below [`Names::len`].
    pub fn name(&self, k: usize) -> &[u8]
        requires { k < length self.now }
        ensures { slice_get self.now k ≡ Some result.now }
    {
        &self.names.as_slice()[k]
    }

    /// The number of names.
    pub fn len(&self) -> usize
        ensures { result ≡ length self.now }
    {
        self.names.len()
    }

    /// Adds a name behind the others. False where it is there already.
    ///
    /// The name is a letter with at most 15 letters, digits or underscores behind it.
    ///
    /// # Errors
    /// Want of memory. Then the names are the same as before.
    pub fn add(&mut self, name: &[u8]) -> Result<bool, NoMemory>
        requires { IsName name.now }
        ensures { IsAdded result self.old self.new name.now }
    {
        let alloc = *self.names.allocator();
        let copy = Vec::from_slice(alloc, name)?;
        let is_new = self.names.insert(copy)?;
        Ok(is_new)
    }

    /// The same names, in memory of their own.
    ///
    /// # Errors
    /// Want of memory.
    pub fn copy(&self, alloc: Global) -> Result<Names, NoMemory>
        ensures { IfOk result (λ n. n ≡ self.now) }
    {
        self.names_fit();
        let mut copy = Names::new(alloc);
        for k in 0..self.len() {
            copy.add(self.name(k))?;
        }
        Ok(copy)
    }
}
