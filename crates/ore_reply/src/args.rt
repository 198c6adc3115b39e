//! The words of the command line.

ghost use Rattle.std.specs.Prelude.{◌≡◌, ◌<◌, ◌↔◌, [], ◌∷◌, ◌++◌, length, slice_get, Some, OnOk, OnErr, IsTrue};

use ore_monomial::NoMemory;
use std::alloc::Global;
use std::marker::Model;

/// Words in order, each a list of bytes.
#[derive(Drop)]
pub struct ArgList {
    words: Vec<Vec<u8>>,
}

impl Model for ArgList {
    ghost use Rattle.std.specs.Prelude.{ℕ, List, map};

    ghost Value = { List (List ℕ) };

    ghost view = { λ list. map (λ word. word.items) list.words.items };
}

impl ArgList {
    /// No words. Those that are added later take memory from `alloc`.
    pub fn new(alloc: Global) -> ArgList
        ensures { result ≡ [] }
    {
        ArgList {
            words: Vec::new(alloc),
        }
    }

    /// One more word, at the end.
    ///
    /// # Errors
    /// Want of memory. Then the words are the same as before.
    pub fn push(&mut self, word: &[u8]) -> Result<(), NoMemory>
        ensures ok { OnOk result (self.new ≡ self.old ++ word.now ∷ []) }
        ensures err { OnErr result (self.new ≡ self.old) }
    {
        let alloc = *self.words.allocator();
        let copy = Vec::from_slice(alloc, word)?;
        self.words.push(copy)?;
        Ok(())
    }

    /// The number of words.
    pub fn len(&self) -> usize
        ensures { result ≡ length self.now }
    {
        self.words.len()
    }

    /// Whether there is no word. A word without bytes is one.
    pub fn is_empty(&self) -> bool
        ensures { IsTrue result ↔ (self.now ≡ []) }
    {
        self.words.is_empty()
    }

    /// The word at place `k`, which is below [`ArgList::len`]; the first has place 0.
    pub fn word(&self, k: usize) -> &[u8]
        requires { k < length self.now }
        ensures { slice_get self.now k ≡ Some result.now }
    {
        self.words[k].as_slice()
    }
}
