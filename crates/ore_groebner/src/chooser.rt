//! Who chooses what a run does next.

ghost use Rattle.std.specs.Prelude.{◌≡◌, ◌≢◌, List, [], ◌∷◌, ◌++◌, IfOk, IfErr};
ghost use Rattle.ore_rows.specs.declared.choices.Choice as rows;
ghost use Rattle.ore_rows.specs.Reduction.{leads_of};
ghost use Rattle.ore_pairs.specs.PairRule.{HaveSamePairs};
ghost use Rattle.ore_groebner.specs.Choosing.{present, chosen_pairs, given_after, Settings, IsChooserAnswer, IsPrefixOfKept};
ghost use Rattle.ore_groebner.specs.BasisLeads.{BasisLeads, basis_leads, no_leads, BeginsWithLeads};
ghost use Rattle.ore_groebner.specs.Rules.{IsAllowed};

use ore_monomial::NoMemory;
use ore_pairs::Listed;
use ore_rows::{Basis, Choice, Rule};

/// What a chooser answers.
#[derive(Clone, Copy, Debug, PartialEq, Eq, Drop)]
pub enum Next {
    /// This comes next.
    Choose(Choice),
    /// Each pair is dealt with.
    Complete,
    /// A pair is left, and the budget is spent.
    Spent,
    /// A pair is left, and the next kept choice is absent or not lawful.
    NoLawful,
}

/// A source of choices, for one run after another.
pub trait Chooser: Rule {
    /// The choices that it gave, run by run. The present run is the last.
    ghost given: { Self → List (List rows.Choice) };

    /// Its budget, whether it replays, and the choices that it keeps.
    ghost settings: { Self → Settings };

    /// The order of monomials and the leads that it was shown last in the present run.
    ghost shown: { Self → BasisLeads };

    /// A new run begins.
    ///
    /// # Errors
    /// Want of memory. Then no run has begun.
    fn start_run(&mut self) -> Result<(), NoMemory>
        ensures begun { IfOk result (λ _. given self.new ≡ given self.old ++ [] ∷ []) }
        ensures no_leads { IfOk result (λ _. shown self.new ≡ no_leads) }
        ensures refused { IfErr result (λ _. given self.new ≡ given self.old) }
        ensures settings { settings self.new ≡ settings self.old };

    /// What comes next in the present run. The rule of the chooser allows it, by the pairs of the present run in order.
    ///
    /// # Errors
    /// Want of memory. Then it has given nothing.
    fn next(&mut self, basis: &Basis, listed: &Listed) -> Result<Next, NoMemory>
        requires begun { given self.old ≢ [] }
        requires lists { HaveSamePairs listed.now (chosen_pairs (present (given self.old))) }
        requires grown { BeginsWithLeads (shown self.old) basis.now }
        ensures answer { IfOk result (IsChooserAnswer (leads_of basis.now.items) listed.now (given self.old) (settings self.old)) }
        ensures allowed { IfOk result (IsAllowed Self.allows Self.allows_spent (basis_leads basis.now) (chosen_pairs (present (given self.old)))) }
        ensures given { given self.new ≡ given_after (given self.old) result }
        ensures shown { IfOk result (λ _. shown self.new ≡ basis_leads basis.now) }
        ensures settings { settings self.new ≡ settings self.old };

    /// One that doesn't replay keeps no choices; one that does has given, in each run, a front of those that it keeps.
    ghost keeps: { (x : Self) → IsPrefixOfKept (settings x) (given x) };
}
