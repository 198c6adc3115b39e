//! Calls that are counted, of which some fail.

ghost use Rattle.std.specs.Prelude.{◌≡◌, ◌↔◌, Contains, IsTrue};
ghost use Rattle.ore_io.specs.Calls.{next_call, one_call};

use std::marker::Model;

/// The numbers of the calls that fail, from 1, and how many calls were made.
#[derive(Drop)]
pub struct Schedule {
    failing: Vec<u64>,
    made: u64,
}

impl Model for Schedule {
    ghost use Rattle.std.specs.Prelude.{◌<◌, ◌^◌, All};
    ghost use Rattle.ore_io.specs.Calls.{Calls};

    ghost Value = { Calls };

    ghost view = { λ schedule. record { failing = schedule.failing.items; made = schedule.made } };

    ghost invariant = { λ schedule. All (λ number. number < 2 ^ 64) schedule.failing.items };
}

impl Schedule {
    /// No call was made yet, and those with these numbers fail.
    pub fn new(failing: Vec<u64>) -> Schedule
        ensures failing { result.failing ≡ failing.items }
        ensures made { result.made ≡ 0 }
    {
        Schedule { failing, made: 0 }
    }

    /// Counts one more call, and says whether it fails. Past 2^64 - 1 calls none does.
    pub fn next_fails(&mut self) -> bool
        ensures fails { IsTrue result ↔ Contains self.old.failing (next_call self.old) }
        ensures counted { self.new ≡ one_call self.old }
    {
        match self.made.checked_add(1) {
            Some(number) => {
                self.made = number;
                self.failing.contains(&number)
            }
            None => false,
        }
    }
}
