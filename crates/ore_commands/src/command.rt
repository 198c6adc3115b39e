//! The commands.

ghost use Rattle.std.specs.Prelude.{◌≡◌, ◌↔◌, ◌≤◌, ℕ, List, [], ◌∷◌, IsTrue, IfOk, MatchOption, decimal};
ghost use Rattle.ore_cert.specs.EachKind.{IsLength};
ghost use Rattle.ore_cert.specs.WholeText.{IsWrittenPlan};
ghost use Rattle.ore_cert.specs.declared.report.Plan as plan_of;
ghost use Rattle.ore_reply.specs.MadeReply.{reply_of, IsOfBytes};
ghost use Rattle.ore_commands.specs.Commands.{search_words, budget_words, number_words, AreWordsOfCommand, IsKnown, IsCommandInRange, Names, input_limit};
ghost use Rattle.ore_commands.specs.Answer.{IsReplyOf, IsTrueOf};
ghost use Rattle.ore_commands.specs.Finding.{greatest_budget};
ghost use Rattle.ore_commands.specs.Generating.{greatest_problem_number};

use crate::check::check_reply;
use crate::generated::generate_reply;
use crate::search::{Search, search_reply};
use crate::survey::survey_reply;
use ore_cert::Plan;
use ore_monomial::NoMemory;
use ore_parts::sizes::number_in;
use ore_reply::{ArgList, Reply, Status};
use std::alloc::Global;

/// What the program can be called for.
#[derive(Clone, Copy, Debug, PartialEq, Eq, Drop)]
pub enum Command {
    /// Reads a problem and a certificate, and says whether that is valid.
    Check,
    /// Reads a problem, and writes what the plan finds of its matrix, or the report of a search that stopped.
    Search(Plan),
    /// Reads a problem, and writes what the verdict on its matrix claims, or the report of a search that stopped.
    AnalyseInBrief,
    /// Reads a problem, and writes the verdict on its matrix, or the report of a search that stopped; at most so many pairs
    /// are treated.
    AnalyseWithin(u32),
    /// Reads nothing, and writes the generated problem with this number.
    Generate(u16),
    /// Reads nothing, and writes the verdict on the generated problem with this number and the size of its certificate, or the
    /// report of a search that stopped.
    Survey(u16),
}

impl Command {
    /// The command that these words call.
    pub fn named(words: &ArgList) -> Option<Command>
        ensures { MatchOption result (¬ IsKnown words.now) (AreWordsOfCommand words.now) }
    {
        if is_alone(words, b"check") {
            return Some(Command::Check);
        }
        if let Some(plan) = plan_named(words) {
            return Some(Command::Search(plan));
        }
        if are_two(words, b"analyse", b"--brief") {
            return Some(Command::AnalyseInBrief);
        }
        if let Some(budget) = budget_named(words) {
            return Some(Command::AnalyseWithin(budget));
        }
        if let Some(number) = generated_named(words, b"generate") {
            return Some(Command::Generate(number));
        }
        match generated_named(words, b"survey") {
            Some(number) => Some(Command::Survey(number)),
            None => None,
        }
    }

    /// How many bytes it reads at most; a command that reads nothing has no limit.
    pub fn input_limit(self) -> Option<usize>
        ensures { result ≡ input_limit self }
    {
        match self {
            Command::Check => Some(33_554_432),
            Command::Search(_) => Some(1_048_576),
            Command::AnalyseInBrief => Some(1_048_576),
            Command::AnalyseWithin(_) => Some(1_048_576),
            Command::Generate(_) => None,
            Command::Survey(_) => None,
        }
    }

    /// The command's own reply to the bytes of an input.
    ///
    /// # Errors
    /// Want of memory.
    pub fn reply(self, alloc: Global, bytes: &[u8]) -> Result<Reply, NoMemory>
        requires range { IsCommandInRange self }
        ensures reply { IfOk result (λ r. IsReplyOf self bytes.now (reply_of r)) }
        ensures truth { IfOk result (λ r. r.status ≡ Status.Done → IsTrueOf self r.text.items bytes.now) }
        ensures of_bytes { IfOk result (λ r. IsOfBytes r.status) }
    {
        match self {
            Command::Check => check_reply(alloc, bytes),
            Command::Search(plan) => search_reply(alloc, Search::by(plan), bytes),
            Command::AnalyseInBrief => search_reply(alloc, Search::in_brief(), bytes),
            Command::AnalyseWithin(budget) => search_reply(alloc, Search::within(budget), bytes),
            Command::Generate(number) => generate_reply(alloc, number),
            Command::Survey(number) => survey_reply(alloc, number),
        }
    }
}

// The plan by which these words let search.
fn plan_named(words: &ArgList) -> Option<Plan>
    ensures { Names search_words IsWrittenPlan words.now result }
{
    if is_alone(words, b"analyse") {
        return Some(Plan::Analyse);
    }
    if is_alone(words, b"kernel") {
        return Some(Plan::KernelLeft);
    }
    if is_alone(words, b"parametrise") {
        return Some(Plan::KernelRight);
    }
    if are_two(words, b"inverse", b"left") {
        return Some(Plan::InverseLeft);
    }
    if are_two(words, b"inverse", b"right") {
        return Some(Plan::InverseRight);
    }
    if is_alone(words, b"adjoint") {
        return Some(Plan::Adjoint);
    }
    if let Some(count) = length_named(words, b"resolve") {
        return Some(Plan::Resolve(count));
    }
    match length_named(words, b"ext") {
        Some(place) => Some(Plan::Ext(place)),
        None => None,
    }
}

// The number of links behind this word, if the words are that.
fn length_named(words: &ArgList, word: &[u8]) -> Option<u8>
    ensures { Names (λ k. word.now ∷ decimal k ∷ []) IsLength words.now result }
{
    let Some(digits) = second_behind(words, word) else {
        return None
    };
    match number_in(digits) {
        Some(number) => length_of(number),
        None => None,
    }
}

// The number as that of links, from 1 to 12.
fn length_of(number: usize) -> Option<u8>
    ensures { MatchOption result (¬ IsLength number) (λ k. IsLength k × (k ≡ number)) }
{
    match number {
        1..=12 => Some(number as u8),
        _ => None,
    }
}

// The budget of `analyse`, if these words name one.
fn budget_named(words: &ArgList) -> Option<u32>
    ensures { Names budget_words (λ n. n ≤ greatest_budget) words.now result }
{
    let Some(digits) = third_behind(words, b"analyse", b"--budget") else {
        return None
    };
    match number_in(digits) {
        Some(number) => budget_of(number),
        None => None,
    }
}

// The number as a budget, if it isn't too great.
fn budget_of(number: usize) -> Option<u32>
    ensures { MatchOption result (¬ (number ≤ greatest_budget)) (λ n. (n ≤ greatest_budget) × (n ≡ number)) }
{
    match number {
        0..=1000000 => Some(number as u32),
        _ => None,
    }
}

// The number of a generated problem behind this word, if the words are that.
fn generated_named(words: &ArgList, word: &[u8]) -> Option<u16>
    ensures { Names (number_words word.now) (λ n. n ≤ greatest_problem_number) words.now result }
{
    let Some(digits) = second_behind(words, word) else {
        return None
    };
    match number_in(digits) {
        Some(number) => generated_of(number),
        None => None,
    }
}

// The number as that of a generated problem, if it isn't too great.
fn generated_of(number: usize) -> Option<u16>
    ensures { MatchOption result (¬ (number ≤ greatest_problem_number)) (λ n. (n ≤ greatest_problem_number) × (n ≡ number)) }
{
    match number {
        0..=65535 => Some(number as u16),
        _ => None,
    }
}

// The last of two words, if the first is this.
fn second_behind<'a>(words: &'a ArgList, first: &[u8]) -> Option<&'a [u8]>
    ensures { MatchOption result ((word : List ℕ) → ¬ (words.now ≡ first.now ∷ word ∷ [])) (λ word. words.now ≡ first.now ∷ word.now ∷ []) }
{
    if words.len() != 2 {
        return None;
    }
    if words.word(0) != first {
        return None;
    }
    Some(words.word(1))
}

// The last of three words, if the first two are these.
fn third_behind<'a>(words: &'a ArgList, first: &[u8], second: &[u8]) -> Option<&'a [u8]>
    ensures { MatchOption result ((word : List ℕ) → ¬ (words.now ≡ first.now ∷ second.now ∷ word ∷ [])) (λ word. words.now ≡ first.now ∷ second.now ∷ word.now ∷ []) }
{
    if words.len() != 3 {
        return None;
    }
    if words.word(0) != first {
        return None;
    }
    if words.word(1) != second {
        return None;
    }
    Some(words.word(2))
}

// Whether the words are this one alone.
fn is_alone(words: &ArgList, word: &[u8]) -> bool
    ensures { IsTrue result ↔ (words.now ≡ word.now ∷ []) }
{
    words.len() == 1 && words.word(0) == word
}

// Whether the words are these two.
fn are_two(words: &ArgList, first: &[u8], second: &[u8]) -> bool
    ensures { IsTrue result ↔ (words.now ≡ first.now ∷ second.now ∷ []) }
{
    words.len() == 2 && words.word(0) == first && words.word(1) == second
}
