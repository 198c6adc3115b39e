//! Runs on the rows of a matrix: by the choices of a chooser, what they keep, and what a complete one shows.
//!
//! A run (`ore_pairs/specs/Run.antt`) takes choices, one after another, each of which treats or skips a pair of basis
//! rows. A [`Chooser`] says what comes next: a pair to be treated or skipped, or that nothing is left. Its clauses say
//! which answers it may give, over the choices that it has given, its budget, and the choices that it keeps
//! (`specs/Choosing.antt`).
//!
//! A [`progress::Progress`] is what a run has made so far. It is seen as a state of a run (`specs/RunProgress.antt`).
//! [`first::begin`] makes the state before the first choice, [`progress::treat`] treats a pair and [`progress::skip`]
//! skips one. Each gives what its definition gives at the limits of the program, or the cause of the first operation
//! that stops; want of memory is the one answer beside it. [`entries::from_matrix`] makes the rows that say how
//! the rows of the matrix are multiples of the first basis rows.
//!
//! [`run::run`] goes from there to the end by the choices of a chooser. What it answers is a complete state to which
//! these choices lead (`specs/Honest.antt`), each of them allowed by the rule of the chooser: its events follow the
//! choices in order, and its syzygies have the origins of that state. Where it halts, its clauses say at which state and
//! why; that the rule allows each choice up to there, and a spent budget at that state; and that the chooser has given
//! what it had before, where the first basis stopped, and else one more run (want of memory leaves open which). A
//! chooser whose runs treat no more pairs than its budget has still does so afterwards. A rule speaks of the listed
//! pairs in the order in which they were listed. A run ends, since each choice lists one more pair and the budget bounds
//! how many basis rows there can be. `specs/Following.antt` has what the loop keeps.
//!
//! A run is also a call that follows a course (`ore_course`), the one that has this run alone: its clauses `answered`
//! and `halts` say so in the two words that every call with several runs uses of its own course (`specs/Courses.antt`).
//! `proofs/EngineCalls.antt` has one lemma for each way in which a statement of such a call halts. Outside of the
//! treatment of a pair, a stop becomes the halt of forced work by `?`.
//!
//! The law functions of [`laws`] say of each state that a run reaches, within whatever limits:
//!
//! - the same choices lead there without limits, where nothing but an unlawful choice ends a run;
//! - fewer choices lead there than some number, which is the same for all states of the run: it ends;
//! - each basis row has the lead coefficient 1, and its cofactor row makes it of the rows of the matrix; the first
//!   basis rows give the matrix back; each syzygy takes the matrix to zeros; no pair is listed twice; all is of the
//!   signature where the matrix is;
//! - the listed entries of the state are a lawful list of pairs for its basis (`ore_pairs/specs/PairList.antt`); what the steps
//!   of a treated pair leave over the cofactor rows is the syzygy that comes from this pair, or zeros; and what is left
//!   of a unit row by way of the basis and back is the syzygy that comes from this row of the matrix, or zeros;
//! - where each pair is listed, the syzygies generate all rows of the signature that take the matrix to zeros, and the
//!   state makes valid blocks (`specs/BlockLaws.antt`): an exact one, by rows that times some matrix are the syzygies,
//!   and an outside one for each row of which a reduction by the basis leaves something.
//!
//! That a run ends is Dickson's lemma (`ore_leads/proofs/Dickson.antt`): no lead of the basis divides a later new one.
//!
//! `proofs/Sources.antt` has the lemmas on origins, `proofs/Running.antt` the invariant of a run, and
//! `proofs/Complete.antt` goes from it, by what `ore_pairs` proves of a lawful list, to exactness; all of that is over
//! any field; `proofs/Blocks.antt` goes on to blocks. `proofs/SamePairs.antt` says, for choosers, that an answer
//! depends on which pairs are listed alone.
//!
//! The crate stands on `ore_course` for calls that follow a course, on `ore_pairs` for pairs and lists of them, on
//! `ore_division` for reduction, on `ore_rows` and `ore_leads` for rows and bases, and on `ore_ring` for operators.
#![tactic(auto)]

pub mod chooser;
pub mod entries;
mod finish;
pub mod first;
mod following;
pub mod halting;
pub mod laws;
pub mod monic;
pub mod outcome;
pub mod progress;
pub mod run;

pub use chooser::{Chooser, Next};
pub use ore_rows::{Origin, Rule};
pub use outcome::{Event, Events, Finished, Halt, Origins, Outcome, StopAt};
