//! Pairs of rows of a Gröbner basis, and what a list of them proves.
//!
//! A basis here is a list of rows whose lead coefficients are 1, beside their leads
//! (`specs/Steps.antt`). Two of its rows with leads in one column are a pair. Multiplied to the common
//! multiple of their leads and subtracted, they are the pair's S-row. A list of pairs is lawful
//! (`specs/PairList.antt`) where each pair in it was treated, which means that multiples of basis
//! rows below the common multiple were taken from its S-row until nothing was left, or skipped via a
//! third row whose lead divides the common multiple and whose pairs with both are listed before.
//! The cofactors of what was taken are the pair's syzygy.
//!
//! Proved of a lawful list in which each pair stands, over any domain of numbers, for either order
//! of monomials, where the basis and the steps are of a signature (`proofs/Generate.antt`):
//!
//! - the syzygies of the treated pairs generate all rows of cofactors of the signature that take the
//!   basis to zeros (`syzygies_generate`), and so any module that has them has all (`kernel_member`);
//! - the lead of each member of the basis's row module is divided by a basis lead of its column
//!   (`leads_divide`).
//!
//! That each pair stands in a list is seen by counting (`proofs/PairCount.antt`). A certificate shows
//! such a list in a block (`specs/Blocks.antt`): an exact block shows that the rows which take a
//! matrix to zeros are the row module of another, an outside block that a row is not in the row
//! module of a matrix. The law functions of [`laws`] say so of every block that meets its conditions.
//! `proofs/Examples.antt` has blocks that do.
//!
//! The code is what a run and the check of a certificate need of pairs. Over the leads of a basis, [`multiples`] has
//! the common multiple of two leads and the S-row of two rows, and [`rule`] the tests whether a pair may be treated,
//! and whether it may be skipped by way of a third row. Over a whole basis, [`common`] is the common multiple of two
//! leads, [`s_row`] the S-row of a pair with its cofactor row, and [`may_skip`] that test. They call those over leads.
//! [`Listed`] keeps the pairs that were dealt with in a set.
//!
//! `specs/PairRule.antt` has the words on pairs: which is listed, which may be treated, which skipped, and that all are
//! listed, by the leads and a list of pairs alone. Runs, lawful lists of pairs, the rule of choosers and the check of
//! certificates all cite it. `specs/Steps.antt` has the S-row, exact and by an arithmetic, which runs and the check cite.
//!
//! What a run is stands in `specs/Run.antt`: the choices, and what each makes of the basis, the listed pairs and the
//! syzygies. `specs/Reached.antt` says, over the fractions and at the limits of the program, which states some choices
//! lead to, where the treatment of a pair stops, and which choices a rule allows. Both speak of no code, so that whoever
//! checks the choices of a run can cite them.
//!
//! For courses (`ore_course`) a run on the rows of a matrix is a runner: what a choice makes of a state, which states
//! are complete, which choices treat a pair (`specs/Runner.antt`). The law functions say that a state is complete by
//! the test exactly where each pair with equal lead columns is listed, that no choice is lawful there, and that in each
//! state finitely many choices lead on.
//!
//! The crate stands on `ore_course` for what runs in order are like, on `ore_rows` for rows, row modules, their leads
//! and bases, on `ore_leads` for the leads of a basis, and on `ore_ring` for operators.
#![tactic(auto)]

pub mod laws;
pub mod listed;
pub mod multiples;
pub mod pairs;
pub mod rule;

pub use listed::Listed;
pub use pairs::{common, may_skip, s_row};
