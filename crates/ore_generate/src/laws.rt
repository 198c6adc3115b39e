//! The law of generated problems, as a contract.
//!
//! The function here has no answer and does nothing. Its clause is a law over the definitions of this crate, for every
//! number.

ghost use Rattle.ore_generate.specs.Laws.{GeneratedIsRead};

use ore_problem::laws::law_printed_is_read;

/// The printed text of a generated problem is read as the problem.
pub fn law_generated_is_read()
    ensures { GeneratedIsRead }
{
    law_printed_is_read();
}
