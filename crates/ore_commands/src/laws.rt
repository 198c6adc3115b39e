//! The laws of what is replied, as contracts.
//!
//! The functions here have no answer and do nothing. Their clauses are laws over the definitions of this crate alone.

ghost use Rattle.ore_commands.specs.AcceptedAnswers.{RightCertificateIsValid};
ghost use Rattle.ore_commands.specs.SearchLaws.{AnswersUnreported, HasOneSearchReply, CallOneCommand, HasOneAdjointReply};
ghost use Rattle.ore_commands.specs.ReplyOfCheck.{HasOneReplyOfCheck, LacksNoReplyOfCheck};

use ore_cert::laws::{law_faulty_line_is_one, law_text_is_of_one};

/// Bytes have one reply of `check` alone.
pub fn law_reply_is_one()
    ensures { HasOneReplyOfCheck }
{
    law_text_is_of_one();
    law_faulty_line_is_one();
}

/// No bytes are without a reply.
pub fn law_no_bytes_lack_a_reply()
    ensures { LacksNoReplyOfCheck }
{}

/// Bytes have one reply of a search alone: there is one certificate, or one report.
pub fn law_search_reply_is_one()
    ensures { HasOneSearchReply }
{}

/// Words call one command.
pub fn law_words_call_one()
    ensures { CallOneCommand }
{}

/// Where no report is honest by the rule and within the budget, a search comes to its answer.
pub fn law_search_answers()
    ensures { AnswersUnreported }
{}

/// The reply of `adjoint` to a problem is the text of the problem with the transposed adjoint of its matrix; where forming
/// this stops, it is the text of the one report that is honest.
pub fn law_adjoint_reply()
    ensures { HasOneAdjointReply }
{}

/// What is printed of a right certificate, behind the text of its problem, is valid to `check`.
pub fn law_right_certificate_is_valid()
    ensures { RightCertificateIsValid }
{}
