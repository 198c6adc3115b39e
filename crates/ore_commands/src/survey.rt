//! The reply of `survey`.

ghost use Rattle.std.specs.Prelude.{◌≡◌, IfOk};
ghost use Rattle.ore_cert.specs.declared.report.Plan as plan_of;
ghost use Rattle.ore_generate.specs.Chain.{generated};
ghost use Rattle.ore_reply.specs.MadeReply.{reply_of, IsOfBytes};
ghost use Rattle.ore_commands.specs.Finding.{search_by, IsSearchReply, SaysFound};
ghost use Rattle.ore_commands.specs.Generating.{generated_text};
ghost use Rattle.ore_commands.specs.Surveying.{survey_text, SaysSurveyed, IsSurveyReply};

use crate::check::check_reply;
use crate::generated::generate_reply;
use crate::laws::law_reply_is_one;
use crate::search::{Search, search_reply};
use ore_cert::Plan;
use ore_generate::laws::law_generated_is_read;
use ore_monomial::NoMemory;
use ore_reply::{Reply, Status};
use ore_text::append_number;
use std::alloc::Global;

/// The reply with the verdict on the generated problem with this number and the size of its certificate, or with the report
/// of a search that stopped.
///
/// The printed certificate is read again and checked.
///
/// # Errors
/// Want of memory.
pub fn survey_reply(alloc: Global, number: u16) -> Result<Reply, NoMemory>
    ensures reply { IfOk result (λ r. IsSurveyReply number (reply_of r)) }
    ensures truth { IfOk result (λ r. r.status ≡ Status.Done → SaysSurveyed number r.text.items) }
    ensures of_bytes { IfOk result (λ r. IsOfBytes r.status) }
{
    let problem = generate_reply(alloc, number)?;
    let found = analyse_reply(alloc, number, &problem.text)?;
    if found.status != Status::Done {
        return Ok(found);
    }
    let text = checked_text(alloc, number, &problem.text, &found.text)?;
    Ok(Reply {
        status: Status::Done,
        text,
    })
}

// The reply of `analyse` to the text of the generated problem.
fn analyse_reply(alloc: Global, number: u16, problem: &[u8]) -> Result<Reply, NoMemory>
    requires { problem.now ≡ generated_text number }
    ensures reply { IfOk result (λ r. IsSearchReply (generated number) (search_by plan_of.Plan.Analyse) (reply_of r)) }
    ensures of_bytes { IfOk result (λ r. IsOfBytes r.status) }
{
    law_generated_is_read();
    search_reply(alloc, Search::by(Plan::Analyse), problem)
}

// The text for a certificate that was found, which `check` finds valid behind the problem.
fn checked_text(
    alloc: Global,
    number: u16,
    problem: &[u8],
    certificate: &[u8],
) -> Result<Vec<u8>, NoMemory>
    requires problem { problem.now ≡ generated_text number }
    requires found { SaysFound (generated number) (search_by plan_of.Plan.Analyse) certificate.now }
    ensures { IfOk result (λ text. SaysSurveyed number text.items) }
{
    law_generated_is_read();
    law_reply_is_one();
    let mut bytes = Vec::from_slice(alloc, problem)?;
    bytes.extend_from_slice(certificate)?;
    let checked = check_reply(alloc, &bytes)?;
    let said: &[u8] = &checked.text;
    survey_text(alloc, &said[b"valid ".len()..], certificate.len())
}

// The lines of a survey, for the word of a verdict with its line end, and a number of bytes.
fn survey_text(alloc: Global, verdict: &[u8], size: usize) -> Result<Vec<u8>, NoMemory>
    ensures { IfOk result (λ text. text.items ≡ survey_text verdict.now size) }
{
    let mut text = Vec::from_slice(alloc, b"rows 40\ncolumns 41\nverdict ")?;
    text.extend_from_slice(verdict)?;
    text.extend_from_slice(b"certificate ")?;
    append_number(&mut text, size as u128)?;
    text.push(b'\n')?;
    Ok(text)
}
