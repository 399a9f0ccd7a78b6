//! The JSON for a ward's doubtful papers.

ghost use Rattle.std.specs.Prelude.{◌≡◌, IfOk, map, option_map};
ghost use Rattle.serde_json.specs.View.{view};
ghost use Rattle.register.specs.Offices.{judged_entry};
ghost use Rattle.store.specs.Overviews.{doubtful_papers_view, doubtful_view};
ghost use Rattle.wire.specs.OfficeReplies.{doubtful_data, doubtful_papers_data, verdict_code, verdict_marks, verdict_word};
ghost use Rattle.wire.specs.Replies.{list_data};
ghost use Rattle.wire.specs.Serving.{IsReadTold, data_response};

use crate::candidates::candidates_value;
use crate::office_responses::{faulted, refused, valued};
use crate::read_responses::papers::preferences_value;
use crate::response::Response;
use office::ReadError;
use register::JudgedPaper;
use serde_json::{Value, json};
use std::alloc::{AllocError, Global};
use store::{DoubtfulPaper, DoubtfulPapers};

/// Returns the word for a verdict.
fn verdict_word(verdict: &Option<JudgedPaper>) -> &'static str
    ensures { result.now ≡ verdict_word (option_map judged_entry verdict.now) }
{
    match verdict {
        Some(judged) => {
            if judged.code == 0 {
                "accepted"
            } else {
                "rejected"
            }
        }
        None => "open",
    }
}

/// Returns the code of a rejected paper, or 0 for any other.
fn verdict_code(verdict: &Option<JudgedPaper>) -> u32
    ensures { result ≡ verdict_code (option_map judged_entry verdict.now) }
{
    match verdict {
        Some(judged) => judged.code,
        None => 0,
    }
}

/// Returns the marks of an accepted paper, or an empty text for any other.
fn verdict_marks(verdict: &Option<JudgedPaper>) -> &str
    ensures { result.now ≡ verdict_marks (option_map judged_entry verdict.now) }
{
    match verdict {
        Some(judged) => {
            if judged.code == 0 {
                judged.marks.as_str()
            } else {
                ""
            }
        }
        None => "",
    }
}

/// Returns a doubtful paper, as a JSON value.
fn doubtful_value(alloc: Global, doubtful: &DoubtfulPaper) -> Result<Value, AllocError>
    ensures { IfOk result (λ value. view value ≡ doubtful_data (doubtful_view doubtful.now)) }
{
    let preferences = preferences_value(alloc, &doubtful.counted.judgement)?;
    json!(in alloc; {
        "batch": doubtful.counted.batch, "code": verdict_code(&doubtful.verdict), "marks": verdict_marks(&doubtful.verdict),
        "paper": doubtful.counted.paper, "preferences": preferences, "verdict": verdict_word(&doubtful.verdict)
    })
}

/// Returns doubtful papers, as a list of JSON values.
fn list_value(alloc: Global, papers: &[DoubtfulPaper]) -> Result<Value, AllocError>
    ensures { IfOk result (λ value. view value ≡ list_data doubtful_data (map doubtful_view papers.now)) }
{
    let mut values = Vec::with_capacity(alloc, papers.len())?;
    for paper in papers {
        values.push(doubtful_value(alloc, paper)?)?;
    }
    Ok(Value::Array(values))
}

/// Returns the doubtful papers of a ward, as a JSON value.
fn papers_value(alloc: Global, ward: u32, found: &DoubtfulPapers) -> Result<Value, AllocError>
    ensures { IfOk result (λ value. view value ≡ doubtful_papers_data ward (doubtful_papers_view found.now)) }
{
    let candidates = candidates_value(alloc, &found.candidates)?;
    let papers = list_value(alloc, &found.papers)?;
    json!(in alloc; {"candidates": candidates, "papers": papers, "ward": ward})
}

/// Returns the response with the doubtful papers of a ward, or with the refusal or fault.
pub(crate) fn answer_doubtful(
    alloc: Global,
    ward: u32,
    told: Result<DoubtfulPapers, ReadError>,
) -> Response
    ensures { IsReadTold (λ papers. data_response (doubtful_papers_data ward papers)) doubtful_papers_view told result }
{
    match told {
        Ok(found) => valued(alloc, papers_value(alloc, ward, &found)),
        Err(ReadError::Refused(why)) => refused(alloc, &why),
        Err(ReadError::Fault(fault)) => faulted(alloc, fault),
    }
}
