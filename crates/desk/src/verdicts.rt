//! Parsing the words for verdicts.

ghost use Rattle.std.specs.Prelude.{◌≡◌, option_map, IfOk, Some};
ghost use Rattle.desk.specs.Verdicts.{behind, judgement_given, judgement_in, rejection_in};

use register::Verdict;
use std::alloc::{AllocError, Global};

/// Returns the text after a prefix; None if the text doesn't begin with it.
fn behind<'a>(front: &str, text: &'a str) -> Option<&'a str>
    ensures { option_map (λ t. t.now) result ≡ behind front.now text.now }
{
    text.strip_prefix(front)
}

/// Returns a rejection for the reason with this code.
fn rejection_in(code: &str) -> Option<Verdict>
    ensures { option_map judgement_given result ≡ rejection_in (Some code.now) }
{
    match code.parse::<u32>() {
        Ok(code) => Some(Verdict::Reject(code)),
        Err(_) => None,
    }
}

/// Parses a word as a verdict and copies its marks. Returns None if the word isn't a verdict.
pub(crate) fn verdict_in(alloc: Global, text: &str) -> Result<Option<Verdict>, AllocError>
    ensures { IfOk result (λ verdict. option_map judgement_given verdict ≡ judgement_in text.now) }
{
    if let Some(marks) = behind("accept:", text) {
        return Ok(Some(Verdict::Accept(String::from_str(alloc, marks)?)));
    }
    match behind("reject:", text) {
        Some(code) => Ok(rejection_in(code)),
        None => Ok(None),
    }
}
