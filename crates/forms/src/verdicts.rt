//! The form for adjudication.

ghost use Rattle.std.specs.Prelude.{◌≡◌, IfOk, map, string_bytes};
ghost use Rattle.forms.specs.Lots.{candidate_shown};
ghost use Rattle.forms.specs.Verdicts.{doubtful_entry, verdict_row, verdict_rows, verdicts_body, verdicts_head, verdicts_page, verdicts_table as table_text};

use crate::blocks::{Block, blocks};
use crate::candidates::{NamedCandidate, candidate_items};
use crate::page::page;
use std::alloc::{AllocError, Global};

/// A doubtful paper, identified by its batch and its number in the batch.
#[derive(Clone, Copy)]
pub struct DoubtfulRow {
    pub batch: u32,
    pub paper: u32,
}

impl Block for DoubtfulRow {
    ghost text = { λ d. verdict_row (doubtful_entry d) };

    #[tactic(auto, unfolding(crate::specs::Verdicts::verdict_row))]
    /// Returns the paper's row, with room for the verdict.
    fn block(&self, alloc: Global) -> Result<String, AllocError> {
        let (batch, paper) = (self.batch, self.paper);
        format!(in alloc;
            "<tr><td>{batch}</td><td>{paper}</td><td class=\"marks\"></td><td>3 &#9744; 4 &#9744; 5 &#9744;</td></tr>\n"
        )
    }
}

#[tactic(auto, unfolding(crate::specs::Verdicts::verdicts_head))]
/// Returns the head of the form: the ward and a list of its candidates.
fn verdicts_head(
    alloc: Global,
    ward: u32,
    candidates: &[NamedCandidate<'_>],
) -> Result<String, AllocError>
    ensures { IfOk result (λ text. string_bytes text ≡ verdicts_head ward (map candidate_shown candidates.now)) }
{
    let items = candidate_items(alloc, candidates)?;
    format!(in alloc; "<h1>Adjudication, ward {ward}</h1>\n<ul class=\"names\">\n{items}</ul>\n")
}

#[tactic(auto, unfolding(crate::specs::Verdicts::verdicts_table))]
/// Returns the codes for a rejection and the column headings.
fn verdicts_table() -> &'static str
    ensures { result.now ≡ table_text }
{
    "<p>Rejected: 3 no official mark, 4 voter identifiable, 5 void for uncertainty.</p>\n\
<table class=\"verdicts\">\n<thead><tr><th>Batch</th><th>Paper</th><th>Accepted, with these marks</th><th>Rejected</th></tr></thead>\n<tbody>\n"
}

#[tactic(auto, unfolding(crate::specs::Verdicts::verdict_rows))]
/// Returns the rows of the papers.
fn verdict_rows(alloc: Global, papers: &[DoubtfulRow]) -> Result<String, AllocError>
    ensures { IfOk result (λ text. string_bytes text ≡ verdict_rows (map doubtful_entry papers.now)) }
{
    let all = blocks(alloc, papers)?;
    Ok(all)
}

#[tactic(auto, unfolding(crate::specs::Verdicts::verdicts_body))]
/// Returns the body of the form: the candidates, the papers, and lines to sign.
fn verdicts_body(
    alloc: Global,
    ward: u32,
    candidates: &[NamedCandidate<'_>],
    papers: &[DoubtfulRow],
) -> Result<String, AllocError>
    ensures { IfOk result (λ text. string_bytes text ≡ verdicts_body ward (map candidate_shown candidates.now) (map doubtful_entry papers.now)) }
{
    let head = verdicts_head(alloc, ward, candidates)?;
    let table = verdicts_table();
    let rows = verdict_rows(alloc, papers)?;
    format!(in alloc;
        "{head}{table}{rows}</tbody>\n</table>\n<p class=\"line\">Date and time</p>\n<p class=\"line\">Returning officer</p>\n"
    )
}

#[tactic(auto, unfolding(crate::specs::Verdicts::verdicts_page))]
/// Returns the form for adjudicating a ward's doubtful papers, with a list of its candidates.
pub fn verdicts_page(
    alloc: Global,
    ward: u32,
    candidates: &[NamedCandidate<'_>],
    papers: &[DoubtfulRow],
) -> Result<String, AllocError>
    ensures { IfOk result (λ text. string_bytes text ≡ verdicts_page ward (map candidate_shown candidates.now) (map doubtful_entry papers.now)) }
{
    let body = verdicts_body(alloc, ward, candidates, papers)?;
    page(alloc, "Adjudication", body.as_str())
}
