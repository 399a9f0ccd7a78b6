//! The form for a lot.

ghost use Rattle.std.specs.Prelude.{◌≡◌, IfOk, map, string_bytes};
ghost use Rattle.forms.specs.Lots.{candidate_shown, lot_body, lot_head, lot_page, purpose_words as words_of};

use crate::candidates::{NamedCandidate, candidate_items};
use crate::page::page;
use std::alloc::{AllocError, Global};

/// What a lot decides.
#[derive(Clone, Copy)]
pub enum LotPurpose {
    /// Whose surplus is transferred first.
    Surplus,
    /// Who is excluded.
    Exclusion,
}

#[tactic(auto, unfolding(crate::specs::Lots::purpose_words))]
/// Returns what a lot decides, in words.
fn purpose_words(purpose: LotPurpose) -> &'static str
    ensures { result.now ≡ words_of purpose }
{
    match purpose {
        LotPurpose::Surplus => "The lot decides whose surplus is transferred first.",
        LotPurpose::Exclusion => "The lot decides who is excluded.",
    }
}

#[tactic(auto, unfolding(crate::specs::Lots::lot_head))]
/// Returns the head of the form: the ward, the stage, and what the lot decides.
fn lot_head(alloc: Global, ward: u32, stage: u64, purpose: LotPurpose) -> Result<String, AllocError>
    ensures { IfOk result (λ text. string_bytes text ≡ lot_head ward stage purpose) }
{
    let decides = purpose_words(purpose);
    format!(in alloc;
        "<h1>Lot, ward {ward}</h1>\n<p class=\"large\">Stage {stage}</p>\n<p>{decides}</p>\n<p>It is drawn among these candidates:</p>\n<ul>\n"
    )
}

#[tactic(auto, unfolding(crate::specs::Lots::lot_body))]
/// Returns the body of the form: the lot, the candidates, and lines to fill in.
fn lot_body(
    alloc: Global,
    ward: u32,
    stage: u64,
    purpose: LotPurpose,
    tied: &[NamedCandidate<'_>],
) -> Result<String, AllocError>
    ensures { IfOk result (λ text. string_bytes text ≡ lot_body ward stage purpose (map candidate_shown tied.now)) }
{
    let head = lot_head(alloc, ward, stage, purpose)?;
    let among = candidate_items(alloc, tied)?;
    format!(in alloc;
        "{head}{among}</ul>\n<p class=\"line\">The lot fell on</p>\n<p class=\"line\">Drawn by</p>\n<p class=\"line\">How it was drawn</p>\n<p class=\"line\">Date and time</p>\n\
<p class=\"line\">Returning officer</p>\n<p class=\"line\">First witness</p>\n<p class=\"line\">Second witness</p>\n"
    )
}

#[tactic(auto, unfolding(crate::specs::Lots::lot_page))]
/// Returns the form for a lot at a stage of the count in a ward, among these candidates.
pub fn lot_page(
    alloc: Global,
    ward: u32,
    stage: u64,
    purpose: LotPurpose,
    tied: &[NamedCandidate<'_>],
) -> Result<String, AllocError>
    ensures { IfOk result (λ text. string_bytes text ≡ lot_page ward stage purpose (map candidate_shown tied.now)) }
{
    let body = lot_body(alloc, ward, stage, purpose, tied)?;
    page(alloc, "Lot", body.as_str())
}
