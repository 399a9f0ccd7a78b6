//! The covers of batches.

ghost use Rattle.std.specs.Prelude.{◌≡◌, IfOk, map, string_bytes};
ghost use Rattle.forms.specs.Covers.{all_covers, cover, cover_entry, cover_head, covers_page, round_boxes};

use crate::blocks::{Block, blocks};
use crate::page::page;
use std::alloc::{AllocError, Global};

/// The cover of a batch: the batch number, its ward, its number of papers, and its two clerks.
#[derive(Clone, Copy)]
pub struct Cover {
    pub batch: u32,
    pub ward: u32,
    pub size: u32,
    pub first_clerk: u32,
    pub second_clerk: u32,
}

#[tactic(auto, unfolding(crate::specs::Covers::cover_head))]
/// Returns the head of a cover: the batch, its ward, and its number of papers.
fn cover_head(alloc: Global, cover: &Cover) -> Result<String, AllocError>
    ensures { IfOk result (λ text. string_bytes text ≡ cover_head (cover_entry cover.now)) }
{
    let (batch, ward, size) = (cover.batch, cover.ward, cover.size);
    format!(in alloc;
        "<section class=\"sheet\">\n<h1>Batch {batch}</h1>\n<p class=\"large\">Ward {ward}</p>\n<p class=\"large\">Papers: {size}</p>\n"
    )
}

#[tactic(auto, unfolding(crate::specs::Covers::round_boxes))]
/// Returns the table with a box for each clerk in each of four rounds.
fn round_boxes(alloc: Global, cover: &Cover) -> Result<String, AllocError>
    ensures { IfOk result (λ text. string_bytes text ≡ round_boxes (cover_entry cover.now)) }
{
    let (first, second) = (cover.first_clerk, cover.second_clerk);
    format!(in alloc;
        "<table class=\"rounds\">\n<tr><th></th><th scope=\"col\">Clerk {first}</th><th scope=\"col\">Clerk {second}</th><th scope=\"col\">Third clerk:</th></tr>\n\
<tr><th scope=\"row\">Round 1</th><td></td><td></td><td></td></tr>\n<tr><th scope=\"row\">Round 2</th><td></td><td></td><td></td></tr>\n\
<tr><th scope=\"row\">Round 3</th><td></td><td></td><td></td></tr>\n<tr><th scope=\"row\">Round 4</th><td></td><td></td><td></td></tr>\n</table>\n"
    )
}

impl Block for Cover {
    ghost text = { λ c. cover (cover_entry c) };

    #[tactic(auto, unfolding(crate::specs::Covers::cover))]
    /// Returns the cover of the batch.
    fn block(&self, alloc: Global) -> Result<String, AllocError> {
        let head = cover_head(alloc, self)?;
        let boxes = round_boxes(alloc, self)?;
        format!(in alloc;
            "{head}{boxes}<p>Each clerk signs the box of a round once the batch is keyed and sent. The papers stay in their order.</p>\n</section>\n"
        )
    }
}

#[tactic(auto, unfolding(crate::specs::Covers::all_covers))]
/// Returns the covers, one after another.
fn all_covers(alloc: Global, covers: &[Cover]) -> Result<String, AllocError>
    ensures { IfOk result (λ text. string_bytes text ≡ all_covers (map cover_entry covers.now)) }
{
    let all = blocks(alloc, covers)?;
    Ok(all)
}

#[tactic(auto, unfolding(crate::specs::Covers::covers_page))]
/// Returns a page with the covers of batches, one per sheet.
pub fn covers_page(alloc: Global, covers: &[Cover]) -> Result<String, AllocError>
    ensures { IfOk result (λ text. string_bytes text ≡ covers_page (map cover_entry covers.now)) }
{
    let body = all_covers(alloc, covers)?;
    page(alloc, "Covers of batches", body.as_str())
}
