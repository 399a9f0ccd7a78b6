//! Lists of candidates.

ghost use Rattle.std.specs.Prelude.{◌≡◌, IfOk, map, string_bytes};
ghost use Rattle.forms.specs.Lots.{candidate_item, candidate_items, candidate_shown};

use crate::blocks::{Block, blocks};
use crate::escaping::named;
use std::alloc::{AllocError, Global};

/// A candidate's number and name.
#[derive(Clone, Copy)]
pub struct NamedCandidate<'a> {
    pub number: u32,
    pub name: &'a str,
}

impl Block for NamedCandidate<'_> {
    ghost text = { λ c. candidate_item (candidate_shown c) };

    #[tactic(auto, unfolding(crate::specs::Lots::candidate_item))]
    /// Returns the candidate as a list item.
    fn block(&self, alloc: Global) -> Result<String, AllocError> {
        let named = named(alloc, self.number, self.name)?;
        format!(in alloc; "<li>{named}</li>\n")
    }
}

#[tactic(auto, unfolding(crate::specs::Lots::candidate_items))]
/// Returns the candidates as list items.
pub(crate) fn candidate_items(
    alloc: Global,
    candidates: &[NamedCandidate<'_>],
) -> Result<String, AllocError>
    ensures { IfOk result (λ text. string_bytes text ≡ candidate_items (map candidate_shown candidates.now)) }
{
    let all = blocks(alloc, candidates)?;
    Ok(all)
}
