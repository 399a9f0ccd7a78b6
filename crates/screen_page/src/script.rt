//! The script of the page, as one text.
//!
//! A browser runs it as a classic script, so all parts share one scope. Each part except the last contains only declarations, and
//! may use those in any other part. [`events`] is last, and starts the page.

ghost use Rattle.std.specs.Prelude.{◌≡◌, IfOk, string_bytes};
ghost use Rattle.screen_page.specs.Page.{script};

mod basics;
mod chart;
mod events;
mod requests;
mod sheets;
mod ties;
mod turns;
mod views;

use crate::script::basics::BASICS;
use crate::script::chart::CHART;
use crate::script::events::EVENTS;
use crate::script::requests::REQUESTS;
use crate::script::sheets::SHEETS;
use crate::script::ties::TIES;
use crate::script::turns::TURNS;
use crate::script::views::VIEWS;
use std::alloc::{AllocError, Global};

#[tactic(auto, unfolding(crate::specs::Page::script))]
/// Returns the script. The only error is a failed allocation.
pub(crate) fn script_text(alloc: Global) -> Result<String, AllocError>
    ensures { IfOk result (λ text. string_bytes text ≡ script) }
{
    format!(in alloc; "{BASICS}{SHEETS}{TIES}{REQUESTS}{TURNS}{CHART}{VIEWS}{EVENTS}")
}
