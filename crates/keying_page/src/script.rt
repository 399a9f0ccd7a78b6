//! The script of the page, as one text.
//!
//! A browser runs it as a classic script, so all parts share one scope. Each part except the last contains only declarations, and
//! may use those in any other part. [`events`] is last, and starts the page.

ghost use Rattle.std.specs.Prelude.{◌≡◌, IfOk, string_bytes};
ghost use Rattle.keying_page.specs.Page.{script};

mod batches;
mod drafts;
mod events;
mod keyboard;
mod keys;
mod reading;
mod requests;
mod rows;
mod sending;

use crate::script::batches::BATCHES;
use crate::script::drafts::DRAFTS;
use crate::script::events::EVENTS;
use crate::script::keyboard::VIEWS;
use crate::script::keys::KEYS;
use crate::script::reading::READING;
use crate::script::requests::REQUESTS;
use crate::script::rows::ROWS;
use crate::script::sending::SENDING;
use std::alloc::{AllocError, Global};

#[tactic(auto, unfolding(crate::specs::Page::script))]
/// Returns the script. The only error is a failed allocation.
pub(crate) fn script_text(alloc: Global) -> Result<String, AllocError>
    ensures { IfOk result (λ text. string_bytes text ≡ script) }
{
    format!(in alloc; "{DRAFTS}{KEYS}{READING}{REQUESTS}{ROWS}{VIEWS}{SENDING}{BATCHES}{EVENTS}")
}
