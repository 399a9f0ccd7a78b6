//! The page on which the returning officer runs an election: markup, style and script in one text, with no external resources.
//!
//! [`page_text`] returns the page. It contains no office data, and is always the same: like any other client, it requests what it
//! shows. [`policy_text`] returns the policy that limits what the page can do in a browser. A server sends both in one response.
//!
//! `specs/Page.antt` defines both from the same script and the same style, so the policy names the script and the style that
//! are served. What the script does isn't specified: `docs/formats/console-api.md` describes its requests, and
//! `tools/try console-evening` runs it.
#![tactic(auto)]

mod markup;
mod policy;
mod script;
mod stylesheet;

ghost use Rattle.std.specs.Prelude.{◌≡◌, IfOk, string_bytes};
ghost use Rattle.console_page.specs.Page.{page_text};

use markup::page_around;
pub use policy::policy_text;
use script::script_text;
use std::alloc::{AllocError, Global};
use stylesheet::STYLE;

/// Returns the page. The only error is a failed allocation.
pub fn page_text(alloc: Global) -> Result<String, AllocError>
    ensures { IfOk result (λ text. string_bytes text ≡ page_text) }
{
    let script = script_text(alloc)?;
    page_around(alloc, STYLE, script.as_str())
}
