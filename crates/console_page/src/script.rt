//! The script of the page, as one text.
//!
//! A browser runs it as a classic script, so all parts share one scope. Each part except the last contains only declarations, and
//! may use those in any other part. [`events`] is last, and starts the page.

ghost use Rattle.std.specs.Prelude.{◌≡◌, IfOk, string_bytes};
ghost use Rattle.console_page.specs.Page.{script};

mod adjudication;
mod advice;
mod basics;
mod batches;
mod chart;
mod counting;
mod declaring;
mod dialogs;
mod events;
mod frame;
mod giving;
mod journal;
mod keyings;
mod mending;
mod nominations;
mod overview;
mod papers;
mod pending;
mod publishing;
mod requests;
mod sealing;
mod switching;
mod verdicts;
mod words;

use crate::script::adjudication::ADJUDICATION;
use crate::script::advice::ADVICE;
use crate::script::basics::BASICS;
use crate::script::batches::BATCHES;
use crate::script::chart::CHART;
use crate::script::counting::COUNTING;
use crate::script::declaring::DECLARING;
use crate::script::dialogs::DIALOGS;
use crate::script::events::EVENTS;
use crate::script::frame::FRAME;
use crate::script::giving::GIVING;
use crate::script::journal::JOURNAL;
use crate::script::keyings::KEYINGS;
use crate::script::mending::MENDING;
use crate::script::nominations::NOMINATIONS;
use crate::script::overview::OVERVIEW;
use crate::script::papers::PAPERS;
use crate::script::pending::PENDING;
use crate::script::publishing::PUBLISHING;
use crate::script::requests::REQUESTS;
use crate::script::sealing::SEALING;
use crate::script::switching::SWITCHING;
use crate::script::verdicts::VERDICTS;
use crate::script::words::WORDS;
use std::alloc::{AllocError, Global};

#[tactic(auto, unfolding(crate::specs::Page::script))]
/// Returns the script. The only error is a failed allocation.
pub(crate) fn script_text(alloc: Global) -> Result<String, AllocError>
    ensures { IfOk result (λ text. string_bytes text ≡ script) }
{
    format!(in alloc;
        "{BASICS}{ADVICE}{WORDS}{REQUESTS}{PAPERS}{PENDING}{DIALOGS}{FRAME}{OVERVIEW}{NOMINATIONS}{GIVING}{BATCHES}\
{KEYINGS}{ADJUDICATION}{VERDICTS}{SEALING}{CHART}{COUNTING}{DECLARING}{MENDING}{SWITCHING}{PUBLISHING}{JOURNAL}{EVENTS}"
    )
}
