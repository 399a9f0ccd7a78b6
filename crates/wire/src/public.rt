//! What is shown in public: the reads of the office, and the responses.

ghost use Rattle.std.specs.Prelude.{◌≡◌, IfOk, List, false, map, string_bytes, true, ℕ};
ghost use Rattle.serde_json.specs.View.{view};
ghost use Rattle.sqlite.specs.Held.{state};
ghost use Rattle.sqlite.specs.State.{HasCleanDisk};
ghost use Rattle.register.specs.Offices.{OfficeState};
ghost use Rattle.store.specs.StateTables.{IsAt};
ghost use Rattle.store.specs.Overviews.{ward_view};
ghost use Rattle.wire.specs.Gates.{public_entry};
ghost use Rattle.wire.specs.PublicLaws.{AlikeShowAlike, ListsUnsealed, RestsOnWards};
ghost use Rattle.wire.specs.PublicReplies.{screen_of, screen_ward_data};
ghost use Rattle.wire.specs.Replies.{list_data};
ghost use Rattle.wire.specs.Requests.{public};
ghost use Rattle.wire.specs.Responses.{printed_response};
ghost use Rattle.wire.specs.Serving.{IsReadTold, Readies, closed_response, data_response};
ghost use Rattle.wire.specs.Told.{IsTold};

use crate::office_responses::{faulted, refused, valued};
use crate::public_target::PublicTarget;
use crate::read_responses::phase_word;
use crate::response::Response;
use crate::settings::{FixedPage, Public};
use office::{Office, ReadError, WardText};
use serde_json::{Value, json};
use sqlite::Alter;
use std::alloc::{AllocError, Global};
use store::WardOverview;

/// States, for callers, what the public pages depend on: the table of wards and the elections of sealed wards, and nothing
/// else. Two offices that agree on these have the same public pages. So until a ward is sealed, nothing that is nominated,
/// given out, keyed or judged in it changes what is shown. The list of wards depends only on the table of wards; for an
/// unsealed ward it has the ward's number, name and phase, and no stage.
pub fn unsealed_wards_show_nothing()
    ensures alike { AlikeShowAlike }
    ensures wards { (title : List ℕ) → RestsOnWards title }
    ensures unsealed { ListsUnsealed }
{}

/// Returns a ward's entry in the list on the screen, as a JSON value.
fn ward_value(alloc: Global, overview: &WardOverview) -> Result<Value, AllocError>
    ensures { IfOk result (λ value. view value ≡ screen_ward_data (ward_view overview.now).ward) }
{
    let ward = &overview.ward;
    json!(in alloc; {"name": ward.name.as_str(), "phase": phase_word(ward.phase), "stages": ward.done, "ward": ward.number})
}

/// Returns wards, as a list of JSON values.
fn list_value(alloc: Global, wards: &[WardOverview]) -> Result<Value, AllocError>
    ensures { IfOk result (λ value. view value ≡ list_data screen_ward_data (map (λ v. v.ward) (map ward_view wards.now))) }
{
    let mut values = Vec::with_capacity(alloc, wards.len())?;
    for ward in wards {
        values.push(ward_value(alloc, ward)?)?;
    }
    Ok(Value::Array(values))
}

/// Returns the title of the election and all wards, as a JSON value.
fn screen_value(alloc: Global, title: &str, wards: &[WardOverview]) -> Result<Value, AllocError>
    ensures { IfOk result (λ value. view value ≡ screen_of title.now (map ward_view wards.now)) }
{
    let wards = list_value(alloc, wards)?;
    json!(in alloc; {"title": title, "wards": wards})
}

/// Returns the response with the title of the election and all wards, or with the refusal or fault.
fn answer_wards(alloc: Global, title: &str, told: Result<Vec<WardOverview>, ReadError>) -> Response
    ensures { IsReadTold (λ views. data_response (screen_of title.now views)) (λ wards. map ward_view wards.items) told result }
{
    match told {
        Ok(wards) => valued(alloc, screen_value(alloc, title, &wards)),
        Err(ReadError::Refused(why)) => refused(alloc, &why),
        Err(ReadError::Fault(fault)) => faulted(alloc, fault),
    }
}

/// Returns the response for a page that an order prints, or with the refusal or fault.
fn answer_printed(alloc: Global, told: Result<String, ReadError>) -> Response
    ensures { IsReadTold printed_response string_bytes told result }
{
    match told {
        Ok(text) => Response::printed(alloc, text.as_str()),
        Err(ReadError::Refused(why)) => refused(alloc, &why),
        Err(ReadError::Fault(fault)) => faulted(alloc, fault),
    }
}

/// Reads something that is shown in public, and returns the response. A closed office stays as it is.
pub(crate) fn answer_public<S: Alter>(
    alloc: Global,
    office: &mut Office<S>,
    shown: Public<'_>,
    what: PublicTarget,
) -> Response
    ensures answers { HasCleanDisk (state S.Store office.new.held) → office.old.closed ≡ false → (s : OfficeState) → IsAt s (state S.Store office.old.held)
        → Readies s (public (public_entry shown.entry) what) result office.new.closed (state S.Store office.new.held) }
    ensures closed { office.old.closed ≡ true → office.new ≡ office.old }
    ensures closed_told { office.old.closed ≡ true → IsTold (closed_response (public (public_entry shown.entry) what)) result }
    ensures clean { HasCleanDisk (state S.Store office.new.held) → HasCleanDisk (state S.Store office.old.held) }
{
    match what {
        PublicTarget::Index => answer_printed(alloc, office.index(shown.title)),
        PublicTarget::Screen => Response::shown(alloc, FixedPage::Page(shown.screen)),
        PublicTarget::Wards => answer_wards(alloc, shown.title, office.wards()),
        PublicTarget::Page { ward } => {
            answer_printed(alloc, office.text(ward, WardText::Page(shown.title)))
        }
    }
}
