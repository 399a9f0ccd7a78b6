//! The reads of the officer's console: what each asks the office, and its response.

ghost use Rattle.std.specs.Prelude.{◌≡◌, false, true};
ghost use Rattle.sqlite.specs.State.{HasCleanDisk};
ghost use Rattle.sqlite.specs.Held.{state};
ghost use Rattle.register.specs.Offices.{OfficeState};
ghost use Rattle.store.specs.StateTables.{IsAt};
ghost use Rattle.tables.specs.Faults.{fault_number};
ghost use Rattle.wire.specs.Requests.{reading};
ghost use Rattle.wire.specs.Responses.{fault_response};
ghost use Rattle.wire.specs.Serving.{Readies};
ghost use Rattle.wire.specs.Told.{IsTold};

mod batches;
mod differences;
mod doubtful;
pub(crate) mod found;
mod numbers;
mod papers;
mod receipts;
mod steps;
mod ward;
mod wards;

use crate::office_read::OfficeRead;
use crate::response::Response;
use crate::target::Resource;
use batches::answer_batches;
use differences::answer_differences;
use doubtful::answer_doubtful;
use found::{read_ward, read_wards};
use office::Office;
use papers::answer_papers;
use receipts::answer_receipts;
use sqlite::Alter;
use std::alloc::Global;
use store::Fault;
use ward::answer_ward;
use wards::answer_wards;
pub(crate) use wards::phase_word;

/// Performs a read for the officer's console, and returns the response. A closed office stays as it is.
pub(crate) fn answer_office<S: Alter>(
    alloc: Global,
    office: &mut Office<S>,
    read: OfficeRead,
) -> Response
    ensures answers { HasCleanDisk (state S.Store office.new.held) → office.old.closed ≡ false → (s : OfficeState) → IsAt s (state S.Store office.old.held)
        → Readies s (reading (Resource.Office read)) result office.new.closed (state S.Store office.new.held) }
    ensures closed { office.old.closed ≡ true → office.new ≡ office.old }
    ensures closed_told { office.old.closed ≡ true → IsTold (fault_response (fault_number Fault.Closed)) result }
    ensures clean { HasCleanDisk (state S.Store office.new.held) → HasCleanDisk (state S.Store office.old.held) }
{
    match read {
        OfficeRead::Wards => answer_wards(alloc, read_wards(office)),
        OfficeRead::Ward { ward } => answer_ward(alloc, ward, read_ward(office, ward)),
        OfficeRead::Batches { ward } => answer_batches(alloc, ward, office.batches(ward)),
        OfficeRead::Doubtful { ward } => answer_doubtful(alloc, ward, office.doubtful(ward)),
        OfficeRead::Differences { batch } => {
            answer_differences(alloc, batch, office.differences(batch))
        }
        OfficeRead::Papers { batch } => answer_papers(alloc, batch, office.papers(batch)),
        OfficeRead::Receipts { actor } => answer_receipts(alloc, office.receipts(actor)),
    }
}
