//! Reads of the console that ask the office more than once. No read changes the state, so all its parts see the same state.

ghost use Rattle.std.specs.Prelude.{◌≡◌, Err, true};
ghost use Rattle.sqlite.specs.Held.{state};
ghost use Rattle.sqlite.specs.State.{HasCleanDisk};
ghost use Rattle.office.specs.Reads.{ReadWhenOpen};
ghost use Rattle.wire.specs.OfficeReads.{progress_told, progress_view, ward_papers_told, ward_papers_view, ward_read_told, ward_read_view, wards_read_told, wards_read_view};

use office::{Office, ReadError};
use register::NextStep;
use sqlite::Alter;
use store::{BatchOverview, DoubtfulPapers, Fault, WardOverview};

/// The number of receipts, and all wards.
#[derive(Drop)]
pub(crate) struct WardsRead {
    pub receipts: usize,
    pub wards: Vec<WardOverview>,
}

/// The next step in a ward, and all wards.
#[derive(Drop)]
pub(crate) struct WardProgress {
    pub next: NextStep,
    pub wards: Vec<WardOverview>,
}

/// The batches of a ward, and its doubtful papers with its candidates.
#[derive(Drop)]
pub(crate) struct WardPapers {
    pub batches: Vec<BatchOverview>,
    pub doubtful: DoubtfulPapers,
}

/// Everything that is read about one ward.
#[derive(Drop)]
pub(crate) struct WardRead {
    pub progress: WardProgress,
    pub papers: WardPapers,
}

/// Returns the number of receipts, and all wards.
pub(crate) fn read_wards<S: Alter>(office: &mut Office<S>) -> Result<WardsRead, ReadError>
    ensures reads { ReadWhenOpen (state S.Store) office.old office.new wards_read_view wards_read_told result }
    ensures closed { office.old.closed ≡ true → (result ≡ Err (ReadError.Fault Fault.Closed)) × (office.new ≡ office.old) }
    ensures clean { HasCleanDisk (state S.Store office.new.held) → HasCleanDisk (state S.Store office.old.held) }
{
    let receipts = office.receipts(None)?;
    let wards = office.wards()?;
    Ok(WardsRead {
        receipts: receipts.len(),
        wards,
    })
}

/// Returns the next step in a ward, and all wards.
fn read_progress<S: Alter>(office: &mut Office<S>, ward: u32) -> Result<WardProgress, ReadError>
    ensures reads { ReadWhenOpen (state S.Store) office.old office.new progress_view (λ s. progress_told s ward) result }
    ensures closed { office.old.closed ≡ true → (result ≡ Err (ReadError.Fault Fault.Closed)) × (office.new ≡ office.old) }
    ensures clean { HasCleanDisk (state S.Store office.new.held) → HasCleanDisk (state S.Store office.old.held) }
{
    let next = office.next_step(ward)?;
    let wards = office.wards()?;
    Ok(WardProgress { next, wards })
}

/// Returns the batches of a ward, and its doubtful papers with its candidates.
fn read_papers<S: Alter>(office: &mut Office<S>, ward: u32) -> Result<WardPapers, ReadError>
    ensures reads { ReadWhenOpen (state S.Store) office.old office.new ward_papers_view (λ s. ward_papers_told s ward) result }
    ensures closed { office.old.closed ≡ true → (result ≡ Err (ReadError.Fault Fault.Closed)) × (office.new ≡ office.old) }
    ensures clean { HasCleanDisk (state S.Store office.new.held) → HasCleanDisk (state S.Store office.old.held) }
{
    let batches = office.batches(ward)?;
    let doubtful = office.doubtful(ward)?;
    Ok(WardPapers { batches, doubtful })
}

/// Returns everything read about one ward.
pub(crate) fn read_ward<S: Alter>(office: &mut Office<S>, ward: u32) -> Result<WardRead, ReadError>
    ensures reads { ReadWhenOpen (state S.Store) office.old office.new ward_read_view (λ s. ward_read_told s ward) result }
    ensures closed { office.old.closed ≡ true → (result ≡ Err (ReadError.Fault Fault.Closed)) × (office.new ≡ office.old) }
    ensures clean { HasCleanDisk (state S.Store office.new.held) → HasCleanDisk (state S.Store office.old.held) }
{
    let progress = read_progress(office, ward)?;
    let papers = read_papers(office, ward)?;
    Ok(WardRead { progress, papers })
}
