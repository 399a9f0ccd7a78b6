//! All entries of the tables, as read when an office is opened.

ghost use Rattle.std.specs.Prelude.{◌≡◌, false, [], IfOk};
ghost use Rattle.register.specs.Offices.{MapsAreSorted};
ghost use Rattle.rowcheck.specs.States.{state_of, tabulated};
ghost use Rattle.tables.specs.Schema.{IsOfficeSchema};
ghost use Rattle.store.specs.StateTables.{no_tabulation};
ghost use Rattle.store.specs.Openings.{TellsNoState, ListsMaps};
ghost use Rattle.store.specs.Listings.{Lists, BeginsFirst, TellsStrange, ListsFirst, ListsPapers, PapersRise};

use crate::entries::batches::Batches;
use crate::entries::bundles::PlacedBundles;
use crate::entries::candidates::Candidates;
use crate::entries::figures::StageFigures;
use crate::entries::keyings::KeyedPapers;
use crate::entries::lots::Lots;
use crate::entries::receipts::Receipts;
use crate::entries::thirds::ThirdClerks;
use crate::entries::verdicts::JudgedPapers;
use crate::entries::wards::Wards;
use register::{Batch, JudgedPaper, KeyedPaper};
use rowcheck::Rows;
use sqlite::{Alter, Connection};
use std::alloc::Global;
use tables::Fault;
use tables::listing::all_entries;

/// The batches of ballot papers, along with the keyed and the judged papers.
#[derive(Drop)]
struct Papers {
    batches: Vec<Batch>,
    keyings: Vec<KeyedPaper>,
    verdicts: Vec<JudgedPaper>,
}

/// Returns a database's batches and their papers. Returns `Damaged` if no state has these rows.
fn all_papers<S: Alter>(alloc: Global, conn: &mut Connection<S>) -> Result<Papers, Fault>
    requires { conn.old.in_transaction ≡ false }
    ensures lists { Lists S.Store conn.old conn.new result (λ db. BeginsFirst 8 db.schema) ListsPapers (TellsStrange 8) }
    ensures rise { IfOk result PapersRise }
{
    let batches = all_entries::<Batches, S>(alloc, conn)?;
    let keyings = all_entries::<KeyedPapers, S>(alloc, conn)?;
    let verdicts = all_entries::<JudgedPapers, S>(alloc, conn)?;
    Ok(Papers {
        batches,
        keyings,
        verdicts,
    })
}

/// Returns the entries of the first eight tables of a database, each table's in key order. Returns `Damaged` if no
/// state has these rows.
pub(crate) fn first_rows<S: Alter>(alloc: Global, conn: &mut Connection<S>) -> Result<Rows, Fault>
    requires { conn.old.in_transaction ≡ false }
    ensures lists { Lists S.Store conn.old conn.new result (λ db. BeginsFirst 8 db.schema) (λ db rows. ListsFirst 8 db (state_of rows) (tabulated rows)) (TellsStrange 8) }
    ensures rise { IfOk result (λ rows. MapsAreSorted (state_of rows)) }
    ensures no_thirds { IfOk result (λ rows. (state_of rows).thirds ≡ []) }
    ensures no_counts { IfOk result (λ rows. tabulated rows ≡ no_tabulation) }
{
    let wards = all_entries::<Wards, S>(alloc, conn)?;
    let candidates = all_entries::<Candidates, S>(alloc, conn)?;
    let Papers {
        batches,
        keyings,
        verdicts,
    } = all_papers(alloc, conn)?;
    let lots = all_entries::<Lots, S>(alloc, conn)?;
    let receipts = all_entries::<Receipts, S>(alloc, conn)?;
    Ok(Rows {
        wards,
        candidates,
        batches,
        thirds: Vec::new(alloc),
        keyings,
        verdicts,
        lots,
        receipts,
        bundles: Vec::new(alloc),
        figures: Vec::new(alloc),
    })
}

/// Returns the entries of the first ten tables the same way, including the tabulation of the counts.
pub(crate) fn counted_rows<S: Alter>(alloc: Global, conn: &mut Connection<S>) -> Result<Rows, Fault>
    requires { conn.old.in_transaction ≡ false }
    ensures lists { Lists S.Store conn.old conn.new result (λ db. BeginsFirst 10 db.schema) (λ db rows. ListsFirst 10 db (state_of rows) (tabulated rows)) (TellsStrange 10) }
    ensures rise { IfOk result (λ rows. MapsAreSorted (state_of rows)) }
    ensures no_thirds { IfOk result (λ rows. (state_of rows).thirds ≡ []) }
{
    let mut rows = first_rows(alloc, conn)?;
    let bundles = all_entries::<PlacedBundles, S>(alloc, conn)?;
    let figures = all_entries::<StageFigures, S>(alloc, conn)?;
    rows.bundles = bundles;
    rows.figures = figures;
    Ok(rows)
}

/// Returns the entries of all tables of a database, each table's in key order. Returns `Damaged` if no state has these
/// rows.
pub(crate) fn all_rows<S: Alter>(alloc: Global, conn: &mut Connection<S>) -> Result<Rows, Fault>
    requires { conn.old.in_transaction ≡ false }
    ensures lists { Lists S.Store conn.old conn.new result (λ db. IsOfficeSchema db.schema) (λ db rows. ListsMaps db (state_of rows) (tabulated rows)) TellsNoState }
    ensures rise { IfOk result (λ rows. MapsAreSorted (state_of rows)) }
{
    let mut rows = counted_rows(alloc, conn)?;
    let thirds = all_entries::<ThirdClerks, S>(alloc, conn)?;
    rows.thirds = thirds;
    Ok(rows)
}
