//! Writes a whole office inside a transaction: the rows of another office, already read and checked.

ghost use Rattle.std.specs.Prelude.{⊤};
ghost use Rattle.rowcheck.specs.States.{state_of, tabulated};
ghost use Rattle.tables.specs.Contents.{Sees};
ghost use Rattle.tables.specs.Making.{SeesNothing};
ghost use Rattle.tables.specs.Writing.{Alters};
ghost use Rattle.store.specs.StateTables.{tables_with};

use crate::entries::batches::Batches;
use crate::entries::bundles::PlacedBundles;
use crate::entries::candidates::Candidates;
use crate::entries::figures::StageFigures;
use crate::entries::keyings::KeyedPapers;
use crate::entries::lots::Lots;
use crate::entries::receipts::Receipts;
use crate::entries::thirds::ThirdClerks;
use crate::entries::verdicts::JudgedPapers;
use crate::entries::wards::Wards;
use crate::writing::write_new_office;
use rowcheck::Rows;
use sqlite::{Alter, Transaction};
use std::alloc::Global;
use tables::Fault;
use tables::writing::add_both;

/// Creates all tables in an empty database, and inserts the given rows.
pub(crate) fn write_whole_office<S: Alter>(
    alloc: Global,
    tx: &mut Transaction<'_, S>,
    rows: &Rows,
) -> Result<(), Fault>
    ensures { Alters S.Store tx.old.conn tx.new.conn result (λ (x : ⊤). SeesNothing) (λ x. Sees (tables_with (state_of rows.now) (tabulated rows.now))) }
{
    write_new_office(tx)?;
    add_both::<Wards, Candidates, S>(alloc, tx, &rows.wards, &rows.candidates)?;
    add_both::<Batches, ThirdClerks, S>(alloc, tx, &rows.batches, &rows.thirds)?;
    add_both::<KeyedPapers, JudgedPapers, S>(alloc, tx, &rows.keyings, &rows.verdicts)?;
    add_both::<Lots, Receipts, S>(alloc, tx, &rows.lots, &rows.receipts)?;
    add_both::<PlacedBundles, StageFigures, S>(alloc, tx, &rows.bundles, &rows.figures)
}
