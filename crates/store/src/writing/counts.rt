//! Writes the tabulation of counts inside a transaction.

ghost use Rattle.register.specs.Tabulated.{addition_entries, with_addition};
ghost use Rattle.tables.specs.Writing.{Alters};
ghost use Rattle.store.specs.StateTables.{SeesState};

use crate::entries::bundles::PlacedBundles;
use crate::entries::figures::StageFigures;
use register::Addition;
use sqlite::{Alter, Transaction};
use std::alloc::Global;
use tables::Fault;
use tables::writing::{add_both, replace_entries};

/// Adds to the tabulation: replaces the rows of bundles that have moved with the new rows that have the same keys, and
/// inserts the rows of new bundles and figures.
pub(crate) fn write_addition<S: Alter>(
    alloc: Global,
    tx: &mut Transaction<'_, S>,
    addition: &Addition,
) -> Result<(), Fault>
    ensures { Alters S.Store tx.old.conn tx.new.conn result SeesState (λ x. SeesState (x.0, with_addition (addition_entries addition.now) x.1)) }
{
    replace_entries::<PlacedBundles, S>(alloc, tx, &addition.moved)?;
    add_both::<PlacedBundles, StageFigures, S>(alloc, tx, &addition.placed, &addition.figures)
}
