//! Bundles of identical ballot papers and their places, as the rows of their table.

ghost use Rattle.std.specs.Prelude.{refl};
ghost use Rattle.register.specs.Tabulated.{placed_entry};
ghost use Rattle.tables.specs.declared.table.Table.TheVariants.{Bundle as BundleTable};
ghost use Rattle.store.specs.EntryRows.{IsPlacedRow, row_of_placed};

use crate::entries::units;
use register::PlacedBundle;
use sqlite::Row;
use sqlite_value::value::ValueRef;
use std::alloc::Global;
use tables::value_conversion::{amount_at, bytes, bytes_at, number, number_at};
use tables::{Entries, Fault, Table};

/// The bundles, ordered by ward and list of preferences.
pub(crate) struct PlacedBundles;

impl Entries for PlacedBundles {
    type Entry = PlacedBundle;

    ghost row_of = { λ b. row_of_placed (placed_entry b) };

    ghost is_row = { IsPlacedRow };

    ghost TABLE = { BundleTable };

    const TABLE: Table = Table::Bundle;

    fn values<'a>(bundle: &'a PlacedBundle, alloc: Global) -> Result<Vec<ValueRef<'a>>, Fault> {
        let values = [
            number(bundle.ward),
            bytes(&bundle.list),
            number(bundle.papers),
            number(bundle.holder),
            units(bundle.value)?,
        ];
        Vec::from_array(alloc, values).map_err(|_| Fault::Memory)
    }

    fn read(row: &Row) -> Result<PlacedBundle, Fault> {
        Ok(PlacedBundle {
            ward: number_at(row, 0)?,
            list: bytes_at(row, 1)?,
            papers: number_at(row, 2)?,
            holder: number_at(row, 3)?,
            value: amount_at(row, 4)?,
        })
    }

    ghost typed = { λ b. refl };
}
