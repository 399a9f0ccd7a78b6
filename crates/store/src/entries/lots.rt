//! Lots, as the rows of their table.

ghost use Rattle.std.specs.Prelude.{refl};
ghost use Rattle.register.specs.Offices.{lot_entry};
ghost use Rattle.tables.specs.declared.table.Table.TheVariants.{Lot as LotTable};
ghost use Rattle.store.specs.EntryRows.{IsLotRow, row_of_lot};

use register::DrawnLot;
use sqlite::Row;
use sqlite_value::value::ValueRef;
use std::alloc::Global;
use tables::value_conversion::{number_at, row_values};
use tables::{Entries, Fault, Table};

/// The lots, ordered by ward and stage.
pub(crate) struct Lots;

impl Entries for Lots {
    type Entry = DrawnLot;

    ghost row_of = { λ l. row_of_lot (lot_entry l) };

    ghost is_row = { IsLotRow };

    ghost TABLE = { LotTable };

    const TABLE: Table = Table::Lot;

    fn values<'a>(lot: &'a DrawnLot, alloc: Global) -> Result<Vec<ValueRef<'a>>, Fault> {
        let numbers = [lot.ward, lot.stage, lot.candidate];
        row_values(alloc, &numbers, &[])
    }

    fn read(row: &Row) -> Result<DrawnLot, Fault> {
        Ok(DrawnLot {
            ward: number_at(row, 0)?,
            stage: number_at(row, 1)?,
            candidate: number_at(row, 2)?,
        })
    }

    ghost typed = { λ l. refl };
}
