//! Batches, as the rows of their table.

ghost use Rattle.std.specs.Prelude.{refl};
ghost use Rattle.register.specs.Offices.{batch_entry};
ghost use Rattle.tables.specs.declared.table.Table.TheVariants.{Batch as BatchTable};
ghost use Rattle.store.specs.EntryRows.{IsBatchRow, row_of_batch};

use register::Batch;
use sqlite::Row;
use sqlite_value::value::ValueRef;
use std::alloc::Global;
use tables::value_conversion::{number, number_at};
use tables::{Entries, Fault, Table};

/// The batches, ordered by number.
pub(crate) struct Batches;

impl Entries for Batches {
    type Entry = Batch;

    ghost row_of = { λ b. row_of_batch (batch_entry b) };

    ghost is_row = { IsBatchRow };

    ghost TABLE = { BatchTable };

    const TABLE: Table = Table::Batch;

    fn values<'a>(batch: &'a Batch, alloc: Global) -> Result<Vec<ValueRef<'a>>, Fault> {
        let values = [
            number(batch.number),
            number(batch.ward),
            number(batch.size),
            number(batch.first_clerk),
            number(batch.second_clerk),
            number(batch.round),
        ];
        Vec::from_array(alloc, values).map_err(|_| Fault::Memory)
    }

    fn read(row: &Row) -> Result<Batch, Fault> {
        Ok(Batch {
            number: number_at(row, 0)?,
            ward: number_at(row, 1)?,
            size: number_at(row, 2)?,
            first_clerk: number_at(row, 3)?,
            second_clerk: number_at(row, 4)?,
            round: number_at(row, 5)?,
        })
    }

    ghost typed = { λ b. refl };
}
