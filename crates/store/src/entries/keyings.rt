//! Keyed papers, as the rows of their table.

ghost use Rattle.std.specs.Prelude.{refl};
ghost use Rattle.register.specs.Offices.{keyed_entry};
ghost use Rattle.tables.specs.declared.table.Table.TheVariants.{Keying as KeyingTable};
ghost use Rattle.store.specs.EntryRows.{IsKeyedRow, row_of_keyed};

use register::KeyedPaper;
use sqlite::Row;
use sqlite_value::value::ValueRef;
use std::alloc::Global;
use tables::value_conversion::{number_at, row_values, text, text_at};
use tables::{Entries, Fault, Table};

/// The keyed papers, ordered by batch, round, clerk and paper.
pub(crate) struct KeyedPapers;

impl Entries for KeyedPapers {
    type Entry = KeyedPaper;

    ghost row_of = { λ k. row_of_keyed (keyed_entry k) };

    ghost is_row = { IsKeyedRow };

    ghost TABLE = { KeyingTable };

    const TABLE: Table = Table::Keying;

    fn values<'a>(keyed: &'a KeyedPaper, alloc: Global) -> Result<Vec<ValueRef<'a>>, Fault> {
        let numbers = [keyed.batch, keyed.round, keyed.clerk, keyed.paper];
        row_values(alloc, &numbers, &[text(keyed.marks.as_str())])
    }

    fn read(row: &Row) -> Result<KeyedPaper, Fault> {
        Ok(KeyedPaper {
            batch: number_at(row, 0)?,
            round: number_at(row, 1)?,
            clerk: number_at(row, 2)?,
            paper: number_at(row, 3)?,
            marks: text_at(row, 4)?,
        })
    }

    ghost typed = { λ k. refl };
}
