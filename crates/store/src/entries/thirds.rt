//! Third clerks, as the rows of their table.

ghost use Rattle.std.specs.Prelude.{refl};
ghost use Rattle.register.specs.Offices.{third_entry};
ghost use Rattle.tables.specs.declared.table.Table.TheVariants.{Third as ThirdTable};
ghost use Rattle.store.specs.EntryRows.{IsThirdRow, row_of_third};

use register::ThirdClerk;
use sqlite::Row;
use sqlite_value::value::ValueRef;
use std::alloc::Global;
use tables::value_conversion::{number_at, row_values};
use tables::{Entries, Fault, Table};

/// The third clerks, ordered by batch.
pub(crate) struct ThirdClerks;

impl Entries for ThirdClerks {
    type Entry = ThirdClerk;

    ghost row_of = { λ t. row_of_third (third_entry t) };

    ghost is_row = { IsThirdRow };

    ghost TABLE = { ThirdTable };

    const TABLE: Table = Table::Third;

    fn values<'a>(third: &'a ThirdClerk, alloc: Global) -> Result<Vec<ValueRef<'a>>, Fault> {
        let numbers = [third.batch, third.clerk];
        row_values(alloc, &numbers, &[])
    }

    fn read(row: &Row) -> Result<ThirdClerk, Fault> {
        Ok(ThirdClerk {
            batch: number_at(row, 0)?,
            clerk: number_at(row, 1)?,
        })
    }

    ghost typed = { λ t. refl };
}
