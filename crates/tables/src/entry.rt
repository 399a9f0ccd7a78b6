//! Entries, and the rows that represent them.

ghost use Rattle.std.specs.Prelude.{◌≡◌, ◌⊎◌, true, IfOk, IfErr};
ghost use Rattle.sqlite.specs.Order.{Row};
ghost use Rattle.sqlite.specs.Values.{bound};
ghost use Rattle.tables.specs.declared.table.Table.{Table};
ghost use Rattle.tables.specs.Rows.{at, column_places, is_row_of};

use crate::fault::Fault;
use crate::table::Table;
use sqlite::Row;
use sqlite_value::value::ValueRef;
use std::alloc::Global;

/// The entries of a table, each stored as a row. A new table requires only an `impl` of this trait: the values of its
/// columns, in order, and how to read them.
pub trait Entries {
    /// The type of entry that a row represents.
    type Entry: Drop;

    // The row of an entry, and which rows represent an entry.
    ghost row_of: { Self.Entry → Row };

    ghost is_row: { Row → Type 0 };

    ghost TABLE: { Table };

    /// The table.
    const TABLE: Table;

    /// Returns the values of the entry's row. Returns `Memory` if an allocation fails.
    fn values<'a>(entry: &'a Self::Entry, alloc: Global) -> Result<Vec<ValueRef<'a>>, Fault>
        ensures values { IfOk result (λ values. bound values.items ≡ row_of entry.now) }
        ensures cause { IfErr result (λ f. f ≡ Fault.Memory) };

    /// Returns the entry that a row represents. Returns `Damaged` if the row doesn't represent one.
    fn read(row: &Row) -> Result<Self::Entry, Fault>
        ensures reads { IfOk result (λ entry. at (column_places TABLE) row.now ≡ row_of entry) }
        ensures cause { IfErr result (λ f. (f ≡ Fault.Memory) ⊎ ((f ≡ Fault.Damaged) × ¬ is_row row.now)) };

    // An entry's row has a value of the correct kind for each column.
    ghost typed: { (entry : Self.Entry) → is_row_of TABLE (row_of entry) ≡ true };
}
