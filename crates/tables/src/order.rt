//! The key order of rows.

ghost use Rattle.std.specs.Prelude.{◌≡◌, ◌<◌, ◌+◌, ◌^◌, true, false, OnOk};
ghost use Rattle.std.specs.List.Sorted.{IsPermutation, IsSorted, IsStrictlySortedBy};
ghost use Rattle.sqlite.specs.Value.{owned};
ghost use Rattle.sqlite.specs.Order.{column};
ghost use Rattle.sqlite.specs.Query.{key_cmp};
ghost use Rattle.tables.specs.Rows.{ascending_keys, row_cmp};
ghost use Rattle.tables.specs.Reading.{FailsToRise};

use crate::table::Table;
use sqlite::Row;
use sqlite_value::order::compare;
use sqlite_value::value::ValueRef;
use std::alloc::AllocError;
use std::cmp::Ordering;

/// Returns the value at the given index, or NULL past the end.
fn value_at(row: &Row, place: usize) -> ValueRef<'_>
    ensures { owned result ≡ column row.now place }
{
    match row.get_ref(place) {
        Ok(value) => value,
        Err(_) => ValueRef::Null,
    }
}

/// Compares two rows by `columns` columns, starting at `place`. Recurses once per key column, so at most four times.
fn order_from(a: &Row, b: &Row, place: usize, columns: usize) -> Ordering
    requires { place + columns < 2 ^ 64 }
    ensures { result ≡ key_cmp place (ascending_keys columns) a.now b.now }
{
    if columns == 0 {
        return Ordering::Equal;
    }
    let here = compare(value_at(a, place), value_at(b, place));
    let later = order_from(a, b, place + 1, columns - 1);
    here.then(later)
}

/// Compares two rows by the key of their table.
pub(crate) fn key_order(table: Table, a: &Row, b: &Row) -> Ordering
    ensures { result ≡ row_cmp table a.now b.now }
{
    order_from(a, b, 0, table.key_columns())
}

/// Sorts rows by the key of their table. Returns `AllocError` if an allocation fails.
pub(crate) fn put_in_order(table: Table, rows: &mut Vec<Row>) -> Result<(), AllocError>
    ensures same { IsPermutation rows.old.items rows.new.items }
    ensures sorted { OnOk result (IsSorted (row_cmp table) rows.new.items) }
{
    rows.sort_by(|a, b| key_order(table, a, b))
}

/// Returns whether each row's key is below that of the next row.
pub fn keys_rise(table: Table, rows: &[Row]) -> bool
    ensures rise { result ≡ true → IsStrictlySortedBy (row_cmp table) rows.now }
    ensures fall { result ≡ false → FailsToRise table rows.now }
{
    for i in 1..rows.len() {
        if key_order(table, &rows[i - 1], &rows[i]) != Ordering::Less {
            return false;
        }
    }
    true
}
