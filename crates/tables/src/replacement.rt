//! Replaces rows, or changes one column of a row, inside a transaction.

ghost use Rattle.std.specs.Prelude.{◌≡◌, true, IfErr};
ghost use Rattle.sqlite.specs.Values.{bound};
ghost use Rattle.sqlite.specs.Held.{state};
ghost use Rattle.tables.specs.Texts.{update_text, set_text};
ghost use Rattle.tables.specs.Schema.{changes_rows};
ghost use Rattle.tables.specs.Rows.{is_row_of, is_setting};
ghost use Rattle.tables.specs.Contents.{Sees, replaced, value_put};
ghost use Rattle.tables.specs.Faults.{TellsStatement};
ghost use Rattle.tables.specs.Writing.{Alters};

use crate::execution::execute;
use crate::fault::Fault;
use crate::table::{SettableColumn, Table};
use crate::texts::{set_text, update_text};
use sqlite::{Alter, Transaction};
use sqlite_value::value::ValueRef;

/// Updates the row with the same key to the given values, one per column and of the column's kind, in a table whose
/// rows change. If there is no such row, the table is unchanged. After a fault, the last commit is unchanged.
pub fn replace<S: Alter>(
    tx: &mut Transaction<'_, S>,
    table: Table,
    values: &[ValueRef<'_>],
) -> Result<(), Fault>
    requires changes { changes_rows table ≡ true }
    requires kinds { is_row_of table (bound values.now) ≡ true }
    ensures replaces { Alters S.Store tx.old.conn tx.new.conn result Sees (λ c. Sees (replaced table (bound values.now) c)) }
    ensures told { IfErr result (TellsStatement (update_text table) (bound values.now) (state S.Store tx.old.conn.now) (state S.Store tx.new.conn.now)) }
{
    execute(tx, update_text(table), values)
}

/// Sets one column of the row with the given key: the values are those of the key's columns, followed by the new value,
/// which has the column's kind. If there is no such row, the table is unchanged. After a fault, the last commit is
/// unchanged.
pub fn set_value<S: Alter>(
    tx: &mut Transaction<'_, S>,
    setting: SettableColumn,
    values: &[ValueRef<'_>],
) -> Result<(), Fault>
    requires kind { is_setting setting (bound values.now) ≡ true }
    ensures sets { Alters S.Store tx.old.conn tx.new.conn result Sees (λ c. Sees (value_put setting (bound values.now) c)) }
    ensures told { IfErr result (TellsStatement (set_text setting) (bound values.now) (state S.Store tx.old.conn.now) (state S.Store tx.new.conn.now)) }
{
    execute(tx, set_text(setting), values)
}
