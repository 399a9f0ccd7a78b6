//! Removes rows inside a transaction.

ghost use Rattle.std.specs.Prelude.{◌≡◌, true, IfErr};
ghost use Rattle.sqlite.specs.Values.{bound};
ghost use Rattle.sqlite.specs.Held.{state};
ghost use Rattle.tables.specs.Texts.{delete_text};
ghost use Rattle.tables.specs.Schema.{changes_rows};
ghost use Rattle.tables.specs.Contents.{Sees, removed};
ghost use Rattle.tables.specs.Faults.{TellsStatement};
ghost use Rattle.tables.specs.Writing.{Alters};

use crate::execution::execute;
use crate::fault::Fault;
use crate::table::Table;
use crate::texts::delete_text;
use sqlite::{Alter, Transaction};
use sqlite_value::value::ValueRef;

/// Removes the row whose key has the given values, from a table whose rows change; if there is no such row, the table
/// is unchanged. After a fault, the last commit is unchanged.
pub fn remove<S: Alter>(
    tx: &mut Transaction<'_, S>,
    table: Table,
    key: &[ValueRef<'_>],
) -> Result<(), Fault>
    requires changes { changes_rows table ≡ true }
    ensures removes { Alters S.Store tx.old.conn tx.new.conn result Sees (λ c. Sees (removed table (bound key.now) c)) }
    ensures told { IfErr result (TellsStatement (delete_text table) (bound key.now) (state S.Store tx.old.conn.now) (state S.Store tx.new.conn.now)) }
{
    execute(tx, delete_text(table), key)
}
