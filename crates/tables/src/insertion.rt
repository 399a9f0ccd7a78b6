//! Inserts rows inside a transaction.

ghost use Rattle.std.specs.Prelude.{◌≡◌, true, IfErr};
ghost use Rattle.sqlite.specs.Values.{bound};
ghost use Rattle.sqlite.specs.Held.{state};
ghost use Rattle.tables.specs.Texts.{insert_text};
ghost use Rattle.tables.specs.Rows.{is_row_of};
ghost use Rattle.tables.specs.Contents.{Sees, added};
ghost use Rattle.tables.specs.Faults.{TellsStatement};
ghost use Rattle.tables.specs.Writing.{Alters};

use crate::execution::execute;
use crate::fault::Fault;
use crate::table::Table;
use crate::texts::insert_text;
use sqlite::{Alter, Transaction};
use sqlite_value::value::ValueRef;

/// Inserts one row with the given values, one per column and of the column's kind. After a fault, for example if a row
/// with the same key exists, the last commit is unchanged.
pub fn insert<S: Alter>(
    tx: &mut Transaction<'_, S>,
    table: Table,
    values: &[ValueRef<'_>],
) -> Result<(), Fault>
    requires kinds { is_row_of table (bound values.now) ≡ true }
    ensures adds { Alters S.Store tx.old.conn tx.new.conn result Sees (λ c. Sees (added table (bound values.now) c)) }
    ensures told { IfErr result (TellsStatement (insert_text table) (bound values.now) (state S.Store tx.old.conn.now) (state S.Store tx.new.conn.now)) }
{
    execute(tx, insert_text(table), values)
}
