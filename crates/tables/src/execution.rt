//! Executes statements that write, inside a transaction.

ghost use Rattle.sqlite.specs.Values.{bound};
ghost use Rattle.tables.specs.Writing.{RunsStatement};

use crate::fault::{Fault, fault_of};
use sqlite::{Alter, Transaction};
use sqlite_value::value::ValueRef;

/// Executes a statement that writes. After a fault, the last commit is unchanged.
pub(crate) fn execute<S: Alter>(
    tx: &mut Transaction<'_, S>,
    sql: &str,
    params: &[ValueRef<'_>],
) -> Result<(), Fault>
    ensures { RunsStatement S.Store tx.old.conn tx.new.conn sql.now (bound params.now) result }
{
    match tx.execute(sql, params) {
        Ok(_) => Ok(()),
        Err(e) => Err(fault_of(e)),
    }
}
