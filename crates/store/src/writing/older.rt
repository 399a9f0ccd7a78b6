//! Writes what an older office lacks, inside a transaction.

ghost use Rattle.std.specs.Prelude.{◌≡◌, []};
ghost use Rattle.register.specs.Offices.{OfficeState};
ghost use Rattle.register.specs.Tabulated.{addition_entries};
ghost use Rattle.tables.specs.Contents.{Contents, Sees};
ghost use Rattle.tables.specs.Making.{SeesMade};
ghost use Rattle.tables.specs.Writing.{Alters};
ghost use Rattle.store.specs.StateTables.{tables_of};
ghost use Rattle.store.specs.Migrations.{older_tables, SeesOlder, IsCompletedBy};

use crate::older::{Older, OlderForm};
use crate::writing::VERSION;
use crate::writing::counts::write_addition;
use sqlite::{Alter, Transaction};
use std::alloc::Global;
use tables::making::create_table;
use tables::replacement::set_value;
use tables::value_conversion::number;
use tables::{Fault, SettableColumn, Table};

/// Creates the last three tables, all empty.
fn create_last_three<S: Alter>(tx: &mut Transaction<'_, S>) -> Result<(), Fault>
    ensures { Alters S.Store tx.old.conn tx.new.conn result (λ (c : Contents) s. (c Table.Bundle ≡ []) × (c Table.Vote ≡ []) × (c Table.Third ≡ []) × SeesMade 8 c s) (SeesMade 11) }
{
    create_table(tx, Table::Bundle)?;
    create_table(tx, Table::Vote)?;
    create_table(tx, Table::Third)
}

/// Creates the tables that an office of the given form lacks, all empty.
fn create_missing<S: Alter>(tx: &mut Transaction<'_, S>, form: OlderForm) -> Result<(), Fault>
    ensures { Alters S.Store tx.old.conn tx.new.conn result (SeesOlder form) (λ s. Sees (older_tables form s)) }
{
    match form {
        OlderForm::WithCounts => create_table(tx, Table::Third),
        OlderForm::WithoutCounts => create_last_three(tx),
    }
}

/// Migrates an older office to this program's version: creates the tables that it lacks, writes the version to the
/// office row, and inserts the rows that it lacks.
pub(crate) fn write_migration<S: Alter>(
    alloc: Global,
    tx: &mut Transaction<'_, S>,
    older: &Older,
) -> Result<(), Fault>
    ensures { Alters S.Store tx.old.conn tx.new.conn result
        (λ (s : OfficeState) st. IsCompletedBy older.now.form s (addition_entries older.now.missing) × SeesOlder older.now.form s st) (λ s. Sees (tables_of s)) }
{
    create_missing(tx, older.form)?;
    set_value(
        tx,
        SettableColumn::VersionOfOffice,
        &[number(1), number(VERSION)],
    )?;
    write_addition(alloc, tx, &older.missing)
}
