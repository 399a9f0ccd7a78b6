//! Creates the tables of a new office, and any that an older office lacks.

ghost use Rattle.std.specs.Prelude.{◌≡◌, ◌↔◌, ◌<◌, ◌+◌, ℕ, [], true, ⊤, IfErr};
ghost use Rattle.sqlite.specs.Schema.{Schema};
ghost use Rattle.sqlite.specs.Effect.{Database, IsDatabase};
ghost use Rattle.sqlite.specs.Held.{Held, state};
ghost use Rattle.tables.specs.Texts.{create_text};
ghost use Rattle.tables.specs.Schema.{BeginsTo, schema_from, place_of};
ghost use Rattle.tables.specs.Contents.{Contents, Sees};
ghost use Rattle.tables.specs.Making.{no_contents, FirstAt, HasFirstTables, RestsFirst, SeesMade, SeesNothing, StoresFirst};
ghost use Rattle.tables.specs.Faults.{TellsStatement};
ghost use Rattle.tables.specs.Writing.{Alters};
ghost use Rattle.tables.specs.declared.table.Table.{Table};

use crate::execution::execute;
use crate::fault::Fault;
use crate::table::Table;
use crate::texts::create_text;
use sqlite::{Alter, Transaction};

/// Creates an empty table, after those that precede it; their rows are unchanged. After a fault, the last commit is
/// unchanged.
pub fn create_table<S: Alter>(tx: &mut Transaction<'_, S>, table: Table) -> Result<(), Fault>
    ensures makes { Alters S.Store tx.old.conn tx.new.conn result (λ (c : Contents) s. (c table ≡ []) × SeesMade (place_of table) c s) (SeesMade (place_of table + 1)) }
    ensures told { IfErr result (TellsStatement (create_text table) [] (state S.Store tx.old.conn.now) (state S.Store tx.new.conn.now)) }
{
    execute(tx, create_text(table), &[])
}

/// Creates all tables of an office, with no rows, in an empty database. After a fault, the last commit is unchanged.
pub fn create_tables<S: Alter>(tx: &mut Transaction<'_, S>) -> Result<(), Fault>
    ensures { Alters S.Store tx.old.conn tx.new.conn result (λ (x : ⊤). SeesNothing) (λ x. Sees no_contents) }
{
    for table in Table::ALL {
        create_table(tx, table)?;
    }
    Ok(())
}

/// The laws of an office that has only the first tables, and of how it becomes complete: each existing table can be
/// read, and what a stop has left can be identified after reopening. A transaction begins in the state of its
/// connection, and sees an office once all tables have been created.
pub fn first_tables_lead_to_all<S: Alter>()
    ensures holds { (n : ℕ) → (c : Contents) → (db : Database) → FirstAt n c db ↔ HasFirstTables n c db }
    ensures reads { (n : ℕ) → (s : Schema) → s ≡ schema_from n [] [] [] → (t : Table) → place_of t < n → BeginsTo t s }
    ensures begins { (n : ℕ) → (c : Contents) → (held : Held S) → RestsFirst n c (state S.Store held) → SeesMade n c (state S.Store (record held { in_transaction = true })) }
    ensures ends { (c : Contents) → (held : Held S) → SeesMade 11 c (state S.Store held) → Sees c (state S.Store held) }
    ensures found { (n : ℕ) → (c : Contents) → (db : Database) → IsDatabase db → StoresFirst n c db.trees → HasFirstTables n c db }
{}
