//! An office made by an earlier program: its tables, and the state they represent.

ghost use Rattle.std.specs.Prelude.{◌≡◌, ◌≢◌, false, [], IfOk, IfErr, IfSome, IfNone, OnOk, IsTrue};
ghost use Rattle.std.specs.List.{list_any};
ghost use Rattle.sqlite.specs.Effect.{Database, IsDatabase};
ghost use Rattle.sqlite.specs.State.{HasCleanDisk, IsLive};
ghost use Rattle.sqlite.specs.Held.{state};
ghost use Rattle.register.specs.Offices.{MapsAreSorted, receipt_entry};
ghost use Rattle.register.specs.Tabulated.{addition_entries, tabulation_entries};
ghost use Rattle.rowcheck.specs.States.{state_of, tabulated};
ghost use Rattle.tables.specs.Schema.{schema_from};
ghost use Rattle.tables.specs.Contents.{RestsAt};
ghost use Rattle.tables.specs.Presence.{tables_present, IsOlderSchema};
ghost use Rattle.tables.specs.Reading.{OnlyReads, FailsToList};
ghost use Rattle.register.specs.declared.receipt.Receipt.{Receipt as ReceiptValue};
ghost use Rattle.store.specs.declared.older.OlderForm.{OlderForm};
ghost use Rattle.store.specs.Openings.{HasVersion, IsTabulatedAs};
ghost use Rattle.store.specs.Listings.{Lists, BeginsFirst, TellsStrange, ListsFirst};
ghost use Rattle.store.specs.Migrations.{tables_in, name_of, tabulation_in, is_about_third, IsBare, IsOlderOf, IsCompletedBy, FoundOlder, TellsOlder};

use crate::listing::{counted_rows, first_rows};
use crate::opening::tabulation_of_state;
use register::{Addition, Receipt, Tabulation};
use rowcheck::{Rows, is_tabulated};
use sqlite::{Alter, Connection};
use std::alloc::Global;
use tables::Fault;
use tables::presence::{TablesPresent, tables_present};

/// The set of tables that an older office has.
#[derive(Clone, Copy, PartialEq, Eq)]
pub enum OlderForm {
    /// All tables except the one for third clerks.
    WithCounts,
    /// Like `WithCounts`, but also without the two tables for the tabulation of the counts.
    WithoutCounts,
}

/// The form of an older office, and the part of the tabulation of its counts that it lacks.
#[derive(Drop)]
pub(crate) struct Older {
    pub(crate) form: OlderForm,
    pub(crate) missing: Addition,
}

/// Returns which of the tables a database has, if they are those of an older office.
fn older_form<S: Alter>(conn: &Connection<S>) -> Option<OlderForm>
    ensures some { IfSome result (λ form. tables_present (state S.Store conn.now).now.schema ≡ name_of form) }
    ensures none { IfNone result ((form : OlderForm) → tables_present (state S.Store conn.now).now.schema ≢ name_of form) }
    ensures live { IsLive (state S.Store conn.now) }
{
    match tables_present(conn) {
        TablesPresent::WithoutThird => Some(OlderForm::WithCounts),
        TablesPresent::WithoutCounts => Some(OlderForm::WithoutCounts),
        TablesPresent::Whole => None,
        TablesPresent::Other => None,
    }
}

/// Returns the entries of an older office's tables, each table's in key order. Returns `Damaged` if no state has these
/// rows.
fn older_rows<S: Alter>(
    alloc: Global,
    conn: &mut Connection<S>,
    form: OlderForm,
) -> Result<Rows, Fault>
    requires { conn.old.in_transaction ≡ false }
    ensures lists { Lists S.Store conn.old conn.new result (λ db. BeginsFirst (tables_in form) db.schema)
        (λ db rows. ListsFirst (tables_in form) db (state_of rows) (tabulated rows)) (TellsStrange (tables_in form)) }
    ensures rise { IfOk result (λ rows. MapsAreSorted (state_of rows)) }
    ensures bare { IfOk result (λ rows. IsBare form (state_of rows) (tabulated rows)) }
{
    match form {
        OlderForm::WithCounts => counted_rows(alloc, conn),
        OlderForm::WithoutCounts => first_rows(alloc, conn),
    }
}

/// Returns whether a receipt is about a third clerk, a subject that no earlier program had.
fn is_about_third(subject: &str) -> bool
    ensures { result ≡ is_about_third subject.now }
{
    subject.as_bytes().starts_with(b"third ")
}

/// Returns whether any receipt is about a third clerk.
fn are_about_thirds(receipts: &[Receipt]) -> bool
    ensures { result ≡ list_any (λ (r : ReceiptValue). is_about_third (receipt_entry r).subject) receipts.now }
{
    receipts
        .iter()
        .any(|receipt| is_about_third(&receipt.subject))
}

/// Returns the part of the tabulation that an office of the given form lacks, if the part it has is correct.
fn missing_tabulation(
    alloc: Global,
    form: OlderForm,
    rows: &Rows,
    counted: Tabulation,
) -> Option<Addition>
    requires { IsBare form (state_of rows.now) (tabulated rows.now) }
    ensures some { IfSome result (λ a. IsTabulatedAs (state_of rows.now) (tabulation_entries counted)
        → (tabulated rows.now ≡ tabulation_in form (state_of rows.now)) × IsCompletedBy form (state_of rows.now) (addition_entries a)) }
    ensures none { IfNone result (IsTabulatedAs (state_of rows.now) (tabulation_entries counted) → ¬ (tabulated rows.now ≡ tabulation_in form (state_of rows.now))) }
{
    match form {
        OlderForm::WithCounts => {
            if is_tabulated(rows, &counted) {
                Some(Addition::none(alloc))
            } else {
                None
            }
        }
        OlderForm::WithoutCounts => Some(Addition {
            placed: counted.bundles,
            moved: Vec::new(alloc),
            figures: counted.figures,
        }),
    }
}

/// Returns what an older office lacks, if its rows, which are in key order, are those of a state, that is, if they meet
/// every condition and no receipt is about a third clerk. The only error is `Memory`.
fn missing_of(alloc: Global, form: OlderForm, rows: &Rows) -> Result<Option<Addition>, Fault>
    requires rise { MapsAreSorted (state_of rows.now) }
    requires bare { IsBare form (state_of rows.now) (tabulated rows.now) }
    ensures some { IfOk result (λ found. IfSome found (λ a. IsOlderOf form (state_of rows.now) (tabulated rows.now) × IsCompletedBy form (state_of rows.now) (addition_entries a))) }
    ensures none { IfOk result (λ found. IfNone found (¬ IsOlderOf form (state_of rows.now) (tabulated rows.now))) }
    ensures cause { IfErr result (λ f. f ≡ Fault.Memory) }
{
    if are_about_thirds(&rows.receipts) {
        return Ok(None);
    }
    match tabulation_of_state(alloc, rows) {
        Ok(Some(counted)) => Ok(missing_tabulation(alloc, form, rows, counted)),
        Ok(None) => Ok(None),
        Err(fault) => Err(fault),
    }
}

/// Reads an older office of the given form, and checks its rows.
fn read_form<S: Alter>(
    alloc: Global,
    conn: &mut Connection<S>,
    form: OlderForm,
) -> Result<Addition, Fault>
    requires { conn.old.in_transaction ≡ false }
    ensures found { HasCleanDisk (state S.Store conn.new) → (db : Database) → IsDatabase db → db.schema ≡ schema_from (tables_in form) [] [] [] → HasVersion 1 db → RestsAt db (state S.Store conn.old)
        → IfOk result (λ missing. FoundOlder db form (addition_entries missing)) }
    ensures told { HasCleanDisk (state S.Store conn.new) → (db : Database) → db.schema ≡ schema_from (tables_in form) [] [] [] → RestsAt db (state S.Store conn.old)
        → IfErr result (TellsOlder db) }
    ensures fails { HasCleanDisk (state S.Store conn.new) → (db : Database) → db.schema ≡ schema_from (tables_in form) [] [] [] → RestsAt db (state S.Store conn.old)
        → IfErr result (FailsToList db (state S.Store conn.old) (state S.Store conn.new)) }
    ensures opens { HasCleanDisk (state S.Store conn.new) → OnOk result (IsTrue (state S.Store conn.new).is_open) }
    ensures reads { OnlyReads (state S.Store conn.old) (state S.Store conn.new) }
    ensures outside { conn.new.in_transaction ≡ false }
{
    let rows = older_rows(alloc, conn, form)?;
    match missing_of(alloc, form, &rows) {
        Ok(Some(missing)) => Ok(missing),
        Ok(None) => Err(Fault::Damaged),
        Err(fault) => Err(fault),
    }
}

/// Reads an older office, and changes nothing. Returns `Damaged` if the database's tables are not those of an older
/// office, or if no state has these rows.
pub(crate) fn read_older<S: Alter>(alloc: Global, conn: &mut Connection<S>) -> Result<Older, Fault>
    requires { conn.old.in_transaction ≡ false }
    ensures found { HasCleanDisk (state S.Store conn.new) → (db : Database) → IsOlderSchema db.schema → HasVersion 1 db → RestsAt db (state S.Store conn.old)
        → IfOk result (λ older. FoundOlder db older.form (addition_entries older.missing)) }
    ensures told { HasCleanDisk (state S.Store conn.new) → (db : Database) → IsOlderSchema db.schema → RestsAt db (state S.Store conn.old)
        → IfErr result (TellsOlder db) }
    ensures fails { HasCleanDisk (state S.Store conn.new) → (db : Database) → IsOlderSchema db.schema → RestsAt db (state S.Store conn.old)
        → IfErr result (FailsToList db (state S.Store conn.old) (state S.Store conn.new)) }
    ensures opens { HasCleanDisk (state S.Store conn.new) → OnOk result (IsTrue (state S.Store conn.new).is_open) }
    ensures reads { OnlyReads (state S.Store conn.old) (state S.Store conn.new) }
    ensures outside { conn.new.in_transaction ≡ false }
{
    let form = match older_form(conn) {
        Some(form) => form,
        None => return Err(Fault::Damaged),
    };
    let missing = read_form(alloc, conn, form)?;
    Ok(Older { form, missing })
}
