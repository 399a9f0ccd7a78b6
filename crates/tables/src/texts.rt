//! The texts of the statements.

ghost use Rattle.std.specs.Prelude.{◌≡◌, ◌≤◌, true};
ghost use Rattle.tables.specs.Schema.{shape, changes_rows};
ghost use Rattle.tables.specs.Texts.{scan_text, create_text, insert_text, select_text, select_by_reference_text, select_rowids_text};
ghost use Rattle.tables.specs.Texts.{select_rowid_text, select_between_text, update_text, set_text, delete_text};

use crate::table::{Reference, SettableColumn, Table};

#[tactic(auto, unfolding(crate::specs::Texts::create_text))]
/// Returns the text that creates the table.
pub fn create_text(table: Table) -> &'static str
    ensures { result.now ≡ create_text table }
{
    match table {
        Table::Office =>
            "CREATE TABLE office (one INT NOT NULL PRIMARY KEY, version INT NOT NULL) STRICT",
        Table::Ward =>
            "CREATE TABLE ward (ward INT NOT NULL PRIMARY KEY CHECK (ward BETWEEN 1 AND 99), seats INT NOT NULL CHECK (seats BETWEEN 1 AND 15), phase INT NOT NULL, done INT NOT NULL, name TEXT NOT NULL) STRICT",
        Table::Candidate =>
            "CREATE TABLE candidate (ward INT NOT NULL CHECK (ward BETWEEN 1 AND 99), candidate INT NOT NULL CHECK (candidate BETWEEN 1 AND 30), name TEXT NOT NULL, PRIMARY KEY (ward, candidate)) STRICT",
        Table::Batch =>
            "CREATE TABLE batch (batch INT NOT NULL PRIMARY KEY CHECK (batch BETWEEN 1 AND 9999), ward INT NOT NULL CHECK (ward BETWEEN 1 AND 99), size INT NOT NULL CHECK (size BETWEEN 1 AND 500), clerk_a INT NOT NULL CHECK (clerk_a BETWEEN 1 AND 999), clerk_b INT NOT NULL CHECK (clerk_b BETWEEN 1 AND 999), round INT NOT NULL CHECK (round BETWEEN 1 AND 99)) STRICT",
        Table::Keying =>
            "CREATE TABLE keying (batch INT NOT NULL CHECK (batch BETWEEN 1 AND 9999), round INT NOT NULL CHECK (round BETWEEN 1 AND 99), clerk INT NOT NULL CHECK (clerk BETWEEN 1 AND 999), paper INT NOT NULL CHECK (paper BETWEEN 1 AND 500), marks TEXT NOT NULL, PRIMARY KEY (batch, round, clerk, paper)) STRICT",
        Table::Verdict =>
            "CREATE TABLE verdict (batch INT NOT NULL CHECK (batch BETWEEN 1 AND 9999), paper INT NOT NULL CHECK (paper BETWEEN 1 AND 500), code INT NOT NULL, marks TEXT NOT NULL, PRIMARY KEY (batch, paper)) STRICT",
        Table::Lot =>
            "CREATE TABLE lot (ward INT NOT NULL CHECK (ward BETWEEN 1 AND 99), stage INT NOT NULL CHECK (stage BETWEEN 2 AND 31), candidate INT NOT NULL CHECK (candidate BETWEEN 1 AND 30), PRIMARY KEY (ward, stage)) STRICT",
        Table::Receipt =>
            "CREATE TABLE receipt (actor INT NOT NULL CHECK (actor BETWEEN 0 AND 999), id TEXT NOT NULL, subject TEXT NOT NULL, reply TEXT NOT NULL, PRIMARY KEY (actor, id)) STRICT",
        Table::Bundle =>
            "CREATE TABLE bundle (ward INT NOT NULL, prefs BLOB NOT NULL, papers INT NOT NULL, holder INT NOT NULL, value INT NOT NULL, PRIMARY KEY (ward, prefs)) STRICT",
        Table::Vote =>
            "CREATE TABLE vote (ward INT NOT NULL, stage INT NOT NULL, candidate INT NOT NULL, units INT NOT NULL, mark INT NOT NULL, PRIMARY KEY (ward, stage, candidate)) STRICT",
        Table::Third =>
            "CREATE TABLE third (batch INT NOT NULL PRIMARY KEY CHECK (batch BETWEEN 1 AND 9999), clerk INT NOT NULL CHECK (clerk BETWEEN 1 AND 999)) STRICT",
    }
}

#[tactic(auto, unfolding(crate::specs::Texts::insert_text))]
/// Returns the text that inserts a row, with the values of all columns as its parameters.
pub fn insert_text(table: Table) -> &'static str
    ensures { result.now ≡ insert_text table }
{
    match table {
        Table::Office => "INSERT INTO office (one, version) VALUES (?1, ?2)",
        Table::Ward =>
            "INSERT INTO ward (ward, seats, phase, done, name) VALUES (?1, ?2, ?3, ?4, ?5)",
        Table::Candidate => "INSERT INTO candidate (ward, candidate, name) VALUES (?1, ?2, ?3)",
        Table::Batch =>
            "INSERT INTO batch (batch, ward, size, clerk_a, clerk_b, round) VALUES (?1, ?2, ?3, ?4, ?5, ?6)",
        Table::Keying =>
            "INSERT INTO keying (batch, round, clerk, paper, marks) VALUES (?1, ?2, ?3, ?4, ?5)",
        Table::Verdict => "INSERT INTO verdict (batch, paper, code, marks) VALUES (?1, ?2, ?3, ?4)",
        Table::Lot => "INSERT INTO lot (ward, stage, candidate) VALUES (?1, ?2, ?3)",
        Table::Receipt => "INSERT INTO receipt (actor, id, subject, reply) VALUES (?1, ?2, ?3, ?4)",
        Table::Bundle =>
            "INSERT INTO bundle (ward, prefs, papers, holder, value) VALUES (?1, ?2, ?3, ?4, ?5)",
        Table::Vote =>
            "INSERT INTO vote (ward, stage, candidate, units, mark) VALUES (?1, ?2, ?3, ?4, ?5)",
        Table::Third => "INSERT INTO third (batch, clerk) VALUES (?1, ?2)",
    }
}

#[tactic(auto, unfolding(crate::specs::Texts::select_text))]
/// Returns the text that selects all columns of the rows whose first `columns` columns equal the parameters, in key order.
pub fn select_text(table: Table, columns: usize) -> &'static str
    requires { columns ≤ (shape table).key }
    ensures { result.now ≡ select_text table columns }
{
    match (table, columns) {
        (Table::Office, 0) => "SELECT one, version FROM office ORDER BY one",
        (Table::Office, 1) => "SELECT one, version FROM office WHERE one = ?1 ORDER BY one",
        (Table::Ward, 0) => "SELECT ward, seats, phase, done, name FROM ward ORDER BY ward",
        (Table::Ward, 1) =>
            "SELECT ward, seats, phase, done, name FROM ward WHERE ward = ?1 ORDER BY ward",
        (Table::Candidate, 0) =>
            "SELECT ward, candidate, name FROM candidate ORDER BY ward, candidate",
        (Table::Candidate, 1) =>
            "SELECT ward, candidate, name FROM candidate WHERE ward = ?1 ORDER BY ward, candidate",
        (Table::Candidate, 2) =>
            "SELECT ward, candidate, name FROM candidate WHERE ward = ?1 AND candidate = ?2 ORDER BY ward, candidate",
        (Table::Batch, 0) =>
            "SELECT batch, ward, size, clerk_a, clerk_b, round FROM batch ORDER BY batch",
        (Table::Batch, 1) =>
            "SELECT batch, ward, size, clerk_a, clerk_b, round FROM batch WHERE batch = ?1 ORDER BY batch",
        (Table::Keying, 0) =>
            "SELECT batch, round, clerk, paper, marks FROM keying ORDER BY batch, round, clerk, paper",
        (Table::Keying, 1) =>
            "SELECT batch, round, clerk, paper, marks FROM keying WHERE batch = ?1 ORDER BY batch, round, clerk, paper",
        (Table::Keying, 2) =>
            "SELECT batch, round, clerk, paper, marks FROM keying WHERE batch = ?1 AND round = ?2 ORDER BY batch, round, clerk, paper",
        (Table::Keying, 3) =>
            "SELECT batch, round, clerk, paper, marks FROM keying WHERE batch = ?1 AND round = ?2 AND clerk = ?3 ORDER BY batch, round, clerk, paper",
        (Table::Keying, 4) =>
            "SELECT batch, round, clerk, paper, marks FROM keying WHERE batch = ?1 AND round = ?2 AND clerk = ?3 AND paper = ?4 ORDER BY batch, round, clerk, paper",
        (Table::Verdict, 0) =>
            "SELECT batch, paper, code, marks FROM verdict ORDER BY batch, paper",
        (Table::Verdict, 1) =>
            "SELECT batch, paper, code, marks FROM verdict WHERE batch = ?1 ORDER BY batch, paper",
        (Table::Verdict, 2) =>
            "SELECT batch, paper, code, marks FROM verdict WHERE batch = ?1 AND paper = ?2 ORDER BY batch, paper",
        (Table::Lot, 0) => "SELECT ward, stage, candidate FROM lot ORDER BY ward, stage",
        (Table::Lot, 1) =>
            "SELECT ward, stage, candidate FROM lot WHERE ward = ?1 ORDER BY ward, stage",
        (Table::Lot, 2) =>
            "SELECT ward, stage, candidate FROM lot WHERE ward = ?1 AND stage = ?2 ORDER BY ward, stage",
        (Table::Receipt, 0) => "SELECT actor, id, subject, reply FROM receipt ORDER BY actor, id",
        (Table::Receipt, 1) =>
            "SELECT actor, id, subject, reply FROM receipt WHERE actor = ?1 ORDER BY actor, id",
        (Table::Receipt, 2) =>
            "SELECT actor, id, subject, reply FROM receipt WHERE actor = ?1 AND id = ?2 ORDER BY actor, id",
        (Table::Bundle, 0) =>
            "SELECT ward, prefs, papers, holder, value FROM bundle ORDER BY ward, prefs",
        (Table::Bundle, 1) =>
            "SELECT ward, prefs, papers, holder, value FROM bundle WHERE ward = ?1 ORDER BY ward, prefs",
        (Table::Bundle, 2) =>
            "SELECT ward, prefs, papers, holder, value FROM bundle WHERE ward = ?1 AND prefs = ?2 ORDER BY ward, prefs",
        (Table::Vote, 0) =>
            "SELECT ward, stage, candidate, units, mark FROM vote ORDER BY ward, stage, candidate",
        (Table::Vote, 1) =>
            "SELECT ward, stage, candidate, units, mark FROM vote WHERE ward = ?1 ORDER BY ward, stage, candidate",
        (Table::Vote, 2) =>
            "SELECT ward, stage, candidate, units, mark FROM vote WHERE ward = ?1 AND stage = ?2 ORDER BY ward, stage, candidate",
        (Table::Vote, 3) =>
            "SELECT ward, stage, candidate, units, mark FROM vote WHERE ward = ?1 AND stage = ?2 AND candidate = ?3 ORDER BY ward, stage, candidate",
        (Table::Third, 0) => "SELECT batch, clerk FROM third ORDER BY batch",
        (Table::Third, 1) => "SELECT batch, clerk FROM third WHERE batch = ?1 ORDER BY batch",
        _ => unreachable!(),
    }
}

#[tactic(auto, unfolding(crate::specs::Texts::scan_text))]
/// Returns the text that selects all columns of all rows, in any order.
pub(crate) fn scan_text(table: Table) -> &'static str
    ensures { result.now ≡ scan_text table }
{
    match table {
        Table::Office => "SELECT one, version FROM office",
        Table::Ward => "SELECT ward, seats, phase, done, name FROM ward",
        Table::Candidate => "SELECT ward, candidate, name FROM candidate",
        Table::Batch => "SELECT batch, ward, size, clerk_a, clerk_b, round FROM batch",
        Table::Keying => "SELECT batch, round, clerk, paper, marks FROM keying",
        Table::Verdict => "SELECT batch, paper, code, marks FROM verdict",
        Table::Lot => "SELECT ward, stage, candidate FROM lot",
        Table::Receipt => "SELECT actor, id, subject, reply FROM receipt",
        Table::Bundle => "SELECT ward, prefs, papers, holder, value FROM bundle",
        Table::Vote => "SELECT ward, stage, candidate, units, mark FROM vote",
        Table::Third => "SELECT batch, clerk FROM third",
    }
}

#[tactic(auto, unfolding(crate::specs::Texts::select_by_reference_text))]
/// Returns the text that selects all columns of the rows with a given value in a column outside the key, in key order.
pub fn select_by_reference_text(reference: Reference) -> &'static str
    ensures { result.now ≡ select_by_reference_text reference }
{
    match reference {
        Reference::WardOfBatch =>
            "SELECT batch, ward, size, clerk_a, clerk_b, round FROM batch WHERE ward = ?1 ORDER BY batch",
    }
}

#[tactic(auto, unfolding(crate::specs::Texts::select_rowids_text))]
/// Returns the text that selects the rowids, in order, of a table whose rows change.
pub fn select_rowids_text(table: Table) -> &'static str
    requires { changes_rows table ≡ true }
    ensures { result.now ≡ select_rowids_text table }
{
    match table {
        Table::Office => "SELECT rowid FROM office ORDER BY rowid",
        Table::Ward => "SELECT rowid FROM ward ORDER BY rowid",
        Table::Candidate => "SELECT rowid FROM candidate ORDER BY rowid",
        Table::Batch => "SELECT rowid FROM batch ORDER BY rowid",
        Table::Bundle => "SELECT rowid FROM bundle ORDER BY rowid",
        _ => unreachable!(),
    }
}

#[tactic(auto, unfolding(crate::specs::Texts::select_rowid_text))]
/// Returns the text that selects the rowid of the row with a given key; its parameters are the key's values.
pub fn select_rowid_text(table: Table) -> &'static str
    ensures { result.now ≡ select_rowid_text table }
{
    match table {
        Table::Office => "SELECT rowid FROM office WHERE one = ?1",
        Table::Ward => "SELECT rowid FROM ward WHERE ward = ?1",
        Table::Candidate => "SELECT rowid FROM candidate WHERE ward = ?1 AND candidate = ?2",
        Table::Batch => "SELECT rowid FROM batch WHERE batch = ?1",
        Table::Keying =>
            "SELECT rowid FROM keying WHERE batch = ?1 AND round = ?2 AND clerk = ?3 AND paper = ?4",
        Table::Verdict => "SELECT rowid FROM verdict WHERE batch = ?1 AND paper = ?2",
        Table::Lot => "SELECT rowid FROM lot WHERE ward = ?1 AND stage = ?2",
        Table::Receipt => "SELECT rowid FROM receipt WHERE actor = ?1 AND id = ?2",
        Table::Bundle => "SELECT rowid FROM bundle WHERE ward = ?1 AND prefs = ?2",
        Table::Vote => "SELECT rowid FROM vote WHERE ward = ?1 AND stage = ?2 AND candidate = ?3",
        Table::Third => "SELECT rowid FROM third WHERE batch = ?1",
    }
}

#[tactic(auto, unfolding(crate::specs::Texts::select_between_text))]
/// Returns the text that selects all columns of the rows whose rowids are between the two parameters, both included, in any
/// order.
pub fn select_between_text(table: Table) -> &'static str
    ensures { result.now ≡ select_between_text table }
{
    match table {
        Table::Office => "SELECT one, version FROM office WHERE rowid >= ?1 AND rowid <= ?2",
        Table::Ward =>
            "SELECT ward, seats, phase, done, name FROM ward WHERE rowid >= ?1 AND rowid <= ?2",
        Table::Candidate =>
            "SELECT ward, candidate, name FROM candidate WHERE rowid >= ?1 AND rowid <= ?2",
        Table::Batch =>
            "SELECT batch, ward, size, clerk_a, clerk_b, round FROM batch WHERE rowid >= ?1 AND rowid <= ?2",
        Table::Keying =>
            "SELECT batch, round, clerk, paper, marks FROM keying WHERE rowid >= ?1 AND rowid <= ?2",
        Table::Verdict =>
            "SELECT batch, paper, code, marks FROM verdict WHERE rowid >= ?1 AND rowid <= ?2",
        Table::Lot => "SELECT ward, stage, candidate FROM lot WHERE rowid >= ?1 AND rowid <= ?2",
        Table::Receipt =>
            "SELECT actor, id, subject, reply FROM receipt WHERE rowid >= ?1 AND rowid <= ?2",
        Table::Bundle =>
            "SELECT ward, prefs, papers, holder, value FROM bundle WHERE rowid >= ?1 AND rowid <= ?2",
        Table::Vote =>
            "SELECT ward, stage, candidate, units, mark FROM vote WHERE rowid >= ?1 AND rowid <= ?2",
        Table::Third => "SELECT batch, clerk FROM third WHERE rowid >= ?1 AND rowid <= ?2",
    }
}

#[tactic(auto, unfolding(crate::specs::Texts::update_text))]
/// Returns the text that replaces the row with a given key, with the values of all columns as its parameters.
pub fn update_text(table: Table) -> &'static str
    requires { changes_rows table ≡ true }
    ensures { result.now ≡ update_text table }
{
    match table {
        Table::Office => "UPDATE office SET version = ?2 WHERE one = ?1",
        Table::Ward =>
            "UPDATE ward SET seats = ?2, phase = ?3, done = ?4, name = ?5 WHERE ward = ?1",
        Table::Candidate => "UPDATE candidate SET name = ?3 WHERE ward = ?1 AND candidate = ?2",
        Table::Batch =>
            "UPDATE batch SET ward = ?2, size = ?3, clerk_a = ?4, clerk_b = ?5, round = ?6 WHERE batch = ?1",
        Table::Bundle =>
            "UPDATE bundle SET papers = ?3, holder = ?4, value = ?5 WHERE ward = ?1 AND prefs = ?2",
        _ => unreachable!(),
    }
}

#[tactic(auto, unfolding(crate::specs::Texts::set_text))]
/// Returns the text that sets one column of the row with a given key; its parameters are the key's values and the new
/// value.
pub fn set_text(setting: SettableColumn) -> &'static str
    ensures { result.now ≡ set_text setting }
{
    match setting {
        SettableColumn::VersionOfOffice => "UPDATE office SET version = ?2 WHERE one = ?1",
        SettableColumn::PhaseOfWard => "UPDATE ward SET phase = ?2 WHERE ward = ?1",
        SettableColumn::DoneOfWard => "UPDATE ward SET done = ?2 WHERE ward = ?1",
        SettableColumn::RoundOfBatch => "UPDATE batch SET round = ?2 WHERE batch = ?1",
    }
}

#[tactic(auto, unfolding(crate::specs::Texts::delete_text))]
/// Returns the text that removes the row with a given key; its parameters are the key's values.
pub fn delete_text(table: Table) -> &'static str
    requires { changes_rows table ≡ true }
    ensures { result.now ≡ delete_text table }
{
    match table {
        Table::Office => "DELETE FROM office WHERE one = ?1",
        Table::Ward => "DELETE FROM ward WHERE ward = ?1",
        Table::Candidate => "DELETE FROM candidate WHERE ward = ?1 AND candidate = ?2",
        Table::Batch => "DELETE FROM batch WHERE batch = ?1",
        Table::Bundle => "DELETE FROM bundle WHERE ward = ?1 AND prefs = ?2",
        _ => unreachable!(),
    }
}
