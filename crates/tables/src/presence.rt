//! Which tables of an office a database has, by name.

ghost use Rattle.std.specs.Prelude.{◌≡◌, ◌≤◌};
ghost use Rattle.std.specs.List.{list_any, list_all};
ghost use Rattle.sqlite.specs.State.{IsLive};
ghost use Rattle.sqlite.specs.Held.{state};
ghost use Rattle.sqlite.specs.Schema.{Schema};
ghost use Rattle.sqlite_schema.specs.Names.{same_name};
ghost use Rattle.tables.specs.Presence.{has_table, has_some_table, has_every_table, has_first, tables_present};

use crate::table::Table;
use sqlite::{Alter, Connection};
use sqlite_schema::names::same_name;
use sqlite_schema::schema::Schema;

/// The tables of an office that a database has. A database that lacks the last ones was created by an older program.
#[derive(Clone, Copy, PartialEq, Eq)]
pub enum TablesPresent {
    /// All tables.
    Whole,
    /// All except the table of third clerks.
    WithoutThird,
    /// Like `WithoutThird`, but also without the two tables from which a count resumes.
    WithoutCounts,
    /// Any others, or none.
    Other,
}

/// The number of tables that an office had before there was one for third clerks.
const BEFORE_THIRD: usize = 10;

/// The number of tables that an office had before there were the two from which a count resumes.
const BEFORE_COUNTS: usize = 8;

/// Returns whether there is a table with the given table's name, ignoring the case of ASCII letters.
fn is_named(schema: &Schema, table: Table) -> bool
    ensures { result ≡ has_table table schema.now }
{
    let name = table.name().as_bytes();
    schema
        .tables
        .as_slice()
        .iter()
        .any(|other| same_name(other.name.as_slice(), name))
}

/// Returns whether any of the given tables exists, by name.
fn has_any(schema: &Schema, tables: &[Table]) -> bool
    ensures { result ≡ list_any (λ t. has_table t schema.now) tables.now }
{
    tables.iter().any(|table| is_named(schema, *table))
}

/// Returns whether each of the given tables exists, by name.
fn has_all(schema: &Schema, tables: &[Table]) -> bool
    ensures { result ≡ list_all (λ t. has_table t schema.now) tables.now }
{
    tables.iter().all(|table| is_named(schema, *table))
}

/// Returns whether the database has a table with the given table's name.
pub fn has_table<S: Alter>(conn: &Connection<S>, table: Table) -> bool
    ensures value { result ≡ has_table table (state S.Store conn.now).now.schema }
    ensures live { IsLive (state S.Store conn.now) }
{
    is_named(conn.schema(), table)
}

/// Returns whether the database has a table with the name of any of an office's tables.
pub fn has_some_table<S: Alter>(conn: &Connection<S>) -> bool
    ensures value { result ≡ has_some_table (state S.Store conn.now).now.schema }
    ensures live { IsLive (state S.Store conn.now) }
{
    has_any(conn.schema(), &Table::ALL)
}

/// Returns whether the database has a table with the name of each of an office's tables.
pub fn has_every_table<S: Alter>(conn: &Connection<S>) -> bool
    ensures value { result ≡ has_every_table (state S.Store conn.now).now.schema }
    ensures live { IsLive (state S.Store conn.now) }
{
    has_all(conn.schema(), &Table::ALL)
}

/// Returns whether the first `count` tables of an office exist, by name, and none of the others.
fn has_first(schema: &Schema, count: usize) -> bool
    requires { count ≤ 11 }
    ensures { result ≡ has_first count schema.now }
{
    let (first, others) = Table::ALL.split_at(count);
    let all = has_all(schema, first);
    let any = has_any(schema, others);
    all & !any
}

/// Returns which tables of an office the database has, by name.
pub fn tables_present<S: Alter>(conn: &Connection<S>) -> TablesPresent
    ensures value { result ≡ tables_present (state S.Store conn.now).now.schema }
    ensures live { IsLive (state S.Store conn.now) }
{
    let schema = conn.schema();
    if has_every_table(conn) {
        TablesPresent::Whole
    } else if has_first(schema, BEFORE_THIRD) {
        TablesPresent::WithoutThird
    } else if has_first(schema, BEFORE_COUNTS) {
        TablesPresent::WithoutCounts
    } else {
        TablesPresent::Other
    }
}
