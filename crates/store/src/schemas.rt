//! Checks whether a database has exactly the tables of an office.
//!
//! When an office is opened, only the names of tables are compared; opening assumes that the tables with our names are
//! ours. This module checks it: an office is created in memory, and the schema of the database is compared with its
//! schema, definition by definition. A database that also has other tables isn't recognised.

ghost use Rattle.std.specs.Prelude.{◌≡◌, true, IfOk, IsTrue};
ghost use Rattle.sqlite.specs.Held.{state};
ghost use Rattle.sqlite.specs.Steps.{over_memory};
ghost use Rattle.tables.specs.Schema.{IsOfficeSchema};
ghost use Rattle.tables.specs.Contents.{RestsAt};

use crate::storage::Store;
use sqlite::{Alter, Connection};
use sqlite_items::Items;
use sqlite_schema::code::{Op, Terms};
use sqlite_schema::schema::{Column, Index, Schema, Stamps, Table};
use sqlite_trees::memory::MemStore;
use sqlite_value::keys::Order;
use sqlite_value::value::{Bytes, Value};
use std::alloc::Global;
use tables::Fault;

/// A part of a schema that can be compared with another.
trait Alike {
    /// Returns true only if `self` is the same as `other`; false doesn't mean that they differ.
    fn is_same(&self, other: &Self) -> bool
        ensures { result ≡ true → self.now ≡ other.now };
}

/// Returns true only if two lists are the same.
fn all_same<T: Alike>(one: &[T], other: &[T]) -> bool
    ensures { result ≡ true → one.now ≡ other.now }
{
    if one.len() != other.len() {
        return false;
    }
    for at in 0..one.len() {
        if !one[at].is_same(&other[at]) {
            return false;
        }
    }
    true
}

impl Alike for usize {
    fn is_same(&self, other: &usize) -> bool
        ensures { result ≡ true → self.now ≡ other.now }
    {
        *self == *other
    }
}

impl Alike for u8 {
    fn is_same(&self, other: &u8) -> bool
        ensures { result ≡ true → self.now ≡ other.now }
    {
        *self == *other
    }
}

impl Alike for Order {
    fn is_same(&self, other: &Order) -> bool
        ensures { result ≡ true → self.now ≡ other.now }
    {
        self.digits == other.digits
    }
}

impl Alike for Bytes {
    fn is_same(&self, other: &Bytes) -> bool
        ensures { result ≡ true → self.now ≡ other.now }
    {
        all_same(self.as_slice(), other.as_slice())
    }
}

impl<T: Alike> Alike for Items<T> {
    fn is_same(&self, other: &Items<T>) -> bool
        ensures { result ≡ true → self.now ≡ other.now }
    {
        all_same(self.as_slice(), other.as_slice())
    }
}

impl Alike for Value {
    fn is_same(&self, other: &Value) -> bool
        ensures { result ≡ true → self.now ≡ other.now }
    {
        match (self, other) {
            (Value::Null, Value::Null) => true,
            (Value::Int(one), Value::Int(other)) => *one == *other,
            (Value::Text(one), Value::Text(other)) => one.is_same(other),
            _ => false,
        }
    }
}

impl Alike for Op {
    fn is_same(&self, other: &Op) -> bool
        ensures { result ≡ true → self.now ≡ other.now }
    {
        match (self, other) {
            (Op::Literal(one), Op::Literal(other)) => one.is_same(other),
            (Op::Column(slot, at), Op::Column(other, place)) => (*slot == *other) & (*at == *place),
            (Op::Unary(op, a), Op::Unary(other, b)) => (*op == *other) & (*a == *b),
            (Op::Binary(op, a, b), Op::Binary(other, c, d)) => {
                (*op == *other) & ((*a == *c) & (*b == *d))
            }
            _ => false,
        }
    }
}

impl Alike for Terms {
    fn is_same(&self, other: &Terms) -> bool
        ensures { result ≡ true → self.now ≡ other.now }
    {
        self.nodes.is_same(&other.nodes) & self.roots.is_same(&other.roots)
    }
}

impl Alike for Column {
    fn is_same(&self, other: &Column) -> bool
        ensures { result ≡ true → self.now ≡ other.now }
    {
        self.name.is_same(&other.name)
            && self.kind == other.kind
            && self.is_strict == other.is_strict
            && self.not_null == other.not_null
            && self.default.is_same(&other.default)
            && self.collation == other.collation
    }
}

impl Alike for Stamps {
    fn is_same(&self, other: &Stamps) -> bool
        ensures { result ≡ true → self.now ≡ other.now }
    {
        self.places.is_same(&other.places)
            && self.terms.is_same(&other.terms)
            && self.formats.is_same(&other.formats)
    }
}

/// Returns true only if two tables have the same name, tree and key.
fn same_names(one: &Table, other: &Table) -> bool
    ensures { result ≡ true → (one.now.name ≡ other.now.name) × (one.now.tree ≡ other.now.tree) × (one.now.key ≡ other.now.key) × (one.now.is_counted ≡ other.now.is_counted) }
{
    one.name.is_same(&other.name)
        && one.tree == other.tree
        && one.key == other.key
        && one.is_counted == other.is_counted
}

/// Returns true only if two tables have the same columns, with the same ones unique in both.
fn same_columns(one: &Table, other: &Table) -> bool
    ensures { result ≡ true → (one.now.columns ≡ other.now.columns) × (one.now.primary ≡ other.now.primary) × (one.now.uniques ≡ other.now.uniques) × (one.now.orders ≡ other.now.orders) }
{
    one.columns.is_same(&other.columns)
        && one.primary.is_same(&other.primary)
        && one.uniques.is_same(&other.uniques)
        && one.orders.is_same(&other.orders)
}

/// Returns true only if two tables have the same rules, and neither refers to another table.
fn same_rules(one: &Table, other: &Table) -> bool
    ensures { result ≡ true → (one.now.checks ≡ other.now.checks) × (one.now.references ≡ other.now.references) × (one.now.computed ≡ other.now.computed) × (one.now.stamps ≡ other.now.stamps) }
{
    one.checks.is_same(&other.checks)
        && one.references.is_empty()
        && other.references.is_empty()
        && one.computed.is_same(&other.computed)
        && one.stamps.is_same(&other.stamps)
}

impl Alike for Table {
    fn is_same(&self, other: &Table) -> bool
        ensures { result ≡ true → self.now ≡ other.now }
    {
        if !same_names(self, other) {
            return false;
        }
        if !same_columns(self, other) {
            return false;
        }
        same_rules(self, other)
    }
}

impl Alike for Index {
    fn is_same(&self, other: &Index) -> bool
        ensures { result ≡ true → self.now ≡ other.now }
    {
        self.name.is_same(&other.name)
            && self.tree == other.tree
            && self.table == other.table
            && self.columns.is_same(&other.columns)
            && self.order.is_same(&other.order)
            && self.is_unique == other.is_unique
    }
}

impl Alike for Schema {
    fn is_same(&self, other: &Schema) -> bool
        ensures { result ≡ true → self.now ≡ other.now }
    {
        self.tables.is_same(&other.tables)
            && self.indexes.is_same(&other.indexes)
            && self.views.is_empty()
            && other.views.is_empty()
    }
}

/// Creates an empty office in memory.
fn new_office(alloc: Global) -> Result<Connection<MemStore>, Fault>
    ensures { IfOk result (λ conn. IsOfficeSchema (state over_memory conn).now.schema) }
{
    let Ok(conn) = Connection::open_in_memory(alloc) else {
        return Err(Fault::Memory);
    };
    match Store::create(alloc, conn) {
        Ok(store) => Ok(store.into_connection()),
        Err((fault, _)) => Err(fault),
    }
}

/// Returns true only if a database has the tables of an office and no others; false if an allocation fails.
fn has_office_schema<S: Alter>(alloc: Global, conn: &Connection<S>) -> bool
    ensures { result ≡ true → IsOfficeSchema (state S.Store conn.now).now.schema }
{
    match new_office(alloc) {
        Ok(office) => conn.schema().is_same(office.schema()),
        Err(_) => false,
    }
}

/// Returns whether a connection is outside a transaction and its database has the tables of an office and no others.
pub(crate) fn may_be_remembered<S: Alter>(alloc: Global, conn: &Connection<S>) -> bool
    ensures schema { result ≡ true → IsOfficeSchema (state S.Store conn.now).now.schema }
    ensures rests { result ≡ true → IsTrue (state S.Store conn.now).is_open → RestsAt (state S.Store conn.now).now (state S.Store conn.now) }
{
    if !conn.is_autocommit() {
        return false;
    }
    has_office_schema(alloc, conn)
}

impl<S: Alter> Store<S> {
    /// Does nothing; it is a lemma for callers. A store whose connection is open rests at its database.
    pub(crate) fn open_store_rests(&self)
        ensures { IsTrue (state S.Store self.now).is_open → RestsAt (state S.Store self.now).now (state S.Store self.now) }
    {
        let _ = self.conn.is_autocommit();
    }
}
