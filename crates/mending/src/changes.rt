//! The changes to the orders of an office.

use register::Request;

/// The orders of an office, the names of those to leave out, and the orders that replace others. An order replaces the one with the
/// same actor and subject.
#[derive(Clone, Copy)]
pub struct Changes<'a> {
    pub orders: &'a [Request],
    /// Each name is an order's id, preceded by the clerk's number and a colon if a clerk sent the order.
    pub without: &'a [String],
    pub instead: &'a [Request],
}

/// The reason why the changes can't be made.
#[derive(Drop)]
pub enum Flaw {
    /// No order has this name.
    NoSuchOrder(String),
    /// This many orders, rather than exactly one, could be replaced by the order with this subject.
    NotOne(usize, String),
    /// This many orders are to replace the single order with this subject.
    Several(usize, String),
}
