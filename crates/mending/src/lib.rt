//! The orders that an office accepted, with some left out and others replaced.
//!
//! [`Changes`] says which ones, and [`flaw_in`] returns why the changes can't be made. [`mend`] sends the resulting orders to an empty
//! office. An order that is refused there, because it depended on an order that is gone, is left out too. So is each stage, lot and
//! declaration of a ward if an earlier order on that ward was left out or replaced: a lot that was drawn for other papers isn't a lot
//! of this count. The text of [`Mended`] names each order that was left out, with the reason, and each that was replaced. Every other
//! order is kept.
//!
//! ```text
//! match flaw_in(alloc, changes)? {
//!     Some(flaw) => ..,                                   // flaw.text(alloc) says why
//!     None => mend(alloc, &mut empty, changes)?,          // what was kept, replaced and left out; `empty` is a Recipient
//! }
//! ```
#![tactic(auto)]

// the name and the subject of an order, and the ward or batch that it is about
pub mod names;
mod places;
// the changes, and why they can't be made
pub mod changes;
mod checking;
// the orders in turn, the office that they are sent to, and what is printed about them
pub mod mended;
pub mod recipients;
pub mod reports;

pub use changes::{Changes, Flaw};
pub use checking::flaw_in;
pub use mended::{Mended, mend};
pub use names::subject_of;
pub use recipients::{MendFault, Recipient, Sent};
