//! The origin of pages that reach the office through a proxy in front of it, in the form that browsers send.
//!
//! [`Origin::parse`] parses the word after `serve --origin`; the headers of requests are compared with the result. Nothing in this
//! crate deals with requests.
//!
//! ```text
//! let origin = Origin::parse("https://count.example.org")?;
//! origin.authority()              // count.example.org
//! ```
#![tactic(auto)]

pub mod origin;

pub use origin::{Origin, is_with_port};
