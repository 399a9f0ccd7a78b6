//! Byte streams that count failed calls.
//!
//! A [`Sink`] accepts bytes, and a [`Source`] supplies them. [`Counted`] turns a standard-library writer into
//! a sink, or a reader into a source.
//!
//! ```text
//! let mut sink = Counted::new(&mut page);
//! put_all(&mut sink, b"Ward 7")?;
//! ```
#![tactic(auto)]

// sinks and sources of bytes
mod streams;
// streams from the standard library
mod counted;

pub use counted::Counted;
pub use streams::{Broken, Sink, Source, put_all};
