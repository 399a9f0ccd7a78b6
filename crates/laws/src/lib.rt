//! Laws about lists of requests: clerks are blind to one another's work, and a sealed ward doesn't change.
//!
//! `register` defines how a single request changes the state. These laws state what follows for entire lists, no matter who
//! sends the requests. `server` relies on the first law for everything sent over HTTP. Two functions compute what the laws are
//! about: `may_observe`, whether a clerk may observe a request, and `is_past_keying`, whether a ward's papers are final.
#![tactic(auto)]

mod blindness;
mod sealed;

pub use blindness::{clerks_are_blind, may_observe};
pub use sealed::{is_past_keying, sealed_wards_stay};
