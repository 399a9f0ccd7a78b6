//! The law of the surpluses on a ward's page: the papers that it names are those of the count.
//!
//! `sheet` defines what a page names, and `count` what a count is; here the two definitions are compared. The law,
//! [`surpluses_are_of_the_count`], is all there is to call, and no program depends on this crate.
#![tactic(auto)]

mod laws;

pub use laws::surpluses_are_of_the_count;
