//! Tests of stores that only code in the same process can create: stores, outputs and clients that fail, and calls that
//! no order makes. (Refusals, replies, words, overviews, and rows that no office has are covered by
//! examples/transcripts.sh.)
//!
//! A crate's tests are proved together with the whole crate. These tests load only the statements of `desk`, so the
//! program isn't proved a second time.
#![tactic(auto)]

// The steps of a test on any store, and their output.
#[cfg(test)]
mod steps;
// Typed and printed lines, as text.
#[cfg(test)]
mod transcripts;
// An office on any kind of host.
#[cfg(test)]
mod test_host;
// The only store in these tests.
#[cfg(test)]
mod disks;
// Clients over HTTP.
#[cfg(test)]
mod clients;
// Offices from which tests start.
#[cfg(test)]
mod begun;
// The tests.
#[cfg(test)]
mod copies;
#[cfg(test)]
mod http;
#[cfg(test)]
mod lists;
#[cfg(test)]
mod loads;
#[cfg(test)]
mod noise;
#[cfg(test)]
mod older;
#[cfg(test)]
mod orders;
#[cfg(test)]
mod outputs;
#[cfg(test)]
mod ports;
#[cfg(test)]
mod progress;
#[cfg(test)]
mod replays;
#[cfg(test)]
mod stops;
