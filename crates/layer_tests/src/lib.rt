//! Tests of the layers from `votes` to `wire`, each through its public functions. `register` and `rowcheck` are tested
//! by the orders in examples/transcripts.sh: each command and each of its refusals.
//!
//! A crate's tests are proved together with the whole crate. Here, in a crate above all the layers, tests load only the
//! layers' statements, so the layers aren't proved a second time.
#![tactic(auto)]

#[cfg(test)]
mod ballot_counts;
#[cfg(test)]
mod checker_failures;
#[cfg(test)]
mod checker_texts;
#[cfg(test)]
mod codes_and_wire;
#[cfg(test)]
mod console_targets;
#[cfg(test)]
mod count_elections;
#[cfg(test)]
mod folder_checks;
#[cfg(test)]
mod keyfile_imports;
#[cfg(test)]
mod paper_marks;
#[cfg(test)]
mod public_targets;
#[cfg(test)]
mod publication_folders;
#[cfg(test)]
mod sheet_ballots;
#[cfg(test)]
mod sheet_outputs;
#[cfg(test)]
mod sheet_pages;
#[cfg(test)]
mod sheet_spreadsheets;
#[cfg(test)]
mod sheet_texts;
#[cfg(test)]
mod streams_and_votes;
#[cfg(test)]
mod wire_origins;
#[cfg(test)]
mod wire_requests;
