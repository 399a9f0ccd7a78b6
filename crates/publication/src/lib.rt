//! The folder in which an election is published: pages that any browser shows, files that other programs load, and the digests by
//! which anyone can tell whether a file was changed.
//!
//! A [`PublishedElection`] holds what is published: the texts of each ward ([`WardTexts`]) and the page of all wards.
//! [`published_files`] returns the files of the folder, each with its name and its text.
//!
//! `specs/Folder.antt` defines the files, `specs/Links.antt` the links between them, and `specs/Sums.antt` the lines of SHA256SUMS.
//!
//! ```text
//! let election = PublishedElection { title: "City council", index: &index, wards: &wards };
//! for file in published_files(alloc, &election)?.iter() { .. }      // index.html, ward-7.html, ward-7-sheet.txt, ..
//! ```
#![tactic(auto)]

mod check_page;
mod election;
mod escaping;
mod fault;
mod files;
mod folder;
mod joining;
mod links;
mod pages;
mod parts;
mod results;
mod sums;

pub use election::{PublishedElection, WardTexts};
pub use fault::PublishFault;
pub use files::PublishedFile;
pub use folder::published_files;
