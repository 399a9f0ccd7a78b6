//! What is published of an office at a state: the page of all wards, the texts of each sealed ward, and the files of the folder.
//!
//! These are definitions alone, in `specs/OfficeFolder.antt`: there is nothing to call. `desk` writes these files when it is ordered to
//! publish, and `sheet_round_trip` states that anyone who checks such a folder with its ballots finds it confirmed.
#![tactic(auto)]
