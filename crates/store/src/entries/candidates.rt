//! Candidates, as the rows of their table.

ghost use Rattle.std.specs.Prelude.{refl};
ghost use Rattle.register.specs.Offices.{candidate_entry};
ghost use Rattle.tables.specs.declared.table.Table.TheVariants.{Candidate as CandidateTable};
ghost use Rattle.store.specs.EntryRows.{IsCandidateRow, row_of_candidate};

use register::Candidate;
use sqlite::Row;
use sqlite_value::value::ValueRef;
use std::alloc::Global;
use tables::value_conversion::{number_at, row_values, text, text_at};
use tables::{Entries, Fault, Table};

/// The candidates, ordered by ward and number.
pub(crate) struct Candidates;

impl Entries for Candidates {
    type Entry = Candidate;

    ghost row_of = { λ c. row_of_candidate (candidate_entry c) };

    ghost is_row = { IsCandidateRow };

    ghost TABLE = { CandidateTable };

    const TABLE: Table = Table::Candidate;

    fn values<'a>(candidate: &'a Candidate, alloc: Global) -> Result<Vec<ValueRef<'a>>, Fault> {
        let numbers = [candidate.ward, candidate.number];
        row_values(alloc, &numbers, &[text(candidate.name.as_str())])
    }

    fn read(row: &Row) -> Result<Candidate, Fault> {
        Ok(Candidate {
            ward: number_at(row, 0)?,
            number: number_at(row, 1)?,
            name: text_at(row, 2)?,
        })
    }

    ghost typed = { λ c. refl };
}
