//! Judged papers, as the rows of their table.

ghost use Rattle.std.specs.Prelude.{refl};
ghost use Rattle.register.specs.Offices.{judged_entry};
ghost use Rattle.tables.specs.declared.table.Table.TheVariants.{Verdict as VerdictTable};
ghost use Rattle.store.specs.EntryRows.{IsJudgedRow, row_of_judged};

use register::JudgedPaper;
use sqlite::Row;
use sqlite_value::value::ValueRef;
use std::alloc::Global;
use tables::value_conversion::{number_at, row_values, text, text_at};
use tables::{Entries, Fault, Table};

/// The judged papers, ordered by batch and paper.
pub(crate) struct JudgedPapers;

impl Entries for JudgedPapers {
    type Entry = JudgedPaper;

    ghost row_of = { λ j. row_of_judged (judged_entry j) };

    ghost is_row = { IsJudgedRow };

    ghost TABLE = { VerdictTable };

    const TABLE: Table = Table::Verdict;

    fn values<'a>(judged: &'a JudgedPaper, alloc: Global) -> Result<Vec<ValueRef<'a>>, Fault> {
        let numbers = [judged.batch, judged.paper, judged.code];
        row_values(alloc, &numbers, &[text(judged.marks.as_str())])
    }

    fn read(row: &Row) -> Result<JudgedPaper, Fault> {
        Ok(JudgedPaper {
            batch: number_at(row, 0)?,
            paper: number_at(row, 1)?,
            code: number_at(row, 2)?,
            marks: text_at(row, 3)?,
        })
    }

    ghost typed = { λ j. refl };
}
