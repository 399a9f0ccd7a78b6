//! The figures for the stages of counts, as the rows of their table.

ghost use Rattle.std.specs.Prelude.{refl};
ghost use Rattle.register.specs.Tabulated.{figure_entry};
ghost use Rattle.tables.specs.declared.table.Table.TheVariants.{Vote as VoteTable};
ghost use Rattle.store.specs.EntryRows.{IsFigureRow, row_of_figure};

use crate::entries::units;
use register::StageFigure;
use sqlite::Row;
use sqlite_value::value::ValueRef;
use std::alloc::Global;
use tables::value_conversion::{amount_at, number, number_at, row_values};
use tables::{Entries, Fault, Table};

/// The figures, ordered by ward, stage and candidate.
pub(crate) struct StageFigures;

impl Entries for StageFigures {
    type Entry = StageFigure;

    ghost row_of = { λ f. row_of_figure (figure_entry f) };

    ghost is_row = { IsFigureRow };

    ghost TABLE = { VoteTable };

    const TABLE: Table = Table::Vote;

    fn values<'a>(figure: &'a StageFigure, alloc: Global) -> Result<Vec<ValueRef<'a>>, Fault> {
        let numbers = [figure.ward, figure.stage, figure.candidate];
        row_values(
            alloc,
            &numbers,
            &[units(figure.units)?, number(figure.mark)],
        )
    }

    fn read(row: &Row) -> Result<StageFigure, Fault> {
        Ok(StageFigure {
            ward: number_at(row, 0)?,
            stage: number_at(row, 1)?,
            candidate: number_at(row, 2)?,
            units: amount_at(row, 3)?,
            mark: number_at(row, 4)?,
        })
    }

    ghost typed = { λ f. refl };
}
