//! Wards, as the rows of their table.

ghost use Rattle.std.specs.Prelude.{◌≡◌, ◌⊎◌, pos, IfOk, IfErr, refl};
ghost use Rattle.sqlite.specs.Order.{column};
ghost use Rattle.sqlite.specs.declared.types.Value.TheVariants.{Int};
ghost use Rattle.register.specs.Phases.{phase_number};
ghost use Rattle.register.specs.Offices.{ward_entry};
ghost use Rattle.tables.specs.declared.table.Table.TheVariants.{Ward as WardTable};
ghost use Rattle.store.specs.EntryRows.{IsPhase, IsWardRow, row_of_ward};

use register::{Phase, Ward};
use sqlite::Row;
use sqlite_value::value::ValueRef;
use std::alloc::Global;
use tables::value_conversion::{number_at, row_values, text, text_at};
use tables::{Entries, Fault, Table};

/// Reads the phase in a column; returns `Damaged` if the value isn't a phase.
fn phase_at(row: &Row, place: usize) -> Result<Phase, Fault>
    ensures phase { IfOk result (λ phase. column row.now place ≡ Int (pos (phase_number phase))) }
    ensures cause { IfErr result (λ f. (f ≡ Fault.Memory) ⊎ ((f ≡ Fault.Damaged) × ¬ IsPhase (column row.now place))) }
{
    let n = number_at(row, place)?;
    match Phase::from_number(n) {
        Some(phase) => Ok(phase),
        None => Err(Fault::Damaged),
    }
}

/// The wards, ordered by number.
pub(crate) struct Wards;

impl Entries for Wards {
    type Entry = Ward;

    ghost row_of = { λ w. row_of_ward (ward_entry w) };

    ghost is_row = { IsWardRow };

    ghost TABLE = { WardTable };

    const TABLE: Table = Table::Ward;

    fn values<'a>(ward: &'a Ward, alloc: Global) -> Result<Vec<ValueRef<'a>>, Fault> {
        let numbers = [ward.number, ward.seats, ward.phase.number(), ward.done];
        row_values(alloc, &numbers, &[text(ward.name.as_str())])
    }

    fn read(row: &Row) -> Result<Ward, Fault> {
        Ok(Ward {
            number: number_at(row, 0)?,
            seats: number_at(row, 1)?,
            phase: phase_at(row, 2)?,
            done: number_at(row, 3)?,
            name: text_at(row, 4)?,
        })
    }

    ghost typed = { λ w. refl };
}
