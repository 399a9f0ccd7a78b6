//! The stage sheet.

ghost use Rattle.std.specs.Prelude.{◌-◌, ◌^◌, ◌<◌};
ghost use Rattle.sheet.specs.Entries.{shown};
ghost use Rattle.sheet.specs.Sheet.{stages_text, below_ward, sheet};
ghost use Rattle.sheet.specs.Wards.{CanBePrinted};
ghost use Rattle.sheet.specs.Writing.{Writes};

use crate::heading_lines::{
    write_rejected_line, write_seats_line, write_uncontested_line, write_ward_line,
};
use crate::stage::write_stage;
use crate::ward::Ward;
use count::Stage;
use streams::{Broken, Sink};

/// Writes all stages.
fn write_stages<W: Sink>(sink: &mut W, ward: &Ward, stages: &[Stage]) -> Result<(), Broken>
    requires { W.failed sink.old < 2 ^ 64 - 1 }
    ensures { Writes W.taken W.failed sink.old sink.new (stages_text (shown ward.now) stages.now) result }
{
    for k in 0..stages.len() {
        write_stage(sink, ward, &stages[..k], &stages[k])?;
    }
    Ok(())
}

/// Writes everything after the line with the ward.
fn write_below_ward<W: Sink>(sink: &mut W, ward: &Ward, stages: &[Stage]) -> Result<(), Broken>
    requires ward { CanBePrinted ward.now }
    requires failures { W.failed sink.old < 2 ^ 64 - 1 }
    ensures { Writes W.taken W.failed sink.old sink.new (below_ward (shown ward.now) ward.now.poll stages.now) result }
{
    let Some(poll) = ward.poll else {
        return write_uncontested_line(sink, ward.seats);
    };
    write_seats_line(sink, ward.seats, poll.valid)?;
    write_rejected_line(sink, &poll.rejected)?;
    write_stages(sink, ward, stages)
}

/// Writes the stage sheet of a ward: its number and name, its seats and papers, and each stage with one line per candidate. For an
/// uncontested ward, the stages aren't read.
///
/// Allocates nothing. `Broken` only if the sink fails; it has then accepted a prefix of the sheet, and its failure count is one
/// higher.
pub fn write_sheet<W: Sink>(sink: &mut W, ward: &Ward, stages: &[Stage]) -> Result<(), Broken>
    requires ward { CanBePrinted ward.now }
    requires failures { W.failed sink.old < 2 ^ 64 - 1 }
    ensures { Writes W.taken W.failed sink.old sink.new (sheet (shown ward.now) stages.now) result }
{
    write_ward_line(sink, ward)?;
    write_below_ward(sink, ward, stages)
}
