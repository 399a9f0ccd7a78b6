//! The tables of the stages, eight stages per table.

ghost use Rattle.std.specs.Prelude.{◌≡◌, ◌-◌, ◌+◌, ◌^◌, ◌<◌, length, take};
ghost use Rattle.sheet.specs.Entries.{shown};
ghost use Rattle.sheet.specs.Table.{candidate_row, head_row, sum_rows, table, table_at, tables};
ghost use Rattle.sheet.specs.Writing.{Writes};

use crate::cells::{Cell, write_row};
use crate::each_candidate::{OfCandidate, write_each};
use crate::line::Piece;
use crate::ward::Ward;
use count::Stage;
use streams::{Broken, Sink};

/// A block of stages of a ward, starting at a position.
#[derive(Clone, Copy)]
struct Block<'a> {
    ward: &'a Ward<'a>,
    place: usize,
    stages: &'a [Stage],
    ghost within: { place < length stages.now },
}

/// Writes the column heads of a table, with its caption.
fn write_head_row<W: Sink>(sink: &mut W, block: &Block) -> Result<(), Broken>
    requires { W.failed sink.old < 2 ^ 64 - 1 }
    ensures { Writes W.taken W.failed sink.old sink.new (head_row (shown block.now.ward.now) block.now.place block.now.stages.now) result }
{
    let (first, last) = (block.place as u64 + 1, block.stages.len() as u64);
    let opening = [
        Piece::Text("<div class=\"wide\" role=\"region\" tabindex=\"0\" aria-label=\""),
        Piece::Span(first, last),
        Piece::Text("\">\n<table class=\"stages\">\n<caption>"),
        Piece::Span(first, last),
        Piece::Text("</caption>\n<thead>\n<tr><th scope=\"col\">Candidate</th>"),
    ];
    let (cell, end) = (Cell::Head(block.ward), "</tr>\n</thead>\n<tbody>");
    write_row(sink, &opening, &cell, end, block.place, block.stages)
}

/// The row of a candidate.
#[derive(Clone, Copy)]
struct CandidateCells<'a> {
    block: &'a Block<'a>,
}

impl<'a> OfCandidate for CandidateCells<'a> {
    ghost text = { λ r. candidate_row r.block.now.place r.block.now.stages.now };

    fn write<W: Sink>(&self, sink: &mut W, candidate: &(u8, String)) -> Result<(), Broken> {
        let (c, name) = candidate;
        let opening = [
            Piece::Text("<tr><th scope=\"row\">"),
            Piece::Named(*c, name.as_str()),
            Piece::Text("</th>"),
        ];
        let (cell, end) = (Cell::Candidate(*c), "</tr>");
        write_row(
            sink,
            &opening,
            &cell,
            end,
            self.block.place,
            self.block.stages,
        )
    }
}

/// Writes the rows of the running totals, and the end of the table.
fn write_sum_rows<W: Sink>(sink: &mut W, block: &Block) -> Result<(), Broken>
    requires { W.failed sink.old < 2 ^ 64 - 1 }
    ensures { Writes W.taken W.failed sink.old sink.new (sum_rows block.now.place block.now.stages.now) result }
{
    let (place, stages) = (block.place, block.stages);
    let rest = [Piece::Text("<tr class=\"sum\"><th scope=\"row\">non-transferable</th>")];
    write_row(sink, &rest, &Cell::NonTransferable, "</tr>", place, stages)?;
    let lost = [Piece::Text("<tr class=\"sum\"><th scope=\"row\">lost by fractions</th>")];
    let end = "</tr>\n</tbody>\n</table>\n</div>";
    write_row(sink, &lost, &Cell::Lost, end, place, stages)
}

/// Writes the table of a block.
fn write_table<W: Sink>(sink: &mut W, block: &Block) -> Result<(), Broken>
    requires { W.failed sink.old < 2 ^ 64 - 1 }
    ensures { Writes W.taken W.failed sink.old sink.new (table (shown block.now.ward.now) block.now.place block.now.stages.now) result }
{
    write_head_row(sink, block)?;
    write_each(sink, block.ward, &CandidateCells { block })?;
    write_sum_rows(sink, block)
}

/// Returns the stages up to the eighth after the given position, or all of them if there are fewer.
fn up_to_eighth(stages: &[Stage], place: usize) -> &[Stage]
    ensures { result.now ≡ take (place + 8) stages.now }
{
    if stages.len().saturating_sub(place) > 8 {
        &stages[..place + 8]
    } else {
        stages
    }
}

/// Writes the table at the given position if the position is a multiple of eight.
fn write_table_at<W: Sink>(
    sink: &mut W,
    ward: &Ward,
    stages: &[Stage],
    place: usize,
) -> Result<(), Broken>
    requires within { place < length stages.now }
    requires failures { W.failed sink.old < 2 ^ 64 - 1 }
    ensures { Writes W.taken W.failed sink.old sink.new (table_at (shown ward.now) stages.now place) result }
{
    if place % 8 != 0 {
        return Ok(());
    }
    let upto = up_to_eighth(stages, place);
    let block = Block {
        ward,
        place,
        stages: upto,
    };
    write_table(sink, &block)
}

/// Writes the tables of all stages, eight stages per table.
pub fn write_tables<W: Sink>(sink: &mut W, ward: &Ward, stages: &[Stage]) -> Result<(), Broken>
    requires { W.failed sink.old < 2 ^ 64 - 1 }
    ensures { Writes W.taken W.failed sink.old sink.new (tables (shown ward.now) stages.now) result }
{
    for place in 0..stages.len() {
        write_table_at(sink, ward, stages, place)?;
    }
    Ok(())
}
