//! The cells of a stage in a table on a page.

ghost use Rattle.std.specs.Prelude.{◌≡◌, ◌-◌, ◌^◌, ◌<◌, map};
ghost use Rattle.sheet.specs.Cells.{apart as apart_of, cell_text, column_head, from_place, name_in as name_with, row};
ghost use Rattle.sheet.specs.Cells.{sign as sign_of, standing as standing_of, sum_cell, votes_before as before_of, votes_cell};
ghost use Rattle.sheet.specs.Entries.{shown};
ghost use Rattle.sheet.specs.Pieces.{piece_text};
ghost use Rattle.sheet.specs.Writing.{Writes};

use crate::ballots::name_or_withdrawn;
use crate::line::{Piece, write_line};
use crate::stage::{Fate, fate_at, votes_of};
use crate::ward::Ward;
use count::{Action, Stage};
use streams::{Broken, Sink};
use votes::Votes;

/// A cell in a row of a table, for one stage.
#[derive(Clone, Copy)]
pub enum Cell<'a> {
    /// The head of a column: the stage and its action, with the name of the candidate that the action concerns, taken from the given
    /// ward.
    Head(&'a Ward<'a>),
    /// A candidate's votes, their change, and the candidate's standing.
    Candidate(u8),
    /// The running total of the non-transferable votes.
    NonTransferable,
    /// The running total of the loss by fractions.
    Lost,
}

/// Returns the given candidate's votes before the given stage; for the first stage, the votes at that stage.
fn votes_before(earlier: &[Stage], stage: &Stage, c: u8) -> Votes
    ensures { result ≡ before_of earlier.now stage.now c }
{
    match earlier.last() {
        None => votes_of(stage, c),
        Some(before) => votes_of(before, c),
    }
}

/// Returns the standing of a candidate at a stage, in words.
fn standing(fate: Fate) -> &'static str
    ensures { result.now ≡ standing_of fate }
{
    match fate {
        Fate::NewlyElected => " <b>elected</b>",
        Fate::Elected => " <small>elected</small>",
        Fate::NewlyExcluded => " <b>excluded</b>",
        Fate::Excluded => " <small>excluded</small>",
        Fate::Continuing => "",
    }
}

/// Returns the sign of a change.
fn sign(before: Votes, now: Votes) -> &'static str
    ensures { result.now ≡ sign_of before now }
{
    if before.units() < now.units() {
        " <i>+"
    } else {
        " <i>&minus;"
    }
}

/// Returns the absolute difference between two values.
fn apart(before: Votes, now: Votes) -> Votes
    ensures { result ≡ apart_of before now }
{
    let (before, now) = (before.units(), now.units());
    if before < now {
        Votes::from_units(now - before)
    } else {
        Votes::from_units(before - now)
    }
}

/// Writes a candidate's votes, the change if there is one, and the standing.
fn write_votes_cell<W: Sink>(
    sink: &mut W,
    before: Votes,
    now: Votes,
    stands: &str,
) -> Result<(), Broken>
    requires { W.failed sink.old < 2 ^ 64 - 1 }
    ensures { Writes W.taken W.failed sink.old sink.new (votes_cell before now stands.now) result }
{
    let (opening, closing) = (Piece::Text("<td>"), Piece::Text("</td>"));
    let (votes, stands) = (Piece::Value(now), Piece::Text(stands));
    if now.units() == before.units() {
        return write_line(sink, &[opening, votes, stands, closing]);
    }
    let (sign, apart) = (
        Piece::Text(sign(before, now)),
        Piece::Value(apart(before, now)),
    );
    let end = Piece::Text("</i>");
    write_line(sink, &[opening, votes, sign, apart, end, stands, closing])
}

/// Returns the name of the candidate that an action concerns; empty for the first stage.
pub fn name_in<'a>(ward: &Ward<'a>, action: Action) -> &'a str
    ensures { result.now ≡ name_with (shown ward.now).candidates action }
{
    match action {
        Action::First => "",
        Action::Surplus(c) => name_or_withdrawn(ward, c),
        Action::Exclude(c) => name_or_withdrawn(ward, c),
        Action::ExcludeLast(c) => name_or_withdrawn(ward, c),
    }
}

/// Writes the head of a column.
fn write_column_head<W: Sink>(
    sink: &mut W,
    ward: &Ward,
    k: u64,
    action: Action,
) -> Result<(), Broken>
    requires { W.failed sink.old < 2 ^ 64 - 1 }
    ensures { Writes W.taken W.failed sink.old sink.new (column_head (shown ward.now).candidates k action) result }
{
    let pieces = [
        Piece::Text("<th scope=\"col\">Stage "),
        Piece::Number(k),
        Piece::Text("<br>"),
        Piece::DoneWith(action, name_in(ward, action)),
        Piece::Text("</th>"),
    ];
    write_line(sink, &pieces)
}

/// Writes a running total.
fn write_sum_cell<W: Sink>(sink: &mut W, sum: Votes) -> Result<(), Broken>
    requires { W.failed sink.old < 2 ^ 64 - 1 }
    ensures { Writes W.taken W.failed sink.old sink.new (sum_cell sum) result }
{
    let pieces = [Piece::Text("<td>"), Piece::Value(sum), Piece::Text("</td>")];
    write_line(sink, &pieces)
}

/// Writes the cell for the given stage, given the stages before it.
fn write_cell<W: Sink>(
    sink: &mut W,
    cell: &Cell,
    earlier: &[Stage],
    stage: &Stage,
) -> Result<(), Broken>
    requires { W.failed sink.old < 2 ^ 64 - 1 }
    ensures { Writes W.taken W.failed sink.old sink.new (cell_text cell.now earlier.now stage.now) result }
{
    match cell {
        Cell::Head(ward) => write_column_head(sink, ward, earlier.len() as u64 + 1, stage.action),
        Cell::Candidate(c) => {
            let before = votes_before(earlier, stage, *c);
            let stands = standing(fate_at(earlier, stage, *c));
            write_votes_cell(sink, before, votes_of(stage, *c), stands)
        }
        Cell::NonTransferable => write_sum_cell(sink, stage.non_transferable),
        Cell::Lost => write_sum_cell(sink, stage.lost),
    }
}

/// Writes one cell per stage, starting at the given position.
fn write_cells<W: Sink>(
    sink: &mut W,
    cell: &Cell,
    place: usize,
    stages: &[Stage],
) -> Result<(), Broken>
    requires { W.failed sink.old < 2 ^ 64 - 1 }
    ensures { Writes W.taken W.failed sink.old sink.new (from_place (cell_text cell.now) place stages.now) result }
{
    for k in place..stages.len() {
        write_cell(sink, cell, &stages[..k], &stages[k])?;
    }
    Ok(())
}

/// Writes a row: its beginning, one cell per stage starting at the given position, and its end.
pub fn write_row<W: Sink>(
    sink: &mut W,
    opening: &[Piece],
    cell: &Cell,
    end: &str,
    place: usize,
    stages: &[Stage],
) -> Result<(), Broken>
    requires { W.failed sink.old < 2 ^ 64 - 1 }
    ensures { Writes W.taken W.failed sink.old sink.new (row (map piece_text opening.now) (cell_text cell.now) end.now place stages.now) result }
{
    write_line(sink, opening)?;
    write_cells(sink, cell, place, stages)?;
    write_line(sink, &[Piece::Text(end)])
}
