//! The public page of all wards.

ghost use Rattle.std.specs.Prelude.{◌≡◌, ◌-◌, ◌^◌, ◌<◌, length, map};
ghost use Rattle.std.specs.List.{flat_map};
ghost use Rattle.sheet.specs.Index.{elected_name, elected_shown, empty_in as empty_of, index, index_heads, index_opening, index_row, listed};
ghost use Rattle.sheet.specs.Index.{row_opening, standing_words as words_of};
ghost use Rattle.sheet.specs.Writing.{Writes};

use crate::elected::write_empty_seats;
use crate::line::{Piece, write_line, write_text};
use crate::look::style;
use crate::page::{title_mark, write_title};
use streams::{Broken, Sink};

/// The public status of a ward.
#[derive(Clone, Copy)]
pub enum WardStanding {
    /// Its nominations are open.
    Nominations,
    /// Its papers are being keyed.
    Keying,
    /// It is sealed, and is being counted if it is contested; it isn't declared yet.
    Sealed,
    /// It is declared.
    Declared,
}

/// A ward as shown on the page of all wards: its number and name, its seats, its status, whether it has more candidates than seats,
/// and, once it is declared, the number and name of each elected candidate.
#[derive(Drop)]
pub struct ListedWard {
    pub number: u32,
    pub name: String,
    pub seats: u32,
    pub standing: WardStanding,
    pub is_contested: bool,
    pub elected: Vec<(u32, String)>,
}

/// Returns the status of a ward, in words.
fn standing_words(standing: WardStanding, is_contested: bool) -> &'static str
    ensures { result.now ≡ words_of standing is_contested }
{
    match standing {
        WardStanding::Nominations => "nominations are open",
        WardStanding::Keying => "its papers are being keyed",
        WardStanding::Sealed => {
            if is_contested {
                "its papers are being counted"
            } else {
                "uncontested, not declared yet"
            }
        }
        WardStanding::Declared => {
            if is_contested {
                "<b>declared</b>"
            } else {
                "<b>declared</b> uncontested"
            }
        }
    }
}

/// Returns the number of seats of a ward that stay empty.
fn empty_in(ward: &ListedWard) -> usize
    ensures { result ≡ empty_of ward.now.standing ward.now.seats (length (map elected_shown ward.now.elected.items)) }
{
    match ward.standing {
        WardStanding::Nominations | WardStanding::Keying | WardStanding::Sealed => 0,
        WardStanding::Declared => (ward.seats as usize).saturating_sub(ward.elected.len()),
    }
}

/// Writes an elected candidate.
fn write_elected_name<W: Sink>(sink: &mut W, candidate: &(u32, String)) -> Result<(), Broken>
    requires { W.failed sink.old < 2 ^ 64 - 1 }
    ensures { Writes W.taken W.failed sink.old sink.new (elected_name (elected_shown candidate.now)) result }
{
    let (c, name) = candidate;
    let named = Piece::Listed(*c, name.as_str());
    write_line(sink, &[Piece::Text("<li>"), named, Piece::Text("</li>")])
}

/// Writes the elected candidates.
fn write_elected_names<W: Sink>(sink: &mut W, elected: &[(u32, String)]) -> Result<(), Broken>
    requires { W.failed sink.old < 2 ^ 64 - 1 }
    ensures { Writes W.taken W.failed sink.old sink.new (flat_map elected_name (map elected_shown elected.now)) result }
{
    for candidate in elected {
        write_elected_name(sink, candidate)?;
    }
    Ok(())
}

/// Writes the part of a ward's row before the elected candidates.
fn write_row_opening<W: Sink>(sink: &mut W, ward: &ListedWard) -> Result<(), Broken>
    requires { W.failed sink.old < 2 ^ 64 - 1 }
    ensures { Writes W.taken W.failed sink.old sink.new (row_opening (listed ward.now)) result }
{
    let pieces = [
        Piece::Text("<tr><th scope=\"row\">"),
        Piece::Listed(ward.number, ward.name.as_str()),
        Piece::Text("</th><td>"),
        Piece::Number(u64::from(ward.seats)),
        Piece::Text("</td><td>"),
        Piece::Text(standing_words(ward.standing, ward.is_contested)),
        Piece::Text("</td><td>\n<ul>"),
    ];
    write_line(sink, &pieces)
}

/// Writes the row of a ward.
fn write_index_row<W: Sink>(sink: &mut W, ward: &ListedWard) -> Result<(), Broken>
    requires { W.failed sink.old < 2 ^ 64 - 1 }
    ensures { Writes W.taken W.failed sink.old sink.new (index_row (listed ward.now)) result }
{
    write_row_opening(sink, ward)?;
    write_elected_names(sink, &ward.elected)?;
    write_empty_seats(sink, empty_in(ward))?;
    write_line(sink, &[Piece::Text("</ul>\n</td></tr>")])
}

/// Writes the rows of all wards.
fn write_index_rows<W: Sink>(sink: &mut W, wards: &[ListedWard]) -> Result<(), Broken>
    requires { W.failed sink.old < 2 ^ 64 - 1 }
    ensures { Writes W.taken W.failed sink.old sink.new (flat_map index_row (map listed wards.now)) result }
{
    for ward in wards {
        write_index_row(sink, ward)?;
    }
    Ok(())
}

/// Writes the document's head, and the line for the top of each printed sheet.
fn write_index_opening<W: Sink>(sink: &mut W, title: &str) -> Result<(), Broken>
    requires { W.failed sink.old < 2 ^ 64 - 1 }
    ensures { Writes W.taken W.failed sink.old sink.new (index_opening title.now) result }
{
    let pieces = [
        Piece::Text(
            "<!DOCTYPE html>\n<html lang=\"en\">\n<head>\n<meta charset=\"utf-8\">\n<meta name=\"viewport\" content=\"width=device-width, initial-scale=1\">\n<title>Wards",
        ),
        Piece::Text(title_mark(title)),
        Piece::Escaped(title),
        Piece::Text("</title>\n<style>\n"),
        Piece::Text(style()),
        Piece::Text(
            "</style>\n</head>\n<body class=\"wards\">\n<p class=\"running\" aria-hidden=\"true\"><span>Wards</span> <bdi>",
        ),
        Piece::Escaped(title),
        Piece::Text("</bdi></p>"),
    ];
    write_line(sink, &pieces)
}

/// Writes the column heads.
fn write_index_heads<W: Sink>(sink: &mut W) -> Result<(), Broken>
    requires { W.failed sink.old < 2 ^ 64 - 1 }
    ensures { Writes W.taken W.failed sink.old sink.new index_heads result }
{
    let pieces = [
        Piece::Text(
            "<h1>Wards</h1>\n<table class=\"index\">\n<thead>\n<tr><th scope=\"col\">Ward</th><th scope=\"col\">Seats</th>",
        ),
        Piece::Text(
            "<th scope=\"col\">Status</th><th scope=\"col\">Elected</th></tr>\n</thead>\n<tbody>",
        ),
    ];
    write_line(sink, &pieces)
}

/// Writes the page of all wards, as one HTML file: the seats and the status of each ward, and its elected candidates and empty seats
/// once it is declared. An empty title is omitted.
///
/// Allocates nothing. `Broken` only if the sink fails; it has then accepted a prefix of the page, and its failure count is one
/// higher.
pub fn write_index<W: Sink>(sink: &mut W, title: &str, wards: &[ListedWard]) -> Result<(), Broken>
    requires { W.failed sink.old < 2 ^ 64 - 1 }
    ensures { Writes W.taken W.failed sink.old sink.new (index title.now (map listed wards.now)) result }
{
    write_index_opening(sink, title)?;
    write_title(sink, title)?;
    write_index_heads(sink)?;
    write_index_rows(sink, wards)?;
    write_text(sink, "</tbody>\n</table>\n</body>\n</html>\n")
}
