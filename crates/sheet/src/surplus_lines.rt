//! The surpluses of a ward, on a page.

ghost use Rattle.std.specs.Prelude.{◌≡◌, ◌-◌, ◌^◌, ◌<◌};
ghost use Rattle.std.specs.List.{flat_map};
ghost use Rattle.sheet.specs.Entries.{shown};
ghost use Rattle.sheet.specs.Surpluses.{passed_words as passed_words_of, received_words as received_words_of, surplus_item, surpluses_text};
ghost use Rattle.sheet.specs.Writing.{Writes};

use crate::ballots::name_or_withdrawn;
use crate::line::{Piece, write_line};
use crate::surpluses::PassedOn;
use crate::ward::Ward;
use streams::{Broken, Sink};

/// Returns the words before the value at which papers were received.
fn received_words(papers: u32) -> &'static str
    ensures { result.now ≡ received_words_of papers }
{
    if papers == 1 {
        " paper received at "
    } else {
        " papers received at "
    }
}

/// Returns the words before the value at which papers pass on.
fn passed_words(papers: u32) -> &'static str
    ensures { result.now ≡ passed_words_of papers }
{
    if papers == 1 {
        " passes on at "
    } else {
        " pass on at "
    }
}

/// Writes how many papers that were received at one value pass on with a surplus, and at what value.
fn write_surplus_item<W: Sink>(sink: &mut W, ward: &Ward, group: &PassedOn) -> Result<(), Broken>
    requires { W.failed sink.old < 2 ^ 64 - 1 }
    ensures { Writes W.taken W.failed sink.old sink.new (surplus_item (shown ward.now) group.now) result }
{
    let pieces = [
        Piece::Text("<li>Stage "),
        Piece::Number(group.stage),
        Piece::Text(", surplus of "),
        Piece::Named(group.candidate, name_or_withdrawn(ward, group.candidate)),
        Piece::Text(", "),
        Piece::Value(group.surplus),
        Piece::Text(" of "),
        Piece::Value(group.votes),
        Piece::Text(" votes: "),
        Piece::Number(u64::from(group.papers)),
        Piece::Text(received_words(group.papers)),
        Piece::Value(group.received),
        Piece::Text(passed_words(group.papers)),
        Piece::Value(group.passed),
        Piece::Text(".</li>"),
    ];
    write_line(sink, &pieces)
}

/// Writes the papers that pass on with each surplus, in order.
fn write_surplus_items<W: Sink>(
    sink: &mut W,
    ward: &Ward,
    groups: &[PassedOn],
) -> Result<(), Broken>
    requires { W.failed sink.old < 2 ^ 64 - 1 }
    ensures { Writes W.taken W.failed sink.old sink.new (flat_map (surplus_item (shown ward.now)) groups.now) result }
{
    for group in groups {
        write_surplus_item(sink, ward, group)?;
    }
    Ok(())
}

/// Writes the heading of the surpluses, and the papers that pass on with each of them.
pub fn write_surpluses<W: Sink>(
    sink: &mut W,
    ward: &Ward,
    groups: &[PassedOn],
) -> Result<(), Broken>
    requires { W.failed sink.old < 2 ^ 64 - 1 }
    ensures { Writes W.taken W.failed sink.old sink.new (surpluses_text (shown ward.now) groups.now) result }
{
    if groups.is_empty() {
        let none = Piece::Text("<h2>Surpluses</h2>\n<p>No surplus was transferred.</p>");
        return write_line(sink, &[none]);
    }
    write_line(sink, &[Piece::Text("<h2>Surpluses</h2>\n<ul>")])?;
    write_surplus_items(sink, ward, groups)?;
    write_line(sink, &[Piece::Text("</ul>")])
}
