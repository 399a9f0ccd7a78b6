//! Lines, piece by piece.

ghost use Rattle.std.specs.Prelude.{◌≡◌, ◌-◌, ◌^◌, ◌<◌, ◌≤◌, ◌++◌, decimal, length, map, replicate};
ghost use Rattle.std.specs.Str.{IsUtf8};
ghost use Rattle.votes.specs.Text.{votes_text};
ghost use Rattle.std.specs.List.{flat_map};
ghost use Rattle.count.specs.Actions.{action_text};
ghost use Rattle.sheet.specs.Lines.{joined, line, number_column, right_in, span, preference, preferences, escaped, quoted, named, action_named};
ghost use Rattle.sheet.specs.Pieces.{piece_text};
ghost use Rattle.sheet.specs.Writing.{Puts, Writes};

use crate::escaping::write_escaped;
use count::Action;
use itoa::Buffer;
use streams::{Broken, Sink, put_all};
use votes::Votes;

/// A piece of a line.
#[derive(Clone, Copy)]
pub enum Piece<'a> {
    Text(&'a str),
    Number(u64),
    /// The text of a value.
    Value(Votes),
    /// A candidate's number, right-aligned in 2 columns.
    NumberColumn(u8),
    /// The text of a value, right-aligned in 13 columns.
    ValueColumn(Votes),
    /// A range of stages, given the numbers of the first and the last: `Stages 1 to 8`, `Stage 9`.
    Span(u64, u64),
    /// The action of a stage.
    Done(Action),
    /// The action of a stage on a page, with the name of the candidate that it concerns.
    DoneWith(Action, &'a str),
    /// The numbers of the given candidates, each preceded by a space.
    Preferences(&'a [u8]),
    /// A text in quotation marks.
    Quoted(&'a str),
    /// A text on a page, escaped so that it is never treated as markup.
    Escaped(&'a str),
    /// The number and the name of a candidate or a ward, on a page.
    Named(u8, &'a str),
    /// The same as `Named`, with a larger range of numbers, for the page of all wards.
    Listed(u32, &'a str),
}

/// Writes a text.
pub fn write_text<W: Sink>(sink: &mut W, text: &str) -> Result<(), Broken>
    requires { W.failed sink.old < 2 ^ 64 - 1 }
    ensures { Writes W.taken W.failed sink.old sink.new text.now result }
{
    put_all(sink, text.as_bytes())
}

/// Writes at most 13 spaces.
fn write_spaces<W: Sink>(sink: &mut W, count: usize) -> Result<(), Broken>
    requires few { count ≤ 13 }
    requires failures { W.failed sink.old < 2 ^ 64 - 1 }
    ensures { Writes W.taken W.failed sink.old sink.new (replicate count 32) result }
{
    put_all(sink, &[b' '; 13][..count])
}

/// Writes a candidate's number, right-aligned in 2 columns.
fn write_number_column<W: Sink>(sink: &mut W, c: u8) -> Result<(), Broken>
    requires { W.failed sink.old < 2 ^ 64 - 1 }
    ensures { Writes W.taken W.failed sink.old sink.new (number_column c) result }
{
    let mut buffer = Buffer::new();
    let text = buffer.format(c);
    write_spaces(sink, 2usize.saturating_sub(text.len()))?;
    write_text(sink, text)
}

/// Returns the length of the text of a value: the whole votes, a decimal point, and five digits.
#[tactic(auto, using(crate::proofs::Utf8::utf8_texts))]
fn value_length(value: Votes) -> usize
    ensures length { result ≡ length (votes_text value) }
    ensures utf8 { IsUtf8 (votes_text value) }
{
    Buffer::new().format(value.units() / 100000).len() + 6
}

/// Writes the text of a value, right-aligned in at most 13 columns.
fn write_value<W: Sink>(sink: &mut W, places: usize, value: Votes) -> Result<(), Broken>
    requires few { places ≤ 13 }
    requires failures { W.failed sink.old < 2 ^ 64 - 1 }
    ensures { Writes W.taken W.failed sink.old sink.new (right_in places (votes_text value)) result }
{
    write_spaces(sink, places.saturating_sub(value_length(value)))?;
    value.write(sink)
}

/// Writes a candidate's number.
pub fn write_number<W: Sink>(sink: &mut W, c: u8) -> Result<(), Broken>
    requires { W.failed sink.old < 2 ^ 64 - 1 }
    ensures { Writes W.taken W.failed sink.old sink.new (decimal c) result }
{
    write_text(sink, Buffer::new().format(c))
}

/// Writes a range of stages, given the numbers of the first and the last.
fn write_span<W: Sink>(sink: &mut W, first: u64, last: u64) -> Result<(), Broken>
    requires { W.failed sink.old < 2 ^ 64 - 1 }
    ensures { Writes W.taken W.failed sink.old sink.new (span first last) result }
{
    if first == last {
        write_text(sink, "Stage ")?;
        return write_text(sink, Buffer::new().format(first));
    }
    write_text(sink, "Stages ")?;
    write_text(sink, Buffer::new().format(first))?;
    write_text(sink, " to ")?;
    write_text(sink, Buffer::new().format(last))
}

/// Writes an action on a candidate.
fn write_acted_on<W: Sink>(sink: &mut W, what: &str, c: u8) -> Result<(), Broken>
    requires { W.failed sink.old < 2 ^ 64 - 1 }
    ensures { Writes W.taken W.failed sink.old sink.new (what.now ++ decimal c) result }
{
    write_text(sink, what)?;
    write_number(sink, c)
}

/// Writes the action of a stage.
fn write_action<W: Sink>(sink: &mut W, action: Action) -> Result<(), Broken>
    requires { W.failed sink.old < 2 ^ 64 - 1 }
    ensures { Writes W.taken W.failed sink.old sink.new (action_text action) result }
{
    match action {
        Action::First => write_text(sink, "first preferences"),
        Action::Surplus(c) => write_acted_on(sink, "surplus of ", c),
        Action::Exclude(c) => write_acted_on(sink, "exclusion of ", c),
        Action::ExcludeLast(c) => {
            write_acted_on(sink, "exclusion of ", c)?;
            write_text(sink, ", last vacancies")
        }
    }
}

/// Writes a candidate's number, preceded by a space.
fn write_preference<W: Sink>(sink: &mut W, c: u8) -> Result<(), Broken>
    requires { W.failed sink.old < 2 ^ 64 - 1 }
    ensures { Writes W.taken W.failed sink.old sink.new (preference c) result }
{
    write_text(sink, " ")?;
    write_number(sink, c)
}

/// Writes the numbers of the given candidates, each preceded by a space.
fn write_preferences<W: Sink>(sink: &mut W, list: &[u8]) -> Result<(), Broken>
    requires { W.failed sink.old < 2 ^ 64 - 1 }
    ensures { Writes W.taken W.failed sink.old sink.new (preferences list.now) result }
{
    for c in list {
        write_preference(sink, *c)?;
    }
    Ok(())
}

/// Writes a byte of a quoted text, escaped if necessary.
fn put_escaped_byte<W: Sink>(sink: &mut W, byte: u8) -> Result<(), Broken>
    requires { W.failed sink.old < 2 ^ 64 - 1 }
    ensures { Puts W.taken W.failed sink.old sink.new (escaped byte) result }
{
    if byte == b'"' || byte == b'\\' {
        return put_all(sink, &[b'\\', byte]);
    }
    put_all(sink, &[byte])
}

/// Writes the bytes of a quoted text.
fn put_escaped<W: Sink>(sink: &mut W, bytes: &[u8]) -> Result<(), Broken>
    requires { W.failed sink.old < 2 ^ 64 - 1 }
    ensures { Puts W.taken W.failed sink.old sink.new (flat_map escaped bytes.now) result }
{
    for byte in bytes {
        put_escaped_byte(sink, *byte)?;
    }
    Ok(())
}

/// Writes a text in quotation marks.
fn write_quoted<W: Sink>(sink: &mut W, text: &str) -> Result<(), Broken>
    requires { W.failed sink.old < 2 ^ 64 - 1 }
    ensures { Writes W.taken W.failed sink.old sink.new (quoted text.now) result }
{
    write_text(sink, "\"")?;
    put_escaped(sink, text.as_bytes())?;
    write_text(sink, "\"")
}

/// Writes any number.
fn write_any_number<W: Sink>(sink: &mut W, number: u64) -> Result<(), Broken>
    requires { W.failed sink.old < 2 ^ 64 - 1 }
    ensures { Writes W.taken W.failed sink.old sink.new (decimal number) result }
{
    write_text(sink, Buffer::new().format(number))
}

/// Writes a number and a name to a page.
fn write_named<W: Sink>(sink: &mut W, number: u64, name: &str) -> Result<(), Broken>
    requires { W.failed sink.old < 2 ^ 64 - 1 }
    ensures { Writes W.taken W.failed sink.old sink.new (named number name.now) result }
{
    write_any_number(sink, number)?;
    write_text(sink, " <bdi>")?;
    write_escaped(sink, name)?;
    write_text(sink, "</bdi>")
}

/// Writes an action on a candidate to a page, with the number and the name.
fn write_acted_on_named<W: Sink>(sink: &mut W, what: &str, c: u8, name: &str) -> Result<(), Broken>
    requires { W.failed sink.old < 2 ^ 64 - 1 }
    ensures { Writes W.taken W.failed sink.old sink.new (what.now ++ named c name.now) result }
{
    write_text(sink, what)?;
    write_named(sink, u64::from(c), name)
}

/// Writes the action of a stage to a page, with the name of the candidate that it concerns.
fn write_action_named<W: Sink>(sink: &mut W, action: Action, name: &str) -> Result<(), Broken>
    requires { W.failed sink.old < 2 ^ 64 - 1 }
    ensures { Writes W.taken W.failed sink.old sink.new (action_named action name.now) result }
{
    match action {
        Action::First => write_text(sink, "first preferences"),
        Action::Surplus(c) => write_acted_on_named(sink, "surplus of ", c, name),
        Action::Exclude(c) => write_acted_on_named(sink, "exclusion of ", c, name),
        Action::ExcludeLast(c) => {
            write_acted_on_named(sink, "exclusion of ", c, name)?;
            write_text(sink, ", last vacancies")
        }
    }
}

/// Writes a piece of a line.
fn write_piece<W: Sink>(sink: &mut W, piece: &Piece) -> Result<(), Broken>
    requires { W.failed sink.old < 2 ^ 64 - 1 }
    ensures { Writes W.taken W.failed sink.old sink.new (piece_text piece.now) result }
{
    match piece {
        Piece::Text(text) => write_text(sink, text),
        Piece::Number(number) => write_text(sink, Buffer::new().format(*number)),
        Piece::Value(value) => write_value(sink, 0, *value),
        Piece::NumberColumn(c) => write_number_column(sink, *c),
        Piece::ValueColumn(value) => write_value(sink, 13, *value),
        Piece::Span(first, last) => write_span(sink, *first, *last),
        Piece::Done(action) => write_action(sink, *action),
        Piece::DoneWith(action, name) => write_action_named(sink, *action, name),
        Piece::Preferences(list) => write_preferences(sink, list),
        Piece::Quoted(text) => write_quoted(sink, text),
        Piece::Escaped(text) => write_escaped(sink, text),
        Piece::Named(number, name) => write_named(sink, u64::from(*number), name),
        Piece::Listed(number, name) => write_named(sink, u64::from(*number), name),
    }
}

/// Writes the pieces in order.
pub fn write_pieces<W: Sink>(sink: &mut W, pieces: &[Piece]) -> Result<(), Broken>
    requires { W.failed sink.old < 2 ^ 64 - 1 }
    ensures { Writes W.taken W.failed sink.old sink.new (joined (map piece_text pieces.now)) result }
{
    for piece in pieces {
        write_piece(sink, piece)?;
    }
    Ok(())
}

/// Writes a line made up of the pieces.
pub fn write_line<W: Sink>(sink: &mut W, pieces: &[Piece]) -> Result<(), Broken>
    requires { W.failed sink.old < 2 ^ 64 - 1 }
    ensures { Writes W.taken W.failed sink.old sink.new (line (map piece_text pieces.now)) result }
{
    write_pieces(sink, pieces)?;
    write_text(sink, "\n")
}
