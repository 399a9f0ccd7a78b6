//! The words of a journal's lines, quoted so that they can be read back from a script.

ghost use Rattle.std.specs.Prelude.{◌≡◌, ◌++◌, OnOk, string_bytes};
ghost use Rattle.desk.specs.RequestLines.{id_words, line_with, named_line, quoted, quoted_character};

use register::Receipt;
use std::alloc::AllocError;

/// Appends a character of a word in double quotes. A `"` is written in single quotes, as part of the same word.
fn put_quoted_character(text: &mut String, character: char) -> Result<(), AllocError>
    ensures { OnOk result (string_bytes text.new ≡ string_bytes text.old ++ quoted_character character) }
{
    match character {
        '"' => text.push_str("\"'\"'\""),
        _ => text.push(character),
    }
}

#[tactic(auto, unfolding(crate::specs::RequestLines::quoted))]
/// Appends a word in double quotes.
fn put_quoted(text: &mut String, word: &str) -> Result<(), AllocError>
    ensures { OnOk result (string_bytes text.new ≡ string_bytes text.old ++ quoted word.now) }
{
    text.push_str("\"")?;
    for character in word.chars() {
        put_quoted_character(text, character)?;
    }
    text.push_str("\"")
}

#[tactic(auto, unfolding(crate::specs::RequestLines::id_words))]
/// Appends an id to the words of an order. An id that begins with a hyphen is written after `--id=`, since it would otherwise be
/// read as an option.
pub(crate) fn put_id(text: &mut String, id: &str) -> Result<(), AllocError>
    ensures { OnOk result (string_bytes text.new ≡ string_bytes text.old ++ id_words id.now) }
{
    if id.starts_with("-") {
        text.push_str(" --id=")?;
    } else {
        text.push_str(" --id ")?;
    }
    text.push_str(id)
}

#[tactic(auto, unfolding(crate::specs::RequestLines::line_with))]
/// Appends the line of an order with the given id.
pub(crate) fn put_line(text: &mut String, words: &str, id: &str) -> Result<(), AllocError>
    ensures { OnOk result (string_bytes text.new ≡ string_bytes text.old ++ line_with words.now id.now) }
{
    text.push_str(words)?;
    put_id(text, id)?;
    text.push_str("\n")
}

#[tactic(auto, unfolding(crate::specs::RequestLines::named_line))]
/// Appends the line of an order whose words end with a name. A name that begins with a hyphen is written after `--`, which ends the
/// options.
pub(crate) fn put_named_line(
    text: &mut String,
    words: &str,
    name: &str,
    id: &str,
) -> Result<(), AllocError>
    ensures { OnOk result (string_bytes text.new ≡ string_bytes text.old ++ named_line words.now name.now id.now) }
{
    text.push_str(words)?;
    if name.starts_with("-") {
        put_id(text, id)?;
        text.push_str(" -- ")?;
        put_quoted(text, name)?;
    } else {
        text.push_str(" ")?;
        put_quoted(text, name)?;
        put_id(text, id)?;
    }
    text.push_str("\n")
}

/// Appends the line of an order, with the id of its receipt. Appends nothing if there is no receipt.
pub(crate) fn put_order(
    text: &mut String,
    words: &str,
    receipt: Option<&Receipt>,
) -> Result<(), AllocError> {
    match receipt {
        Some(receipt) => put_line(text, words, receipt.id.as_str()),
        None => Ok(()),
    }
}

/// Appends the line of an order whose words end with a name, with the id of its receipt. Appends nothing if there is no receipt.
pub(crate) fn put_named(
    text: &mut String,
    words: &str,
    name: &str,
    receipt: Option<&Receipt>,
) -> Result<(), AllocError> {
    match receipt {
        Some(receipt) => put_named_line(text, words, name, receipt.id.as_str()),
        None => Ok(()),
    }
}

/// Appends a comment. The text must not contain a newline.
pub(crate) fn put_comment(text: &mut String, says: &str) -> Result<(), AllocError> {
    text.push_str("# ")?;
    text.push_str(says)?;
    text.push_str("\n")
}

/// Appends a comment, preceded by an empty line.
pub(crate) fn put_heading(text: &mut String, says: &str) -> Result<(), AllocError> {
    text.push_str("\n")?;
    put_comment(text, says)
}
