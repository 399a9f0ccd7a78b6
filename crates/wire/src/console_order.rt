//! An order sent by the officer's console, in the body of a request.

ghost use Rattle.std.specs.Prelude.{◌≡◌, ◌++◌, IfOk, IfSome, map, option_map, string_bytes};
ghost use Rattle.serde_json.specs.View.{members_view, view};
ghost use Rattle.wire.specs.ConsoleOrders.{console_file_entry, console_order_entry, files_in, files_of, order_by, order_members, order_of, words_in};

use crate::body::{json_in, list_in, members_in, text_in};
use serde_json::{Map, Value};
use std::alloc::{AllocError, Global};

/// The maximum number of words in an order.
const MOST_WORDS: usize = 1000;

/// The maximum number of files in an order.
const MOST_FILES: usize = 16;

/// A file that an order names, with its text.
#[derive(Drop)]
pub struct ConsoleFile {
    pub name: String,
    pub text: String,
}

/// An order from the console: 1 to 1000 words, as typed after the name of the database, and the files they name, at most 16.
#[derive(Drop)]
pub struct ConsoleOrder {
    pub words: Vec<String>,
    pub files: Vec<ConsoleFile>,
}

/// Returns the members of an object as files, if the value of each is a string.
fn files_of(
    alloc: Global,
    members: Map<String, Value>,
) -> Result<Option<Vec<ConsoleFile>>, AllocError>
    ensures { IfOk result (λ found. option_map (λ files. map console_file_entry files.items) found ≡ files_of (members_view members.entries)) }
{
    let mut rest = members;
    let mut files = Vec::new(alloc);
    while let Some((name, value)) = rest.pop_first() {
        let Some(text) = text_in(value) else {
            return Ok(None);
        };
        files.push(ConsoleFile { name, text })?;
    }
    Ok(Some(files))
}

/// Returns the files in a value, if the value is an object of strings and has no more members than an order may have files.
fn files_in(alloc: Global, value: Value) -> Result<Option<Vec<ConsoleFile>>, AllocError>
    ensures { IfOk result (λ found. option_map (λ files. map console_file_entry files.items) found ≡ files_in (view value)) }
{
    let Some(members) = members_in(value) else {
        return Ok(None);
    };
    match files_of(alloc, members)? {
        Some(files) if files.len() <= MOST_FILES => Ok(Some(files)),
        _ => Ok(None),
    }
}

/// Returns the words in a value, if the value is a list of strings and isn't too short or too long for an order.
fn words_in(alloc: Global, value: Value) -> Result<Option<Vec<String>>, AllocError>
    ensures { IfOk result (λ found. option_map (λ words. map string_bytes words.items) found ≡ words_in (view value)) }
{
    match list_in(alloc, value)? {
        Some(words) if !words.is_empty() && words.len() <= MOST_WORDS => Ok(Some(words)),
        _ => Ok(None),
    }
}

/// Returns the values of `files` and `words`, if the object has exactly these members.
fn order_members(mut members: Map<String, Value>) -> Option<(Value, Value)>
    ensures { option_map (λ found. (view found.0, view found.1)) result ≡ order_members (members_view members.entries) }
{
    let (files, first) = members.pop_first()?;
    let (words, second) = members.pop_first()?;
    if members.pop_first().is_some() {
        return None;
    }
    if files.as_str() == "files" && words.as_str() == "words" {
        Some((first, second))
    } else {
        None
    }
}

/// Returns the order made from two values, if each has the correct type.
fn order_by(alloc: Global, files: Value, words: Value) -> Result<Option<ConsoleOrder>, AllocError>
    ensures { IfOk result (λ found. option_map console_order_entry found ≡ order_by (view files, view words)) }
{
    let Some(files) = files_in(alloc, files)? else {
        return Ok(None);
    };
    match words_in(alloc, words)? {
        Some(words) => Ok(Some(ConsoleOrder { words, files })),
        None => Ok(None),
    }
}

/// Parses a body as the JSON of an order; returns `None` if it isn't one. The only error is a failed allocation.
pub(crate) fn order_of(alloc: Global, body: &[u8]) -> Result<Option<ConsoleOrder>, AllocError>
    ensures { IfOk result (λ found. option_map console_order_entry found ≡ order_of body.now) }
{
    let value = json_in(alloc, body)?;
    match value.and_then(members_in).and_then(order_members) {
        Some((files, words)) => order_by(alloc, files, words),
        None => Ok(None),
    }
}
