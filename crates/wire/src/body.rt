//! The body of a request.

ghost use Rattle.std.specs.Prelude.{◌≡◌, ◌+◌, ◌-◌, ◌^◌, ◌<◌, ◌≤◌, ◌++◌, ◌⊎◌, ◌&&◌, true, false, Some, None};
ghost use Rattle.std.specs.Prelude.{IfErr, IfNone, IfOk, IfSome, OnErr, OnOk, List, ℕ, length, map, take, option_map, string_bytes, vec_len};
ghost use Rattle.std.specs.Io.KnownBytes.{Consumes};
ghost use Rattle.serde_json.specs.View.{view, items_view, members_view};
ghost use Rattle.serde_json.specs.Find.{as_object, as_str};
ghost use Rattle.wire.specs.Requests.{FailsAfter, HasRead, IsUnread};
ghost use Rattle.wire.specs.Bodies.{body_entry, body_in, json_in, key_members, keying_of, list_in, round_in, keying_from, texts_in};

use crate::read_failure::ReadFailure;
use serde_json::{Category, Map, Value};
use std::alloc::{AllocError, Global};
use streams::{Broken, Source};

/// The body of a keying: its id, its round (any 32-bit number, in range or not), and the marks text of each paper.
#[derive(Drop)]
pub(crate) struct KeyingBody {
    pub id: String,
    pub round: u32,
    pub papers: Vec<String>,
}

/// Fills a buffer. Returns false if the source ends first.
fn fill<R: Source>(reader: &mut R, room: &mut [u8]) -> Result<bool, Broken>
    requires { R.failed reader.old < 2 ^ 64 - 1 }
    ensures full { IfOk result (λ full. full ≡ true → Consumes (R.held reader.old) (R.held reader.new) room.new) }
    ensures cut { IfOk result (λ full. full ≡ false → IfSome (R.held reader.old) (λ left. length left < length room.new)) }
    ensures ok { OnOk result (R.failed reader.new ≡ R.failed reader.old) }
    ensures err { OnErr result (R.failed reader.new ≡ R.failed reader.old + 1) }
    ensures wanting { OnErr result (HasRead (R.held reader.old) (R.held reader.new) (λ got. length got < length room.new)) }
{
    let mut filled = 0;
    while filled < room.len() {
        match reader.fetch(&mut room[filled..])? {
            0 => return Ok(false),
            n => filled += n,
        }
    }
    Ok(true)
}

/// Returns a buffer of the given size that begins with the given bytes.
fn buffer_from(alloc: Global, front: &[u8], size: usize) -> Result<Vec<u8>, AllocError>
    requires { length front.now ≤ size }
    ensures size { IfOk result (λ buffer. vec_len buffer ≡ size) }
    ensures begins { IfOk result (λ buffer. take (length front.now) buffer.items ≡ front.now) }
{
    let mut buffer = Vec::with_capacity(alloc, size)?;
    buffer.extend_from_slice(front)?;
    buffer.resize(size, 0)?;
    Ok(buffer)
}

/// Reads a body of the given size. The body begins with the bytes already read after the head. Returns `None` if the source
/// ends before the body does.
///
/// Returns `Broken` only if the source fails while the body is still incomplete; the source's failure count is then one higher.
pub(crate) fn read_body<R: Source>(
    alloc: Global,
    reader: &mut R,
    behind: &[u8],
    size: usize,
) -> Result<Option<Vec<u8>>, ReadFailure>
    requires { R.failed reader.old < 2 ^ 64 - 1 }
    ensures body { IfSome (R.held reader.old) (λ left. IfOk result (λ found. option_map (λ body. body.items) found ≡ body_in size (behind.now ++ left))) }
    ensures ok { OnOk result (R.failed reader.new ≡ R.failed reader.old) }
    ensures err { IfErr result (IsUnread (R.failed reader.old) (R.failed reader.new)) }
    ensures wanting { IfErr result (FailsAfter (R.held reader.old) (R.held reader.new) (λ got. length (behind.now ++ got) < size)) }
{
    let front = behind.len().min(size);
    let mut body = buffer_from(alloc, &behind[..front], size)?;
    if fill(reader, &mut body[front..])? {
        Ok(Some(body))
    } else {
        Ok(None)
    }
}

/// Returns the text in a value, if the value is a string.
pub(crate) fn text_in(value: Value) -> Option<String>
    ensures { option_map string_bytes result ≡ as_str (view value) }
{
    match value {
        Value::String(text) => Some(text),
        _ => None,
    }
}

/// Returns the round in a value, if the value is a 32-bit number.
fn round_in(value: &Value) -> Option<u32>
    ensures { result ≡ round_in (view value.now) }
{
    let round = value.as_u64()?;
    u32::try_from(round).ok()
}

/// Returns the texts in a list of values, if all of them are strings.
fn texts_in(alloc: Global, values: Vec<Value>) -> Result<Option<Vec<String>>, AllocError>
    ensures { IfOk result (λ found. option_map (λ texts. map string_bytes texts.items) found ≡ texts_in (items_view values.items)) }
{
    let mut texts = Vec::with_capacity(alloc, values.len())?;
    for value in values {
        let Some(text) = text_in(value) else {
            return Ok(None);
        };
        texts.push(text)?;
    }
    Ok(Some(texts))
}

/// Returns the texts in a value, if the value is a list of strings.
pub(crate) fn list_in(alloc: Global, value: Value) -> Result<Option<Vec<String>>, AllocError>
    ensures { IfOk result (λ found. option_map (λ texts. map string_bytes texts.items) found ≡ list_in (view value)) }
{
    match value {
        Value::Array(values) => texts_in(alloc, values),
        _ => Ok(None),
    }
}

/// Returns the values of `id`, `papers` and `round`, if the object has exactly these members.
fn key_members(mut members: Map<String, Value>) -> Option<(Value, Value, Value)>
    ensures { option_map (λ found. (view found.0, view found.1, view found.2)) result ≡ key_members (members_view members.entries) }
{
    let (id, first) = members.pop_first()?;
    let (papers, second) = members.pop_first()?;
    let (round, third) = members.pop_first()?;
    if members.pop_first().is_some() {
        return None;
    }
    if id.as_str() == "id" && papers.as_str() == "papers" && round.as_str() == "round" {
        Some((first, second, third))
    } else {
        None
    }
}

/// Returns the keying made from three values, if each has the correct type.
fn keying_from(
    alloc: Global,
    id: Value,
    papers: Value,
    round: Value,
) -> Result<Option<KeyingBody>, AllocError>
    ensures { IfOk result (λ found. option_map body_entry found ≡ keying_from (view id, view papers, view round)) }
{
    let Some(id) = text_in(id) else {
        return Ok(None);
    };
    let Some(papers) = list_in(alloc, papers)? else {
        return Ok(None);
    };
    let Some(round) = round_in(&round) else {
        return Ok(None);
    };
    Ok(Some(KeyingBody { id, round, papers }))
}

/// Parses a text as JSON. The only error is a failed allocation.
pub(crate) fn json_in(alloc: Global, text: &[u8]) -> Result<Option<Value>, AllocError>
    ensures { IfOk result (λ found. option_map view found ≡ json_in text.now) }
{
    match Value::from_slice(alloc, text) {
        Ok(value) => Ok(Some(value)),
        Err(e) => match e.classify() {
            Category::Memory => Err(AllocError),
            _ => Ok(None),
        },
    }
}

/// Returns the members of a value, if it is an object.
pub(crate) fn members_in(value: Value) -> Option<Map<String, Value>>
    ensures { option_map (λ members. members_view members.entries) result ≡ as_object (view value) }
{
    match value {
        Value::Object(members) => Some(members),
        _ => None,
    }
}

/// Parses a body as the JSON of a keying; returns `None` if it isn't one. The only error is a failed allocation.
pub(crate) fn keying_of(alloc: Global, body: &[u8]) -> Result<Option<KeyingBody>, AllocError>
    ensures { IfOk result (λ found. option_map body_entry found ≡ keying_of body.now) }
{
    let value = json_in(alloc, body)?;
    match value.and_then(members_in).and_then(key_members) {
        Some((id, papers, round)) => keying_from(alloc, id, papers, round),
        None => Ok(None),
    }
}
