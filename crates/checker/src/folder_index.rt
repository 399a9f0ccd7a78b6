//! The page of all wards, read for what no other file of a folder has: the title, and the wards that aren't sealed.
//!
//! Whatever is read here is confirmed later, since the page is made again from it and compared. What is guaranteed is that a page
//! that an office published is read as it was meant.

ghost use Rattle.std.specs.Prelude.{◌≡◌, map, option_copied, option_map, IfOk};
ghost use Rattle.checker.specs.IndexPage.{begins, behind, behind_first, entity, field, from_first, page_entry, page_in, row_at, row_entry};
ghost use Rattle.checker.specs.IndexPage.{row_with, rows_in, shown_by, standing_at, title_in, unescaped, until};

use crate::numbers::number_in;
use sheet::WardStanding;
use std::alloc::{AllocError, Global};

/// What precedes the title on the page.
const BEFORE_TITLE: &str = "<span>Wards</span> <bdi>";

/// What precedes the row of a ward.
const BEFORE_ROW: &str = "<tr><th scope=\"row\">";

/// What follows the rows.
const AFTER_ROWS: &str = "</tbody>";

/// The row of a ward. The name and the seats are as on the page, the name with entities.
#[derive(Clone, Copy)]
pub(crate) struct IndexRow<'a> {
    pub(crate) number: u8,
    pub(crate) name: &'a [u8],
    pub(crate) seats: &'a [u8],
    pub(crate) standing: WardStanding,
}

/// The page of all wards. The title is as on the page, with entities.
#[derive(Drop)]
pub(crate) struct IndexPage<'a> {
    pub(crate) title: &'a [u8],
    pub(crate) rows: Vec<IndexRow<'a>>,
}

/// Returns what follows a mark; `None` if the text doesn't begin with it.
fn behind<'a>(mark: &str, text: &'a [u8]) -> Option<&'a [u8]>
    ensures { option_copied result ≡ behind mark.now text.now }
{
    text.strip_prefix(mark.as_bytes())
}

/// Returns whether a text begins with a mark.
fn begins(mark: &str, text: &[u8]) -> bool
    ensures { result ≡ begins mark.now text.now }
{
    behind(mark, text).is_some()
}

/// Returns what follows the first place at which a mark appears; `None` if there is none.
fn behind_first<'a>(mark: &str, text: &'a [u8]) -> Option<&'a [u8]>
    ensures { option_copied result ≡ behind_first mark.now text.now }
{
    for i in 0..text.len() {
        if let Some(after) = behind(mark, &text[i..]) {
            return Some(after);
        }
    }
    None
}

/// Splits a text before the first of a byte; nothing follows if it hasn't that byte.
fn split_before(stop: u8, text: &[u8]) -> (&[u8], &[u8])
    ensures before { result.0.now ≡ until stop text.now }
    ensures from { result.1.now ≡ from_first stop text.now }
{
    for i in 0..text.len() {
        if text[i] == stop {
            return (&text[..i], &text[i..]);
        }
    }
    (text, &[])
}

/// Returns the bytes before the first of a byte, and what follows the mark, which has to begin there.
fn field<'a>(stop: u8, mark: &str, text: &'a [u8]) -> Option<(&'a [u8], &'a [u8])>
    ensures { option_map (λ parts. (parts.0.now, parts.1.now)) result ≡ field stop mark.now text.now }
{
    let (before, from) = split_before(stop, text);
    match behind(mark, from) {
        Some(after) => Some((before, after)),
        None => None,
    }
}

/// Returns the status with whose words a text begins.
fn standing_at(text: &[u8]) -> Option<WardStanding>
    ensures { result ≡ standing_at text.now }
{
    if begins("nominations are open", text) {
        return Some(WardStanding::Nominations);
    }
    if begins("its papers are being keyed", text) {
        return Some(WardStanding::Keying);
    }
    if begins("its papers are being counted", text) {
        return Some(WardStanding::Sealed);
    }
    if begins("uncontested, not declared yet", text) {
        return Some(WardStanding::Sealed);
    }
    if begins("<b>declared</b>", text) {
        return Some(WardStanding::Declared);
    }
    None
}

/// Returns the row with the given number, name and seats, which the given text follows.
fn row_with<'a>(
    number: &[u8],
    name: &'a [u8],
    seats: &'a [u8],
    after: &[u8],
) -> Option<IndexRow<'a>>
    ensures { option_map row_entry result ≡ row_with number.now name.now seats.now after.now }
{
    let Ok(number) = number_in(255, number) else {
        return None;
    };
    match standing_at(after) {
        Some(standing) => Some(IndexRow {
            number: number as u8,
            name,
            seats,
            standing,
        }),
        None => None,
    }
}

/// Returns the row whose number begins the given text.
fn row_at(text: &[u8]) -> Option<IndexRow<'_>>
    ensures { option_map row_entry result ≡ row_at text.now }
{
    let (number, after) = field(b' ', " <bdi>", text)?;
    let (name, after) = field(b'<', "</bdi></th><td>", after)?;
    let (seats, after) = field(b'<', "</td><td>", after)?;
    row_with(number, name, seats, after)
}

/// Returns the rows of a page; `None` if one isn't the row of a ward.
fn rows_in(alloc: Global, page: &[u8]) -> Result<Option<Vec<IndexRow<'_>>>, AllocError>
    ensures { IfOk result (λ rows. option_map (λ rows. map row_entry rows.items) rows ≡ rows_in page.now) }
{
    let mut rows = Vec::new(alloc);
    for i in 0..page.len() {
        let rest = &page[i..];
        if begins(AFTER_ROWS, rest) {
            return Ok(Some(rows));
        }
        let Some(after) = behind(BEFORE_ROW, rest) else {
            continue;
        };
        let Some(row) = row_at(after) else {
            return Ok(None);
        };
        rows.push(row)?;
    }
    Ok(Some(rows))
}

/// Returns the title on a page, as it appears there.
fn title_in(page: &[u8]) -> Option<&[u8]>
    ensures { option_copied result ≡ title_in page.now }
{
    match behind_first(BEFORE_TITLE, page) {
        Some(after) => {
            let (title, _) = split_before(b'<', after);
            Some(title)
        }
        None => None,
    }
}

/// Reads a page; `None` if it isn't a page of all wards.
pub(crate) fn index_page(alloc: Global, page: &[u8]) -> Result<Option<IndexPage<'_>>, AllocError>
    ensures { IfOk result (λ read. option_map page_entry read ≡ page_in page.now) }
{
    let Some(title) = title_in(page) else {
        return Ok(None);
    };
    match rows_in(alloc, page)? {
        Some(rows) => Ok(Some(IndexPage { title, rows })),
        None => Ok(None),
    }
}

/// Returns the byte for which an entity is written, given the text after its `&`, and how many bytes it has after the `&`.
fn entity(after: &[u8]) -> (u8, usize)
    ensures { result ≡ entity after.now }
{
    if begins("amp;", after) {
        return (b'&', 4);
    }
    if begins("lt;", after) {
        return (b'<', 3);
    }
    if begins("gt;", after) {
        return (b'>', 3);
    }
    if begins("quot;", after) {
        return (b'"', 5);
    }
    if begins("#39;", after) {
        return (b'\'', 4);
    }
    (b'&', 0)
}

/// Returns the byte that a byte of a page shows, given the text after it, and how many bytes of that text belong to it.
fn shown_by(byte: u8, after: &[u8]) -> (u8, usize)
    ensures { result ≡ shown_by byte after.now }
{
    if byte == b'&' {
        return entity(after);
    }
    (byte, 0)
}

/// Returns the text that a page shows by the given one, which may have entities.
pub(crate) fn unescaped(alloc: Global, text: &[u8]) -> Result<Vec<u8>, AllocError>
    ensures { IfOk result (λ bytes. bytes.items ≡ unescaped text.now) }
{
    let mut bytes = Vec::new(alloc);
    let mut passed = 0;
    for i in 0..text.len() {
        if passed > 0 {
            passed -= 1;
            continue;
        }
        let (byte, more) = shown_by(text[i], &text[i + 1..]);
        bytes.push(byte)?;
        passed = more;
    }
    Ok(bytes)
}
