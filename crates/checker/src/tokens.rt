//! Splitting a text into lines, and a line into words.

ghost use Rattle.std.specs.Prelude.{◌≡◌, ◌++◌, [], map, IfOk};
ghost use Rattle.checker.specs.Tokens.{behind_byte_order_mark, is_blank, kind_of, parts, piece, pieces_of};

use std::alloc::{AllocError, Global};

/// The number of pieces for which space is reserved at the start, enough for the words of a typical line. More pieces need further
/// allocations.
const USUAL_PIECES: usize = 16;

/// The separator at which a text is split.
#[derive(Clone, Copy)]
pub(crate) enum Separator {
    /// A line feed: the pieces are lines.
    LineFeed,
    /// A space, a tab, or a carriage return, such as before a line feed: the pieces are words.
    Blank,
    /// A space, a tab, a carriage return, a colon or a comma.
    Mark,
    /// An equals sign: the pieces are the candidates who share a rank.
    Equals,
    /// A colon: the pieces are the stage and the candidate of a lot.
    Colon,
}

/// The kind of a line.
#[derive(Clone, Copy)]
pub(crate) enum LineKind {
    /// Only blanks.
    Empty,
    /// A `#` after blanks.
    Comment,
    /// Something else.
    Content,
}

/// Returns whether the byte is a space, a tab, or a carriage return.
pub(crate) fn is_blank(byte: u8) -> bool
    ensures { result ≡ is_blank byte }
{
    byte == b' ' || (byte == b'\t' || byte == b'\r')
}

/// Returns whether the byte separates two pieces.
fn parts(separator: Separator, byte: u8) -> bool
    ensures { result ≡ parts separator byte }
{
    match separator {
        Separator::LineFeed => byte == b'\n',
        Separator::Blank => is_blank(byte),
        Separator::Mark => is_blank(byte) || (byte == b':' || byte == b','),
        Separator::Equals => byte == b'=',
        Separator::Colon => byte == b':',
    }
}

/// Appends one piece; an empty piece between two blanks isn't a word.
// Inlined into the loop of `pieces_of`, so that the list isn't handed over by memory for each word of a large file.
#[inline(always)]
fn with_piece<'a>(
    mut pieces: Vec<&'a [u8]>,
    separator: Separator,
    text: &'a [u8],
) -> Result<Vec<&'a [u8]>, AllocError>
    ensures { IfOk result (λ all. map (λ p. p.now) all.items ≡ map (λ p. p.now) pieces.entry.items ++ piece separator text.now) }
{
    match separator {
        Separator::LineFeed | Separator::Equals | Separator::Colon => pieces.push(text)?,
        Separator::Blank | Separator::Mark => {
            if !text.is_empty() {
                pieces.push(text)?;
            }
        }
    }
    Ok(pieces)
}

/// Splits a text into pieces.
pub(crate) fn pieces_of<'a>(
    alloc: Global,
    separator: Separator,
    text: &'a [u8],
) -> Result<Vec<&'a [u8]>, AllocError>
    ensures { IfOk result (λ pieces. map (λ p. p.now) pieces.items ≡ pieces_of separator [] text.now) }
{
    let mut pieces = Vec::with_capacity(alloc, USUAL_PIECES)?;
    let mut start = 0;
    for i in 0..text.len() {
        if !parts(separator, text[i]) {
            continue;
        }
        pieces = with_piece(pieces, separator, &text[start..i])?;
        start = i + 1;
    }
    with_piece(pieces, separator, &text[start..])
}

/// Returns a text without its leading byte order mark, if it has one.
pub(crate) fn behind_byte_order_mark(text: &[u8]) -> &[u8]
    ensures { result.now ≡ behind_byte_order_mark text.now }
{
    match text {
        [0xef, 0xbb, 0xbf, rest @ ..] => rest,
        _ => text,
    }
}

/// Returns the kind of a line.
pub(crate) fn kind_of(line: &[u8]) -> LineKind
    ensures { result ≡ kind_of line.now }
{
    for byte in line {
        if !is_blank(*byte) {
            return if *byte == b'#' {
                LineKind::Comment
            } else {
                LineKind::Content
            };
        }
    }
    LineKind::Empty
}
