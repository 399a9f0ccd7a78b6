//! Splitting texts into lines, and lines into words.

ghost use Rattle.std.specs.Prelude.{◌≡◌, [], IfOk, OnOk, map, option_map};
ghost use Rattle.desk.specs.Lexing.{lexer_entry};
ghost use Rattle.desk.specs.Scripts.{behind_byte_order_mark, cut_byte, cut_open, is_blank, is_quote, lines_of, moved_to, part_read, passes_over, whole_lines};
ghost use Rattle.desk.specs.Scripts.{with_byte, with_word, words_cut, words_of};

use std::alloc::{AllocError, Global};
use std::mem;

/// The context of the next byte of a line.
#[derive(Clone, Copy)]
pub(crate) enum LexerState {
    /// Between two words.
    Between,
    /// Inside a word, outside quotes.
    Within,
    /// Inside a word, between two quotes of this kind.
    Quoted(u8),
}

/// The state of splitting a line: its complete words, the current word, and the context of the next byte.
#[derive(Drop)]
struct Lexer {
    words: Vec<Vec<u8>>,
    word: Vec<u8>,
    place: LexerState,
}

/// Returns true for whitespace within a line: a space, a tab, or a carriage return, which may precede a line feed.
fn is_blank(byte: u8) -> bool
    ensures { result ≡ is_blank byte }
{
    byte == b' ' || (byte == b'\t' || byte == b'\r')
}

/// Returns true for either kind of quote.
fn is_quote(byte: u8) -> bool
    ensures { result ≡ is_quote byte }
{
    byte == b'"' || byte == b'\''
}

impl Lexer {
    /// Returns the state at the beginning of a line.
    fn new(alloc: Global) -> Lexer
        ensures { lexer_entry result ≡ record { words = []; word = []; place = LexerState.Between } }
    {
        Lexer {
            words: Vec::new(alloc),
            word: Vec::new(alloc),
            place: LexerState::Between,
        }
    }

    /// Ends the current word.
    fn end_word(&mut self, alloc: Global) -> Result<(), AllocError>
        ensures { OnOk result (lexer_entry self.new ≡ with_word (lexer_entry self.old)) }
    {
        let word = mem::replace(&mut self.word, Vec::new(alloc));
        self.words.push(word)?;
        self.place = LexerState::Between;
        Ok(())
    }

    /// Appends a byte to the current word.
    fn add(&mut self, byte: u8) -> Result<(), AllocError>
        ensures { OnOk result (lexer_entry self.new ≡ with_byte (lexer_entry self.old) byte) }
    {
        self.word.push(byte)?;
        Ok(())
    }

    /// Processes a non-whitespace byte outside quotes.
    fn cut_open(&mut self, byte: u8) -> Result<(), AllocError>
        ensures { OnOk result (lexer_entry self.new ≡ cut_open (lexer_entry self.old) byte) }
    {
        if is_quote(byte) {
            self.place = LexerState::Quoted(byte);
            return Ok(());
        }
        self.add(byte)?;
        self.place = LexerState::Within;
        Ok(())
    }

    /// Processes a byte.
    fn cut(&mut self, alloc: Global, byte: u8) -> Result<(), AllocError>
        ensures { OnOk result (lexer_entry self.new ≡ cut_byte (lexer_entry self.old) byte) }
    {
        match self.place {
            LexerState::Quoted(quote) if byte == quote => {
                self.place = LexerState::Within;
                Ok(())
            }
            LexerState::Quoted(_) => self.add(byte),
            LexerState::Between if is_blank(byte) => Ok(()),
            LexerState::Within if is_blank(byte) => self.end_word(alloc),
            LexerState::Between | LexerState::Within => self.cut_open(byte),
        }
    }

    /// Returns the words of the line after all its bytes have been processed; None if a quote isn't closed.
    fn into_words(mut self, alloc: Global) -> Result<Option<Vec<Vec<u8>>>, AllocError>
        ensures { IfOk result (λ words. option_map (λ ws. map (λ w. w.items) ws.items) words ≡ words_cut (lexer_entry self)) }
    {
        match self.place {
            LexerState::Between => Ok(Some(self.words)),
            LexerState::Within => {
                self.end_word(alloc)?;
                Ok(Some(self.words))
            }
            LexerState::Quoted(_) => Ok(None),
        }
    }
}

/// Splits a line into words. Returns None if a quote isn't closed.
///
/// Words are separated by whitespace outside quotes. A quoted part, `"..."` or `'...'`, may begin inside a word, and its quotes
/// aren't part of the word. There are no escapes.
pub(crate) fn words_of(alloc: Global, line: &[u8]) -> Result<Option<Vec<Vec<u8>>>, AllocError>
    ensures { IfOk result (λ words. option_map (λ ws. map (λ w. w.items) ws.items) words ≡ words_of line.now) }
{
    let mut cutter = Lexer::new(alloc);
    for byte in line {
        cutter.cut(alloc, *byte)?;
    }
    cutter.into_words(alloc)
}

/// Returns true if a line is skipped: it consists only of whitespace, or its first non-whitespace byte is `#`.
pub(crate) fn passes_over(line: &[u8]) -> bool
    ensures { result ≡ passes_over line.now }
{
    for byte in line {
        if !is_blank(*byte) {
            return *byte == b'#';
        }
    }
    true
}

/// Returns a text without its byte order mark, if it has one.
pub(crate) fn behind_byte_order_mark(text: &[u8]) -> &[u8]
    ensures { result.now ≡ behind_byte_order_mark text.now }
{
    match text {
        [0xef, 0xbb, 0xbf, rest @ ..] => rest,
        _ => text,
    }
}

/// Returns the whole lines of a text: the text up to and including its last line feed.
pub(crate) fn whole_lines(text: &[u8]) -> &[u8]
    ensures { result.now ≡ whole_lines text.now }
{
    let mut end = 0;
    for i in 0..text.len() {
        if text[i] == b'\n' {
            end = i + 1;
        }
    }
    &text[..end]
}

/// Returns the part of a text that is read: all of it, or only its whole lines if its last line was cut.
pub(crate) fn part_read(text: &[u8], cut: bool) -> &[u8]
    ensures { result.now ≡ part_read cut text.now }
{
    if cut { whole_lines(text) } else { text }
}

/// Splits a text into lines. A line feed ends a line, and a byte order mark at the beginning is skipped.
pub(crate) fn lines_of(alloc: Global, text: &[u8]) -> Result<Vec<Vec<u8>>, AllocError>
    ensures { IfOk result (λ lines. map (λ line. line.items) lines.items ≡ lines_of text.now) }
{
    let mut lines = Vec::new(alloc);
    let mut line = Vec::new(alloc);
    for byte in behind_byte_order_mark(text) {
        if *byte == b'\n' {
            lines.push(mem::replace(&mut line, Vec::new(alloc)))?;
        } else {
            line.push(*byte)?;
        }
    }
    lines.push(line)?;
    Ok(lines)
}
