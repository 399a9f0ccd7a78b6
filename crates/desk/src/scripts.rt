//! Scripts: texts with one order per line, parsed into errands.

ghost use Rattle.std.specs.Prelude.{◌≡◌, false, map, IfErr, IfNone, IfOk, IfSome, Some};
ghost use Rattle.desk.specs.Lexing.{IsFaultOfLine, IsFaultOfLines, line_entry, typed_line_entry, said_words};
ghost use Rattle.desk.specs.Scripts.{AreTurns, IsFlawOfWords, IsStep, Means, line_flaw_text, lines_of, numbered_from, is_allowed_in_script, typed, typed_line};

use crate::lexer;
use crate::orders::{Errand, Job, Order, Task};
use crate::words::{BAD_DIGEST, BAD_FORM, BAD_ORIGIN, BAD_TITLE, WordsFault, order};
use std::alloc::{AllocError, Global};
use std::str;

/// The reason why a line has no words.
#[derive(Clone, Copy)]
pub(crate) enum Garbled {
    /// A quote isn't closed.
    Quote,
    /// A word isn't UTF-8.
    NotUtf8,
}

/// What is wrong with a line of a script.
#[derive(Drop)]
pub(crate) enum LineFlaw {
    /// The line can't be split into words.
    NoWords(Garbled),
    /// The word for a verdict is invalid.
    Verdict,
    /// The word after `--origin` is invalid.
    Origin,
    /// The word after `--sha256` is invalid.
    Digest,
    /// `--title` is given without `--public`.
    TitleAlone,
    /// The words after `forms` name no form.
    Form,
    /// The words aren't an order. This text is printed for them.
    Words(String),
    /// The order isn't allowed in a script.
    Elsewhere,
}

impl LineFlaw {
    /// Returns the error message for this flaw.
    pub(crate) fn text(&self) -> &str
        ensures { result.now ≡ line_flaw_text self.now }
    {
        match self {
            LineFlaw::NoWords(Garbled::Quote) => "error: a quote is not closed\n",
            LineFlaw::NoWords(Garbled::NotUtf8) => "error: a word is not UTF-8\n",
            LineFlaw::Verdict => "bad verdict word\n",
            LineFlaw::Origin => BAD_ORIGIN,
            LineFlaw::Digest => BAD_DIGEST,
            LineFlaw::TitleAlone => BAD_TITLE,
            LineFlaw::Form => BAD_FORM,
            LineFlaw::Words(text) => text.as_str(),
            LineFlaw::Elsewhere => "error: this order can't be used in a script\n",
        }
    }
}

/// The reason why a text isn't a script.
#[derive(Drop)]
pub(crate) enum ScriptFault {
    /// An allocation failed.
    Memory,
    /// The line with this number has this flaw.
    ScriptLine(usize, LineFlaw),
}

/// A line that isn't skipped: its number, starting from 1, and its words; None if a quote isn't closed.
#[derive(Drop)]
pub(crate) struct ScriptLine {
    number: usize,
    words: Option<Vec<Vec<u8>>>,
}

/// A line as it would be typed after the program's name.
#[derive(Drop)]
pub(crate) struct TypedLine<'a> {
    number: usize,
    words: Result<Vec<&'a str>, Garbled>,
}

/// An errand to run, and its line number if it is from a script.
#[derive(Drop)]
pub(crate) struct ScriptStep<'a> {
    pub(crate) line: Option<usize>,
    pub(crate) errand: Errand<'a>,
}

/// Returns the lines that aren't skipped, with their numbers.
fn numbered(alloc: Global, all: &[Vec<u8>]) -> Result<Vec<ScriptLine>, AllocError>
    ensures { IfOk result (λ lines. map line_entry lines.items ≡ numbered_from 1 (map (λ line. line.items) all.now)) }
{
    let mut lines = Vec::new(alloc);
    for (i, line) in all.iter().enumerate() {
        if !lexer::passes_over(line) {
            lines.push(ScriptLine {
                number: i + 1,
                words: lexer::words_of(alloc, line)?,
            })?;
        }
    }
    Ok(lines)
}

/// Returns the lines of a text that aren't skipped, with their numbers.
pub(crate) fn lines_in(alloc: Global, text: &[u8]) -> Result<Vec<ScriptLine>, AllocError>
    ensures { IfOk result (λ lines. map line_entry lines.items ≡ numbered_from 1 (lines_of text.now)) }
{
    numbered(alloc, &lexer::lines_of(alloc, text)?)
}

/// Returns words as they would be typed, or that one of them isn't UTF-8.
fn texts_of<'a>(
    alloc: Global,
    words: &'a [Vec<u8>],
) -> Result<Result<Vec<&'a str>, Garbled>, AllocError>
    ensures { IfOk result (λ texts. said_words texts ≡ typed (Some (map (λ w. w.items) words.now))) }
{
    let mut texts = vec![in alloc; "DB"]?;
    for word in words {
        match str::from_utf8(word) {
            Ok(text) => texts.push(text)?,
            Err(_) => return Ok(Err(Garbled::NotUtf8)),
        }
    }
    Ok(Ok(texts))
}

/// Returns a line as it would be typed.
fn as_typed<'a>(alloc: Global, line: &'a ScriptLine) -> Result<TypedLine<'a>, AllocError>
    ensures { IfOk result (λ said. typed_line_entry said ≡ typed_line (line_entry line.now)) }
{
    let words = match &line.words {
        Some(words) => texts_of(alloc, words)?,
        None => Err(Garbled::Quote),
    };
    Ok(TypedLine {
        number: line.number,
        words,
    })
}

/// Returns lines as they would be typed.
pub(crate) fn typed_lines<'a>(
    alloc: Global,
    lines: &'a [ScriptLine],
) -> Result<Vec<TypedLine<'a>>, AllocError>
    ensures { IfOk result (λ all. map typed_line_entry all.items ≡ map typed_line (map line_entry lines.now)) }
{
    let mut all = Vec::new(alloc);
    for line in lines {
        all.push(as_typed(alloc, line)?)?;
    }
    Ok(all)
}

/// Returns the errand of an order, if it has one.
fn errand_of(order: Order<'_>) -> Option<Errand<'_>>
    ensures some { IfSome result (λ errand. order.entry ≡ Order.Perform (Task.InOffice (Job.Run errand))) }
    ensures none { IfNone result (is_allowed_in_script order.entry ≡ false) }
{
    match order {
        Order::Perform(Task::InOffice(Job::Run(errand))) => Some(errand),
        Order::Perform(Task::InOffice(Job::Replay(_))) => None,
        Order::Perform(Task::Init | Task::Migrate) => None,
        Order::Copy { .. } | Order::Journal | Order::Mend(_) | Order::Serve { .. } => None,
        Order::Second { .. } | Order::Codes { .. } | Order::Slips { .. } => None,
        Order::Publish(_) => None,
    }
}

/// Returns the errand that the given words mean, or what is wrong with them. The error is None if an allocation failed.
fn errand_in<'a>(alloc: Global, words: &'a [&'a str]) -> Result<Errand<'a>, Option<LineFlaw>>
    ensures ok { IfOk result (λ errand. Means (map (λ s. s.now) words.entry.now) errand) }
    ensures err { IfErr result (λ why. IfSome why (λ flaw. IsFlawOfWords (map (λ s. s.now) words.entry.now) flaw)) }
{
    match order(alloc, words) {
        Ok(order) => match errand_of(order) {
            Some(errand) if errand.sends() => Ok(errand),
            Some(_) => Err(Some(LineFlaw::Elsewhere)),
            None => Err(Some(LineFlaw::Elsewhere)),
        },
        Err(WordsFault::Memory) => Err(None),
        Err(WordsFault::Verdict) => Err(Some(LineFlaw::Verdict)),
        Err(WordsFault::Origin) => Err(Some(LineFlaw::Origin)),
        Err(WordsFault::Digest) => Err(Some(LineFlaw::Digest)),
        Err(WordsFault::TitleAlone) => Err(Some(LineFlaw::TitleAlone)),
        Err(WordsFault::Form) => Err(Some(LineFlaw::Form)),
        Err(WordsFault::Words { status: 0, .. }) => Err(Some(LineFlaw::Elsewhere)),
        Err(WordsFault::Words { text, .. }) => Err(Some(LineFlaw::Words(text))),
    }
}

/// Returns the step that a line means, or what is wrong with the line.
fn turn_in<'a, 'b>(alloc: Global, said: &'a TypedLine<'b>) -> Result<ScriptStep<'a>, ScriptFault>
    ensures ok { IfOk result (λ turn. IsStep (typed_line_entry said.entry.now) turn) }
    ensures err { IfErr result (λ fault. IsFaultOfLine (typed_line_entry said.entry.now) fault) }
{
    let words = match &said.words {
        Ok(words) => words,
        Err(why) => return Err(ScriptFault::ScriptLine(said.number, LineFlaw::NoWords(*why))),
    };
    match errand_in(alloc, words) {
        Ok(errand) => Ok(ScriptStep {
            line: Some(said.number),
            errand,
        }),
        Err(Some(flaw)) => Err(ScriptFault::ScriptLine(said.number, flaw)),
        Err(None) => Err(ScriptFault::Memory),
    }
}

/// Returns the steps of a script, one per line, or what is wrong with the first line that isn't a step.
pub(crate) fn script_steps<'a, 'b>(
    alloc: Global,
    lines: &'a [TypedLine<'b>],
) -> Result<Vec<ScriptStep<'a>>, ScriptFault>
    ensures ok { IfOk result (λ turns. AreTurns (map typed_line_entry lines.entry.now) turns.items) }
    ensures err { IfErr result (λ fault. IsFaultOfLines (map typed_line_entry lines.entry.now) fault) }
{
    let mut turns = Vec::new(alloc);
    for line in lines {
        match turn_in(alloc, line) {
            Ok(turn) => {
                if turns.push(turn).is_err() {
                    return Err(ScriptFault::Memory);
                }
            }
            Err(fault) => return Err(fault),
        }
    }
    Ok(turns)
}
