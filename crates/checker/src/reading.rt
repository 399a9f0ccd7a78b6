//! Reading ballots line by line.

ghost use Rattle.std.specs.Prelude.{◌≡◌, ◌+◌, ◌<◌, ◌≤◌, map, length, IfOk, IfErr, OnOk, Ok};
ghost use Rattle.paper.specs.Columns.{max_candidates};
ghost use Rattle.checker.specs.ForeignComments.{behind_number_sign};
ghost use Rattle.checker.specs.Outcomes.{outcome, told_as};
ghost use Rattle.checker.specs.Reading.{at_end, before_comment, is_end_line, is_withdrawn_line, nothing_told, on_line, read};
ghost use Rattle.checker.specs.Reading.{words_before_comment, with_content_at, with_line, with_name_line, with_papers_line, with_size_line, with_withdrawn_line};
ghost use Rattle.checker.specs.Values.{IsFlawOf, ballots_of, reading_of};

use crate::file_content::{CandidateNames, Comments, NextLine, PaperTotals, Reader, WardBallots};
use crate::foreign_comments::skip_foreign;
use crate::names::name_in;
use crate::problem::{BallotsFlaw, Problem};
use crate::ranks::is_zero;
use crate::tally::Tally;
use crate::tokens::{LineKind, Separator, behind_byte_order_mark, kind_of, pieces_of};
use paper::Columns;
use std::alloc::{AllocError, Global};

/// Splits a line of numbers at the `#` that begins its comment, and returns what precedes and what follows it. Without a comment
/// nothing follows.
fn split_comment(line: &[u8]) -> (&[u8], &[u8])
    ensures before { result.0.now ≡ before_comment line.now }
    ensures behind { result.1.now ≡ behind_number_sign line.now }
{
    for i in 0..line.len() {
        if line[i] == b'#' {
            return (&line[..i], &line[i + 1..]);
        }
    }
    (line, &[])
}

/// Returns the words of a line of numbers, without its comment if there is one.
fn words_before_comment(
    alloc: Global,
    line: &[u8],
) -> Result<Result<Vec<&[u8]>, BallotsFlaw>, AllocError>
    ensures { IfOk result (λ told. told_as (λ words. map (λ w. w.now) words.items) told ≡ words_before_comment line.now) }
{
    let (numbers, comment) = split_comment(line);
    if let Err(flaw) = skip_foreign(comment) {
        return Ok(Err(flaw));
    }
    Ok(Ok(pieces_of(alloc, Separator::Blank, numbers)?))
}

/// Returns whether the line of numbers is the `0` that ends the papers.
fn is_end_line(words: &[&[u8]]) -> bool
    ensures { result ≡ is_end_line (map (λ w. w.now) words.now) }
{
    match words {
        [word] => is_zero(word),
        _ => false,
    }
}

/// Returns whether the line of numbers begins with a minus.
fn is_withdrawn_line(words: &[&[u8]]) -> bool
    ensures { result ≡ is_withdrawn_line (map (λ w. w.now) words.now) }
{
    match words {
        [[byte, ..], ..] => *byte == b'-',
        _ => false,
    }
}

impl Reader {
    /// Returns a reader that has read nothing yet.
    fn new(alloc: Global) -> Reader
        ensures { reading_of result ≡ nothing_told }
    {
        Reader {
            place: NextLine::Size,
            papers: PaperTotals {
                highest: 0,
                seats: 1,
                withdrawn: Columns::empty(),
                bundles: Tally::new(alloc),
            },
            names: CandidateNames {
                names: Vec::new(alloc),
                ward: String::new(alloc),
            },
            comments: Comments {
                ward: None,
                rejected: None,
                lots: Vec::new(alloc),
            },
        }
    }

    /// Processes the first line of numbers.
    fn take_size_line(&mut self, words: &[&[u8]]) -> Result<(), BallotsFlaw>
        ensures { outcome result (reading_of self.new) ≡ with_size_line (reading_of self.old) (map (λ w. w.now) words.now) }
    {
        self.papers.take_size(words)?;
        self.place = NextLine::Withdrawn;
        Ok(())
    }

    /// Processes a line of papers, or the line that ends them.
    fn take_papers_line(
        &mut self,
        alloc: Global,
        words: &[&[u8]],
    ) -> Result<Result<(), BallotsFlaw>, AllocError>
        ensures { IfOk result (λ told. outcome told (reading_of self.new) ≡ with_papers_line (reading_of self.old) (map (λ w. w.now) words.now)) }
    {
        if is_end_line(words) {
            self.place = NextLine::CandidateNames;
            return Ok(Ok(()));
        }
        if let Err(flaw) = self.papers.take_bundle(alloc, words)? {
            return Ok(Err(flaw));
        }
        self.place = NextLine::PaperTotals;
        Ok(Ok(()))
    }

    /// Processes a line of withdrawn candidates, or a line of papers.
    fn take_withdrawn_line(
        &mut self,
        alloc: Global,
        words: &[&[u8]],
    ) -> Result<Result<(), BallotsFlaw>, AllocError>
        requires { self.old.place ≡ NextLine.Withdrawn }
        ensures { IfOk result (λ told. outcome told (reading_of self.new) ≡ with_withdrawn_line (reading_of self.old) (map (λ w. w.now) words.now)) }
    {
        if is_withdrawn_line(words) {
            return Ok(self.papers.take_withdrawn(words));
        }
        self.take_papers_line(alloc, words)
    }

    /// Processes a name.
    fn take_name_line(
        &mut self,
        alloc: Global,
        line: &[u8],
    ) -> Result<Result<(), BallotsFlaw>, AllocError>
        requires { self.old.place ≡ NextLine.CandidateNames }
        ensures { IfOk result (λ told. outcome told (reading_of self.new) ≡ with_name_line (reading_of self.old) line.now) }
    {
        let name = match name_in(alloc, line)? {
            Ok(name) => name,
            Err(flaw) => return Ok(Err(flaw)),
        };
        if self.names.names.len() < usize::from(self.papers.highest) {
            self.names.names.push(name)?;
        } else {
            self.names.ward = name;
            self.place = NextLine::End;
        }
        Ok(Ok(()))
    }

    /// Processes a line with content.
    fn take_content(
        &mut self,
        alloc: Global,
        line: &[u8],
    ) -> Result<Result<(), BallotsFlaw>, AllocError>
        ensures { IfOk result (λ told. outcome told (reading_of self.new) ≡ with_content_at self.old.place (reading_of self.old) line.now) }
    {
        match self.place {
            NextLine::CandidateNames => return self.take_name_line(alloc, line),
            NextLine::End => return Ok(Err(BallotsFlaw::BehindName)),
            NextLine::Size | NextLine::Withdrawn | NextLine::PaperTotals => {}
        }
        let words = match words_before_comment(alloc, line)? {
            Ok(words) => words,
            Err(flaw) => return Ok(Err(flaw)),
        };
        match self.place {
            NextLine::Size => Ok(self.take_size_line(&words)),
            NextLine::Withdrawn => self.take_withdrawn_line(alloc, &words),
            _ => self.take_papers_line(alloc, &words),
        }
    }

    /// Processes a line.
    fn take_line(
        &mut self,
        alloc: Global,
        line: &[u8],
    ) -> Result<Result<(), BallotsFlaw>, AllocError>
        ensures { IfOk result (λ told. outcome told (reading_of self.new) ≡ with_line (reading_of self.old) line.now) }
    {
        match kind_of(line) {
            LineKind::Empty => Ok(Ok(())),
            LineKind::Comment => self.comments.take(alloc, line),
            LineKind::Content => self.take_content(alloc, line),
        }
    }

    /// Processes the line with the given number.
    fn take_numbered(&mut self, alloc: Global, number: u64, line: &[u8]) -> Result<(), Problem>
        ensures ok { OnOk result (with_line (reading_of self.old) line.now ≡ Ok (reading_of self.new)) }
        ensures err { IfErr result (λ problem. IsFlawOf (on_line number (with_line (reading_of self.old) line.now) (λ more. Ok more)) problem) }
    {
        match self.take_line(alloc, line) {
            Ok(Ok(())) => Ok(()),
            Ok(Err(flaw)) => Err(Problem::Line { line: number, flaw }),
            Err(_) => Err(Problem::Memory),
        }
    }

    /// Returns the ballots of a file that has been read to its end.
    pub(crate) fn into_ballots(self) -> Result<WardBallots, AllocError>
        ensures { IfOk result (λ ballots. ballots_of ballots ≡ reading_of self) }
    {
        Ok(WardBallots {
            place: self.place,
            highest: self.papers.highest,
            seats: self.papers.seats,
            withdrawn: self.papers.withdrawn,
            bundles: self.papers.bundles.into_bundles()?,
            names: self.names,
            comments: self.comments,
        })
    }

    /// Checks that the file may end here. The error is the flaw.
    fn at_end(&self) -> Result<(), BallotsFlaw>
        ensures { outcome result (reading_of self.now) ≡ at_end self.now.place (reading_of self.now) }
    {
        match self.place {
            NextLine::Size => Err(BallotsFlaw::NoSize),
            NextLine::Withdrawn | NextLine::PaperTotals => Err(BallotsFlaw::NoEnd),
            NextLine::CandidateNames => Err(BallotsFlaw::NamesWanting),
            NextLine::End => Ok(()),
        }
    }
}

/// Reads the lines of a file. The problem is the first of them that isn't understood, or a failed allocation.
// Each line is read where it is in the file: a list of a million lines would take as much memory as the file.
fn read_lines(alloc: Global, bytes: &[u8]) -> Result<Reader, Problem>
    ensures ok { IfOk result (λ reader. read bytes.now ≡ Ok (reading_of reader)) }
    ensures err { IfErr result (λ problem. IsFlawOf (read bytes.now) problem) }
{
    let text = behind_byte_order_mark(bytes);
    let mut reader = Reader::new(alloc);
    let mut lines: u64 = 0;
    let mut start = 0;
    for i in 0..text.len() {
        if text[i] != b'\n' {
            continue;
        }
        if let Err(problem) = reader.take_numbered(alloc, lines + 1, &text[start..i]) {
            return Err(problem);
        }
        lines += 1;
        start = i + 1;
    }
    if let Err(problem) = reader.take_numbered(alloc, lines + 1, &text[start..]) {
        return Err(problem);
    }
    match reader.at_end() {
        Ok(()) => Ok(reader),
        Err(flaw) => Err(Problem::Line {
            line: lines + 1,
            flaw,
        }),
    }
}

/// Reads a file. The problem is the first of its lines that isn't understood, or a failed allocation.
pub(crate) fn read(alloc: Global, bytes: &[u8]) -> Result<WardBallots, Problem>
    ensures ok { IfOk result (λ ballots. read bytes.now ≡ Ok (ballots_of ballots)) }
    ensures err { IfErr result (λ problem. IsFlawOf (read bytes.now) problem) }
{
    let reader = match read_lines(alloc, bytes) {
        Ok(reader) => reader,
        Err(problem) => return Err(problem),
    };
    match reader.into_ballots() {
        Ok(ballots) => Ok(ballots),
        Err(_) => Err(Problem::Memory),
    }
}
