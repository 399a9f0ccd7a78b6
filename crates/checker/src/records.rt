//! Reading cast-vote records: comma-separated values with a candidate or a rank in each column.

ghost use Rattle.std.specs.Prelude.{◌≡◌, ◌<◌, ◌≤◌, Ok, [], length, map, string_bytes, IfOk, IfErr, OnOk};
ghost use Rattle.std.specs.List.{range_with_len};
ghost use Rattle.paper.specs.Columns.{max_candidates};
ghost use Rattle.paper.specs.Preferences.{rejection_of};
ghost use Rattle.paper.specs.Ranking.{IsRanking};
ghost use Rattle.votes.specs.Units.{max_seats};
ghost use Rattle.checker.specs.FewColumns.{AreFewColumns};
ghost use Rattle.checker.specs.Outcomes.{outcome, told_as};
ghost use Rattle.checker.specs.RecordViews.{columns_told, records_told, ward_told};
ghost use Rattle.checker.specs.Records.{after_comma, as_read, before_comma, nothing_recorded, papers_for, read_records, records_from, with_columns, with_counted, with_header};
ghost use Rattle.checker.specs.Records.{with_judged, with_keyed, with_line, with_marks, with_papers, with_preferences, with_ranks, with_record, with_rejected, without_return};
ghost use Rattle.checker.specs.Reading.{on_line};
ghost use Rattle.checker.specs.Tokens.{lines_of};
ghost use Rattle.checker.specs.Values.{IsFlawOf, ballots_of, reading_of, told_of};

use crate::file_content::{
    CandidateNames, Comments, Header, NextLine, PaperTotals, Reader, RecordColumns, Records,
    WardBallots,
};
use crate::papers::papers_in;
use crate::problem::{BallotsFlaw, Problem};
use crate::rank_fields::ranked_in;
use crate::records_header::header_in;
use crate::records_ward::RecordsWard;
use crate::tally::Tally;
use crate::tokens::{LineKind, behind_byte_order_mark, kind_of};
use paper::{Columns, Keyed, MarkFault, Marked, Marks, Rejection, judge};
use std::alloc::{AllocError, Global};

/// Returns the bytes of a line before its first comma.
fn before_comma(line: &[u8]) -> &[u8]
    ensures { result.now ≡ before_comma line.now }
{
    for i in 0..line.len() {
        if line[i] == b',' {
            return &line[..i];
        }
    }
    line
}

/// Returns the bytes of a line after its first comma.
fn after_comma(line: &[u8]) -> &[u8]
    ensures { result.now ≡ after_comma line.now }
{
    for i in 0..line.len() {
        if line[i] == b',' {
            return &line[i + 1..];
        }
    }
    &[]
}

/// Returns a line without the carriage return at its end, if there is one.
fn without_return(line: &[u8]) -> &[u8]
    ensures { result.now ≡ without_return line.now }
{
    match line.last() {
        Some(byte) if *byte == b'\r' => &line[..line.len() - 1],
        _ => line,
    }
}

/// Returns the set of the candidate numbers 1 to `names`.
fn columns_of(names: usize) -> Columns
    requires { names ≤ max_candidates }
    ensures { result ≡ range_with_len 1 names }
{
    let mut columns = Columns::empty();
    for below in 0..names as u8 {
        columns = columns.with(below + 1);
    }
    columns
}

/// Returns the given names of a ward's candidates.
fn names_of(alloc: Global, candidates: &[&str]) -> Result<Vec<String>, AllocError>
    ensures { IfOk result (λ names. map string_bytes names.items ≡ map (λ c. c.now) candidates.now) }
{
    let mut names = Vec::new(alloc);
    for name in candidates {
        names.push(String::from_str(alloc, name)?)?;
    }
    Ok(names)
}

impl Records {
    /// Returns the records of a ward before the first line.
    fn new(alloc: Global, ward: &RecordsWard) -> Result<Records, AllocError>
        ensures { IfOk result (λ records. records_told records ≡ nothing_recorded (ward_told ward.now)) }
    {
        let names = names_of(alloc, &ward.candidates)?;
        Ok(Records {
            headed: false,
            counted: false,
            ranks: None,
            names,
            papers: papers_for(alloc, ward.seats, 0),
            rejected: [0; 5],
        })
    }

    /// Stores the columns.
    fn take_columns(&mut self, alloc: Global, counted: bool, columns: RecordColumns)
        requires { AreFewColumns columns }
        ensures { records_told self.new ≡ with_columns (records_told self.old) counted (columns_told columns) }
    {
        match columns {
            RecordColumns::Candidates(names) => {
                self.papers = papers_for(alloc, self.papers.seats, names.len() as u8);
                self.names = names;
                self.ranks = None;
            }
            RecordColumns::Ranks(ranks) => {
                self.papers = papers_for(alloc, self.papers.seats, self.names.len() as u8);
                self.ranks = Some(ranks);
            }
        }
        self.counted = counted;
        self.headed = true;
    }

    /// Processes the first line.
    fn take_header(
        &mut self,
        alloc: Global,
        line: &[u8],
    ) -> Result<Result<(), BallotsFlaw>, AllocError>
        ensures { IfOk result (λ told. outcome told (records_told self.new) ≡ with_header (records_told self.old) line.now) }
    {
        let header = match header_in(alloc, self.names.is_empty(), line)? {
            Ok(header) => header,
            Err(flaw) => return Ok(Err(flaw)),
        };
        let Header { counted, columns } = header;
        self.take_columns(alloc, counted, columns);
        Ok(Ok(()))
    }

    /// Adds rejected papers under code k + 1.
    fn add_rejected(&mut self, papers: u32, k: usize) -> Result<(), BallotsFlaw>
        requires { k < 5 }
        ensures { outcome result (records_told self.new) ≡ with_rejected (records_told self.old) papers k }
    {
        match self.rejected[k].checked_add(papers) {
            Some(more) => {
                self.rejected[k] = more;
                Ok(())
            }
            None => Err(BallotsFlaw::TooManyPapers),
        }
    }

    /// Adds papers with the given marks, as valid or rejected papers.
    fn add_marked(
        &mut self,
        papers: u32,
        marked: &Marked,
    ) -> Result<Result<(), BallotsFlaw>, AllocError>
        requires { 1 ≤ papers }
        ensures { IfOk result (λ told. outcome told (records_told self.new) ≡ with_judged (records_told self.old) papers marked.now (rejection_of marked.now)) }
    {
        match judge(marked) {
            Ok(prefs) => self.papers.add(papers, prefs.as_slice()),
            Err(Rejection::NoFirstPreference) => Ok(self.add_rejected(papers, 0)),
            Err(Rejection::SeveralFirstPreferences) => Ok(self.add_rejected(papers, 1)),
            Err(_) => Ok(Err(BallotsFlaw::NotRank)),
        }
    }

    /// Adds papers as keyed. Doubtful papers are an error.
    fn add_keyed(
        &mut self,
        papers: u32,
        keyed: &Keyed,
    ) -> Result<Result<(), BallotsFlaw>, AllocError>
        requires { 1 ≤ papers }
        ensures { IfOk result (λ told. outcome told (records_told self.new) ≡ with_keyed (records_told self.old) papers (Ok keyed.now)) }
    {
        match keyed {
            Keyed::Doubtful => Ok(Err(BallotsFlaw::NotRank)),
            Keyed::Marked(marked) => self.add_marked(papers, marked),
        }
    }

    /// Adds papers, given the text of their marks.
    fn add_marks(&mut self, papers: u32, text: &[u8]) -> Result<Result<(), BallotsFlaw>, AllocError>
        requires { 1 ≤ papers }
        ensures { IfOk result (λ told. outcome told (records_told self.new) ≡ with_marks (records_told self.old) papers text.now) }
    {
        match Marks::read(text, columns_of(self.names.len())) {
            Ok(keyed) => self.add_keyed(papers, &keyed),
            Err(MarkFault::FieldCount) => Ok(Err(BallotsFlaw::FieldCount)),
            Err(MarkFault::NotANumber) | Err(MarkFault::TooLarge) => Ok(Err(BallotsFlaw::NotRank)),
        }
    }

    /// Adds papers with the given preferences; if there are none, the papers are rejected.
    fn add_preferences(
        &mut self,
        papers: u32,
        list: &[u8],
    ) -> Result<Result<(), BallotsFlaw>, AllocError>
        requires some { 1 ≤ papers }
        requires ranking { IsRanking list.now }
        ensures { IfOk result (λ told. outcome told (records_told self.new) ≡ with_preferences (records_told self.old) papers list.now) }
    {
        if list.is_empty() {
            return Ok(self.add_rejected(papers, 0));
        }
        self.papers.add(papers, list)
    }

    /// Adds papers, given the candidates in their rank columns.
    fn add_ranks(
        &mut self,
        alloc: Global,
        papers: u32,
        ranks: u8,
        text: &[u8],
    ) -> Result<Result<(), BallotsFlaw>, AllocError>
        requires { 1 ≤ papers }
        ensures { IfOk result (λ told. outcome told (records_told self.new) ≡ with_ranks (records_told self.old) papers ranks text.now) }
    {
        match ranked_in(alloc, &self.names, ranks, text)? {
            Ok(paper) => self.add_preferences(papers, paper.preferences()),
            Err(flaw) => Ok(Err(flaw)),
        }
    }

    /// Adds papers, given the fields of their line.
    fn add_papers(
        &mut self,
        alloc: Global,
        papers: u32,
        text: &[u8],
    ) -> Result<Result<(), BallotsFlaw>, AllocError>
        requires { 1 ≤ papers }
        ensures { IfOk result (λ told. outcome told (records_told self.new) ≡ with_papers (records_told self.old) papers text.now) }
    {
        match self.ranks {
            None => self.add_marks(papers, text),
            Some(ranks) => self.add_ranks(alloc, papers, ranks, text),
        }
    }

    /// Processes a line for one or more papers.
    fn take_record(
        &mut self,
        alloc: Global,
        line: &[u8],
    ) -> Result<Result<(), BallotsFlaw>, AllocError>
        ensures { IfOk result (λ told. outcome told (records_told self.new) ≡ with_record (records_told self.old) line.now) }
    {
        if !self.counted {
            return self.add_papers(alloc, 1, line);
        }
        if !line.contains(&b',') {
            return Ok(Err(BallotsFlaw::FieldCount));
        }
        match papers_in(before_comma(line)) {
            Ok(papers) => self.add_papers(alloc, papers, after_comma(line)),
            Err(flaw) => Ok(Err(flaw)),
        }
    }

    /// Processes a line.
    fn take(&mut self, alloc: Global, line: &[u8]) -> Result<Result<(), BallotsFlaw>, AllocError>
        ensures { IfOk result (λ told. outcome told (records_told self.new) ≡ with_line (records_told self.old) line.now) }
    {
        match kind_of(line) {
            LineKind::Empty => Ok(Ok(())),
            LineKind::Comment | LineKind::Content => {
                let line = without_return(line);
                if self.headed {
                    self.take_record(alloc, line)
                } else {
                    self.take_header(alloc, line)
                }
            }
        }
    }

    /// Processes the line with the given number.
    fn take_numbered(&mut self, alloc: Global, number: u64, line: &[u8]) -> Result<(), Problem>
        ensures ok { OnOk result (with_line (records_told self.old) line.now ≡ Ok (records_told self.new)) }
        ensures err { IfErr result (λ problem. IsFlawOf (on_line number (with_line (records_told self.old) line.now) (λ more. Ok more)) problem) }
    {
        match self.take(alloc, line) {
            Ok(Ok(())) => Ok(()),
            Ok(Err(flaw)) => Err(Problem::Line { line: number, flaw }),
            Err(_) => Err(Problem::Memory),
        }
    }

    /// Returns the reader that would have resulted if the ward's ballots, with the given name, had been read.
    fn into_reader(self, alloc: Global, name: String) -> Reader
        ensures { reading_of result ≡ as_read (string_bytes name) (records_told self) }
    {
        Reader {
            place: NextLine::End,
            papers: self.papers,
            names: CandidateNames {
                names: self.names,
                ward: name,
            },
            comments: Comments {
                ward: None,
                rejected: Some(self.rejected),
                lots: Vec::new(alloc),
            },
        }
    }
}

/// Returns a ward with the given candidates and seats, and no papers yet.
fn papers_for(alloc: Global, seats: u8, highest: u8) -> PaperTotals
    requires some { 1 ≤ seats }
    requires few { seats ≤ max_seats }
    requires candidates { highest ≤ max_candidates }
    ensures { told_of result ≡ record { highest = highest; seats = seats; withdrawn = []; bundles = [] } }
{
    PaperTotals {
        highest,
        seats,
        withdrawn: Columns::empty(),
        bundles: Tally::new(alloc),
    }
}

/// Reads the lines of a file. The problem is the first of them that isn't understood, or a failed allocation.
fn records_in(alloc: Global, ward: &RecordsWard, bytes: &[u8]) -> Result<Records, Problem>
    ensures ok { IfOk result (λ records. records_from 0 (nothing_recorded (ward_told ward.now)) (lines_of bytes.now) ≡ Ok (records_told records)) }
    ensures err { IfErr result (λ problem. IsFlawOf (records_from 0 (nothing_recorded (ward_told ward.now)) (lines_of bytes.now)) problem) }
{
    let Ok(mut records) = Records::new(alloc, ward) else {
        return Err(Problem::Memory);
    };
    let text = behind_byte_order_mark(bytes);
    let mut lines: u64 = 0;
    let mut start = 0;
    for i in 0..text.len() {
        if text[i] != b'\n' {
            continue;
        }
        if let Err(problem) = records.take_numbered(alloc, lines + 1, &text[start..i]) {
            return Err(problem);
        }
        lines += 1;
        start = i + 1;
    }
    if let Err(problem) = records.take_numbered(alloc, lines + 1, &text[start..]) {
        return Err(problem);
    }
    if records.headed {
        return Ok(records);
    }
    Err(Problem::Line {
        line: lines + 1,
        flaw: BallotsFlaw::NoColumns,
    })
}

/// Reads the records of a ward, with the same result as if its ballots had been read. The problem is the first line that isn't
/// understood, or a failed allocation.
pub(crate) fn read_records(
    alloc: Global,
    ward: &RecordsWard,
    bytes: &[u8],
) -> Result<WardBallots, Problem>
    ensures ok { IfOk result (λ ballots. read_records (ward_told ward.now) bytes.now ≡ Ok (ballots_of ballots)) }
    ensures err { IfErr result (λ problem. IsFlawOf (read_records (ward_told ward.now) bytes.now) problem) }
{
    let records = match records_in(alloc, ward, bytes) {
        Ok(records) => records,
        Err(problem) => return Err(problem),
    };
    let Ok(name) = String::from_str(alloc, ward.name) else {
        return Err(Problem::Memory);
    };
    match records.into_reader(alloc, name).into_ballots() {
        Ok(ballots) => Ok(ballots),
        Err(_) => Err(Problem::Memory),
    }
}
