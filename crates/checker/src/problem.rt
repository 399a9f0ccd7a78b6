//! Problems with ballots, and with checking against them.

ghost use Rattle.std.specs.Prelude.{◌≡◌};

use paper::Columns;
use std::error::Error;
use std::fmt;

/// The flaw in a line of the ballots.
#[derive(Clone, Copy, Debug)]
pub enum BallotsFlaw {
    /// The first line isn't two numbers.
    Size,
    /// There are no seats.
    NoSeat,
    /// A word isn't made of digits, or the word for a withdrawn candidate isn't a minus followed by a number.
    NotNumber,
    /// A number is out of range.
    TooLarge,
    /// A bundle has no papers.
    NoPapers,
    /// A candidate number is 0 or above the highest.
    NoSuchCandidate,
    /// A candidate appears twice among the preferences of a line.
    CandidateTwice,
    /// There is no single first preference among the candidates who aren't withdrawn.
    NoPreference,
    /// A line of papers doesn't end with 0, or has words after it.
    NoZero,
    /// There are more papers than a ward can have.
    TooManyPapers,
    /// There is no name in quotation marks, or there is something else next to it.
    NoName,
    /// A quotation mark isn't closed.
    OpenQuote,
    /// A name has more than 1,000 bytes.
    LongName,
    /// A name isn't UTF-8.
    NotUtf8,
    /// The line follows the name of the ward.
    BehindName,
    /// The comment doesn't contain a ward number.
    Ward,
    /// The comment doesn't contain the number of rejected papers for each code.
    Rejected,
    /// The comment doesn't contain a stage and a candidate.
    Lot,
    /// A comment begins with one of our words, but doesn't have our format.
    Astray,
    /// The comment repeats the subject of an earlier one.
    Twice,
    /// The file ends before its first line of numbers.
    NoSize,
    /// The file ends before the line `0` that follows the papers.
    NoEnd,
    /// The file ends before the name of the ward.
    NamesWanting,
    /// Only part of a field is in quotation marks.
    Field,
    /// The file ends before its first line.
    NoColumns,
    /// There is only one column.
    LoneColumn,
    /// A column has no name.
    NoColumnName,
    /// A column might be for something other than a candidate.
    NotCandidateColumn,
    /// A column isn't the one for the next rank.
    NotNextRank,
    /// There are more columns than a ward can have candidates.
    TooManyColumns,
    /// The number of fields differs from the number of columns.
    FieldCount,
    /// A field is neither empty nor a rank from 1 to 99.
    NotRank,
    /// A field is neither empty nor the name of a candidate.
    NotCandidate,
    /// A field could name several candidates.
    SeveralCandidates,
}

impl BallotsFlaw {
    ghost use Rattle.checker.specs.Texts.{flaw_text};

    /// Returns a description of the flaw.
    fn text(&self) -> &'static str
        ensures { result.now ≡ flaw_text self.now }
    {
        match self {
            BallotsFlaw::Size => "not the highest number of a candidate, and the seats",
            BallotsFlaw::NoSeat => "no seats",
            BallotsFlaw::NotNumber => "a word is not a number",
            BallotsFlaw::TooLarge => "a number is too large",
            BallotsFlaw::NoPapers => "no papers",
            BallotsFlaw::NoSuchCandidate => "no such candidate",
            BallotsFlaw::CandidateTwice => "a candidate twice",
            BallotsFlaw::NoPreference => "no first preference",
            BallotsFlaw::NoZero => "no 0 at the end",
            BallotsFlaw::TooManyPapers => "too many papers",
            BallotsFlaw::NoName => "not a name in quotation marks",
            BallotsFlaw::OpenQuote => "a quotation mark is not closed",
            BallotsFlaw::LongName => "a name is too long",
            BallotsFlaw::NotUtf8 => "a name is not UTF-8",
            BallotsFlaw::BehindName => "a line behind the ward's name",
            BallotsFlaw::Ward => "not the number of a ward",
            BallotsFlaw::Rejected => "not the rejected papers of each code",
            BallotsFlaw::Lot => "not the lot of a stage",
            BallotsFlaw::Astray => {
                "a comment that begins with Ward, Rejected or Lot, but is not written as ours are"
            }
            BallotsFlaw::Twice => "given a second time",
            BallotsFlaw::NoSize => "the file ends before the candidates and seats",
            BallotsFlaw::NoEnd => "the file ends before the line 0 behind the papers",
            BallotsFlaw::NamesWanting => "the file ends before the ward's name",
            BallotsFlaw::Field => "a field is not in quotation marks as a whole",
            BallotsFlaw::NoColumns => "the file ends before the line of its columns",
            BallotsFlaw::LoneColumn => "a single column",
            BallotsFlaw::NoColumnName => "a column has no name",
            BallotsFlaw::NotCandidateColumn =>
                "a column may be of something other than a candidate",
            BallotsFlaw::NotNextRank => "a column is not that of the next rank",
            BallotsFlaw::TooManyColumns => "too many columns",
            BallotsFlaw::FieldCount => "another number of fields than columns",
            BallotsFlaw::NotRank => "a field is not a rank",
            BallotsFlaw::NotCandidate => "a field names no candidate",
            BallotsFlaw::SeveralCandidates => "a field may name several candidates",
        }
    }
}

impl fmt::Display for BallotsFlaw {
    ghost use Rattle.std.specs.Prelude.{Some};
    ghost use Rattle.checker.specs.Texts.{flaw_text};

    ghost output = { λ flaw. Some (flaw_text flaw) };

    fn fmt<W: fmt::Write>(&self, f: &mut fmt::Formatter<W>) -> fmt::Result {
        f.write_str(self.text())
    }
}

impl Error for BallotsFlaw {}

/// The reason why a text can't be checked against ballots.
#[derive(Clone, Copy, Debug)]
pub enum Problem {
    /// Line `line` of the ballots, counted from 1, has the flaw `flaw`.
    Line { line: u64, flaw: BallotsFlaw },
    /// There are papers, or rejected papers, but not more candidates than seats.
    NoContest,
    /// The candidates in `among` are tied at stage `stage`, and no lot is recorded.
    LotNeeded { stage: u8, among: Columns },
    /// The lot recorded for stage `stage` names none of the tied candidates.
    LotNotAmong { stage: u8 },
    /// A lot is recorded for stage `stage`, but no lot is drawn there.
    LotNotNeeded { stage: u8 },
    /// An allocation failed.
    Memory,
}

impl fmt::Display for Problem {
    ghost use Rattle.std.specs.Prelude.{Some};
    ghost use Rattle.checker.specs.Texts.{problem_text};

    ghost output = { λ problem. Some (problem_text problem) };

    fn fmt<W: fmt::Write>(&self, f: &mut fmt::Formatter<W>) -> fmt::Result {
        match self {
            Problem::Line { line, flaw } => write!(f, "line {line} of the ballots: {flaw}"),
            Problem::NoContest => f.write_str("no more candidates than seats"),
            Problem::LotNeeded { stage, .. } => {
                write!(f, "no lot is recorded for stage {stage}")
            }
            Problem::LotNotAmong { stage } => {
                write!(f, "the lot for stage {stage} names none of the tied")
            }
            Problem::LotNotNeeded { stage } => {
                write!(
                    f,
                    "a lot is recorded for stage {stage}, and none is drawn there"
                )
            }
            Problem::Memory => f.write_str("out of memory"),
        }
    }
}

impl Error for Problem {}
