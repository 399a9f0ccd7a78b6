//! The content of a file of ballots so far.

ghost use Rattle.std.specs.Prelude.{◌≤◌, length};
ghost use Rattle.paper.specs.Columns.{max_candidates};
ghost use Rattle.votes.specs.Units.{max_seats};

use crate::tally::Tally;
use count::Bundles;
use paper::Columns;

/// The numbers of candidates and seats, the withdrawn candidates, and the papers.
#[derive(Drop)]
pub(crate) struct PaperTotals {
    /// The highest candidate number.
    pub(crate) highest: u8,
    pub(crate) seats: u8,
    pub(crate) withdrawn: Columns,
    pub(crate) bundles: Tally,
    ghost few: { highest ≤ max_candidates },
    ghost some_seats: { 1 ≤ seats },
    ghost few_seats: { seats ≤ max_seats },
}

/// The names of the candidates numbered from 1, and the name of the ward.
#[derive(Drop)]
pub(crate) struct CandidateNames {
    pub(crate) names: Vec<String>,
    pub(crate) ward: String,
    ghost few: { length names.items ≤ max_candidates },
}

/// The content of our own comments.
#[derive(Drop)]
pub(crate) struct Comments {
    /// The number of the ward.
    pub(crate) ward: Option<u8>,
    /// The number of rejected papers for each code, 1 to 5.
    pub(crate) rejected: Option<[u32; 5]>,
    /// Stages, counted from 1, each with the candidate that its lot names.
    pub(crate) lots: Vec<(u8, u8)>,
}

/// The position of the next line.
#[derive(Clone, Copy)]
pub(crate) enum NextLine {
    /// At the numbers of candidates and seats.
    Size,
    /// At the withdrawn candidates, if any are listed.
    Withdrawn,
    /// Among the papers.
    PaperTotals,
    /// Among the names.
    CandidateNames,
    /// After the name of the ward.
    End,
}

/// The content of a file so far, and the position of its next line.
#[derive(Drop)]
pub(crate) struct Reader {
    pub(crate) place: NextLine,
    pub(crate) papers: PaperTotals,
    pub(crate) names: CandidateNames,
    pub(crate) comments: Comments,
}

/// The ballots of a ward, read from a file.
#[derive(Drop)]
pub(crate) struct WardBallots {
    pub(crate) place: NextLine,
    /// The highest candidate number.
    pub(crate) highest: u8,
    pub(crate) seats: u8,
    pub(crate) withdrawn: Columns,
    pub(crate) bundles: Bundles,
    pub(crate) names: CandidateNames,
    pub(crate) comments: Comments,
    ghost some_seats: { 1 ≤ seats },
    ghost few_seats: { seats ≤ max_seats },
}

/// The content of a file of records so far.
#[derive(Drop)]
pub(crate) struct Records {
    /// Whether the first line has been read.
    pub(crate) headed: bool,
    /// Whether each line begins with a number of papers.
    pub(crate) counted: bool,
    /// The number of rank columns; `None` if the columns are for candidates.
    pub(crate) ranks: Option<u8>,
    /// The names of the candidates, numbered from 1.
    pub(crate) names: Vec<String>,
    pub(crate) papers: PaperTotals,
    /// The number of rejected papers for each code, 1 to 5.
    pub(crate) rejected: [u32; 5],
    ghost few: { length names.items ≤ max_candidates },
}

/// The columns of cast-vote records.
#[derive(Drop)]
pub(crate) enum RecordColumns {
    /// A column for each of the candidates with the given names.
    Candidates(Vec<String>),
    /// The given number of columns for ranks.
    Ranks(u8),
}

/// The first line of cast-vote records.
#[derive(Drop)]
pub(crate) struct Header {
    /// Whether each line begins with a number of papers.
    pub(crate) counted: bool,
    /// The other columns.
    pub(crate) columns: RecordColumns,
}
