//! What to do about ballots that can't be counted.

ghost use Rattle.std.specs.Prelude.{◌≡◌};
ghost use Rattle.checker.specs.Remedies.{flaw_remedy, remedy};

use crate::problem::{BallotsFlaw, Problem};

/// Returns what to do about the flaw in a line.
fn flaw_remedy(flaw: BallotsFlaw) -> &'static str
    ensures { result.now ≡ flaw_remedy flaw }
{
    match flaw {
        BallotsFlaw::Size => {
            "(give the highest number of a candidate and the seats, such as 4 2)\n"
        }
        BallotsFlaw::NoSeat => "(give the seats of the ward, 1 to 15)\n",
        BallotsFlaw::NotNumber => {
            "(write digits alone; only before the number of a withdrawn candidate there is a minus)\n"
        }
        BallotsFlaw::TooLarge => {
            "(a ward has at most 30 candidates, 15 seats and 4999500 papers)\n"
        }
        BallotsFlaw::NoPapers => "(say how many papers have this list, or remove the line)\n",
        BallotsFlaw::NoSuchCandidate => {
            "(give numbers of candidates, from 1 to the highest in the first line of numbers)\n"
        }
        BallotsFlaw::CandidateTwice => "(name each candidate once: look at the paper)\n",
        BallotsFlaw::NoPreference => {
            "(remove the line: a paper without a single first preference is not valid)\n"
        }
        BallotsFlaw::NoZero => "(end the line with 0, and write nothing after it)\n",
        BallotsFlaw::TooManyPapers => "(a ward has at most 4999500 papers)\n",
        BallotsFlaw::NoName => {
            "(write the name in quotation marks, and nothing else on its line)\n"
        }
        BallotsFlaw::OpenQuote => "(write a quotation mark after the name)\n",
        BallotsFlaw::LongName => "(shorten the name to 1000 bytes)\n",
        BallotsFlaw::NotUtf8 => "(save the file as UTF-8)\n",
        BallotsFlaw::BehindName => "(remove the line, or put a # before it)\n",
        BallotsFlaw::Ward => "(write the number of the ward, such as # Ward 7)\n",
        BallotsFlaw::Rejected => {
            "(write the papers of each code, such as # Rejected 1: 0, 2: 0, 3: 0, 4: 0, 5: 0)\n"
        }
        BallotsFlaw::Lot => "(write a stage and a candidate, such as # Lot at stage 3: 4)\n",
        BallotsFlaw::Astray => {
            "(write it as ours are, such as # Ward 7, or begin it with another word)\n"
        }
        BallotsFlaw::Twice => "(remove one of the two lines)\n",
        BallotsFlaw::NoSize => {
            "(begin with the highest number of a candidate and the seats, such as 4 2)\n"
        }
        BallotsFlaw::NoEnd => "(write a line 0 after the papers)\n",
        BallotsFlaw::NamesWanting => "(write a name for each number, and then the ward's)\n",
        BallotsFlaw::Field =>
            "(put the whole field in quotation marks, and two for one within it)\n",
        BallotsFlaw::NoColumns =>
            "(begin with the names of the columns, such as count,Ann,Bob,Cy)\n",
        BallotsFlaw::LoneColumn =>
            "(add a column count: an empty line may be a paper without a mark, or no paper)\n",
        BallotsFlaw::NoColumnName => "(write the name of its candidate in the first line)\n",
        BallotsFlaw::NotCandidateColumn =>
            "(if there is a rank in each column, add --candidate with the name of each candidate; numbers of papers are in a first column count)\n",
        BallotsFlaw::NotNextRank =>
            "(with --candidate the columns are rank1, rank2, .., after count if there are numbers of papers)\n",
        BallotsFlaw::TooManyColumns =>
            "(a ward has at most 30 candidates, and a paper as many ranks)\n",
        BallotsFlaw::FieldCount =>
            "(write as many fields as the first line has; an empty one has no rank or no candidate)\n",
        BallotsFlaw::NotRank => "(write a rank from 1 to 99 in digits, or nothing)\n",
        BallotsFlaw::NotCandidate =>
            "(write the number or the name of a candidate, as given by --candidate, or nothing)\n",
        BallotsFlaw::SeveralCandidates =>
            "(write the number of the candidate; no name may be the number of another one)\n",
    }
}

/// Returns what to do about a problem, as a line in brackets; empty if the description of the problem already says it.
pub(crate) fn remedy(problem: &Problem) -> &'static str
    ensures { result.now ≡ remedy problem.now }
{
    match problem {
        Problem::Line { flaw, .. } => flaw_remedy(*flaw),
        Problem::NoContest => {
            "(remove the papers and the line of rejected ones, or correct the seats)\n"
        }
        Problem::LotNotAmong { .. } => {
            "(correct the lot; without it the tied candidates are printed)\n"
        }
        Problem::LotNotNeeded { .. } => "(leave the lot out)\n",
        Problem::LotNeeded { .. } | Problem::Memory => "",
    }
}
