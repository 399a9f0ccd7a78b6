//! How each paper in a batch counts, and a ward's doubtful papers, in lines with the candidates' names.

ghost use Rattle.std.specs.Prelude.{◌≡◌, ◌++◌, map, option_map, IfOk, string_bytes};
ghost use Rattle.register.specs.Offices.{judged_entry};
ghost use Rattle.store.specs.Overviews.{doubtful_papers_view, doubtful_view, paper_view, papers_view};
ghost use Rattle.desk.specs.CandidateNames.{names_told};
ghost use Rattle.desk.specs.Overviews.{doubtful_line, doubtful_lines, judgement_words, lines_of, paper_line, paper_lines, parting, preference_words, preferences_from, rejection_words, verdict_words};
ghost use Rattle.desk.specs.Pages.{line};

use crate::candidate_names::NamesByNumber;
use register::{JudgedPaper, Judgement};
use std::alloc::{AllocError, Global};
use store::{CountedPaper, CountedPapers, DoubtfulPaper, DoubtfulPapers};

// ---- how a paper counts

/// Returns the separator before a preference, which is empty before the first one.
fn parting(number: usize) -> &'static str
    ensures { result.now ≡ parting number }
{
    if number == 1 { "" } else { ", " }
}

#[tactic(auto, unfolding(crate::specs::Overviews::preference_words))]
/// Appends a preference: its number and the candidate's name.
fn put_preference(
    alloc: Global,
    text: &mut String,
    number: usize,
    name: &str,
) -> Result<(), AllocError>
    ensures { IfOk result (λ _. string_bytes text.new ≡ string_bytes text.old ++ preference_words number name.now) }
{
    let before = parting(number);
    let told = format!(in alloc; "{before}{number} {name}")?;
    text.push_str(told.as_str())
}

/// Returns preferences in order: `1 Ann, 2 Cy`.
fn preferences(
    alloc: Global,
    names: &NamesByNumber,
    candidates: &[u8],
) -> Result<String, AllocError>
    ensures { IfOk result (λ text. string_bytes text ≡ preferences_from (names_told names.now) 1 candidates.now) }
{
    let mut text = String::new(alloc);
    for (place, candidate) in candidates.iter().enumerate() {
        put_preference(alloc, &mut text, place + 1, names.name(*candidate))?;
    }
    Ok(text)
}

/// Returns the reason why a paper is rejected, given its code.
fn rejection_words(code: u32) -> &'static str
    ensures { result.now ≡ rejection_words code }
{
    match code {
        1 => "no first preference",
        2 => "more than one first preference",
        3 => "no official mark",
        4 => "voter identifiable",
        5 => "void for uncertainty",
        _ => "",
    }
}

#[tactic(auto, unfolding(crate::specs::Overviews::judgement_words))]
/// Returns how a paper counts: its preferences, why it is rejected, or that it has no verdict yet.
fn judgement_words(
    alloc: Global,
    names: &NamesByNumber,
    judgement: Judgement,
) -> Result<String, AllocError>
    ensures { IfOk result (λ text. string_bytes text ≡ judgement_words (names_told names.now) judgement) }
{
    match judgement {
        Judgement::Valid(prefs) => {
            let told = preferences(alloc, names, prefs.as_slice())?;
            format!(in alloc; "preferences {told}")
        }
        Judgement::Rejected(code) => {
            let words = rejection_words(code);
            format!(in alloc; "rejected {code}, {words}")
        }
        Judgement::Open => String::from_str(alloc, "doubtful, no verdict yet"),
    }
}

/// Appends a line.
fn put_line(text: &mut String, told: &str) -> Result<(), AllocError>
    ensures { IfOk result (λ _. string_bytes text.new ≡ string_bytes text.old ++ line told.now) }
{
    text.push_str(told)?;
    text.push_str("\n")
}

#[tactic(auto, unfolding(crate::specs::Overviews::paper_line))]
/// Returns the line that identifies a paper and says how it counts.
fn paper_line(
    alloc: Global,
    names: &NamesByNumber,
    paper: &CountedPaper,
) -> Result<String, AllocError>
    ensures { IfOk result (λ text. string_bytes text ≡ paper_line (names_told names.now) (paper_view paper.now)) }
{
    let (batch, number) = (paper.batch, paper.paper);
    let counts = judgement_words(alloc, names, paper.judgement)?;
    format!(in alloc; "batch {batch} paper {number}: {counts}")
}

/// Appends a paper on a line of its own.
fn put_paper(
    alloc: Global,
    text: &mut String,
    names: &NamesByNumber,
    paper: &CountedPaper,
) -> Result<(), AllocError>
    ensures { IfOk result (λ _. string_bytes text.new ≡ string_bytes text.old ++ line (paper_line (names_told names.now) (paper_view paper.now))) }
{
    let told = paper_line(alloc, names, paper)?;
    put_line(text, told.as_str())
}

/// Returns papers, each on a line of its own.
fn lines_of_papers(
    alloc: Global,
    names: &NamesByNumber,
    papers: &[CountedPaper],
) -> Result<String, AllocError>
    ensures { IfOk result (λ text. string_bytes text ≡ lines_of (paper_line (names_told names.now)) (map paper_view papers.now)) }
{
    let mut text = String::new(alloc);
    for paper in papers {
        put_paper(alloc, &mut text, names, paper)?;
    }
    Ok(text)
}

#[tactic(auto, unfolding(crate::specs::Overviews::paper_lines))]
/// Returns how each paper in a batch counts, with the names of the candidates.
pub(crate) fn paper_lines(alloc: Global, found: &CountedPapers) -> Result<String, AllocError>
    ensures { IfOk result (λ text. string_bytes text ≡ paper_lines (papers_view found.now)) }
{
    let names = NamesByNumber::new(alloc, &found.candidates)?;
    lines_of_papers(alloc, &names, &found.papers)
}

// ---- doubtful papers

#[tactic(auto, unfolding(crate::specs::Overviews::verdict_words))]
/// Returns the verdict on a paper, given how it counts. If the paper is accepted with marks, the verdict includes how it counts.
fn verdict_words(
    alloc: Global,
    names: &NamesByNumber,
    judgement: Judgement,
    verdict: &Option<JudgedPaper>,
) -> Result<String, AllocError>
    ensures { IfOk result (λ text. string_bytes text ≡ verdict_words (names_told names.now) judgement (option_map judged_entry verdict.now)) }
{
    let Some(judged) = verdict else {
        return String::from_str(alloc, "open");
    };
    if judged.code == 0 {
        let marks = judged.marks.as_str();
        let counts = judgement_words(alloc, names, judgement)?;
        return format!(in alloc; "accepted {marks}: {counts}");
    }
    let code = judged.code;
    format!(in alloc; "rejected {code}")
}

#[tactic(auto, unfolding(crate::specs::Overviews::doubtful_line))]
/// Returns the line that identifies a doubtful paper and gives the verdict on it.
fn doubtful_line(
    alloc: Global,
    names: &NamesByNumber,
    paper: &DoubtfulPaper,
) -> Result<String, AllocError>
    ensures { IfOk result (λ text. string_bytes text ≡ doubtful_line (names_told names.now) (doubtful_view paper.now)) }
{
    let (batch, number) = (paper.counted.batch, paper.counted.paper);
    let verdict = verdict_words(alloc, names, paper.counted.judgement, &paper.verdict)?;
    format!(in alloc; "batch {batch} paper {number} {verdict}")
}

/// Appends a doubtful paper on a line of its own.
fn put_doubtful(
    alloc: Global,
    text: &mut String,
    names: &NamesByNumber,
    paper: &DoubtfulPaper,
) -> Result<(), AllocError>
    ensures { IfOk result (λ _. string_bytes text.new ≡ string_bytes text.old ++ line (doubtful_line (names_told names.now) (doubtful_view paper.now))) }
{
    let told = doubtful_line(alloc, names, paper)?;
    put_line(text, told.as_str())
}

/// Returns doubtful papers, each on a line of its own.
fn lines_of_doubtful(
    alloc: Global,
    names: &NamesByNumber,
    papers: &[DoubtfulPaper],
) -> Result<String, AllocError>
    ensures { IfOk result (λ text. string_bytes text ≡ lines_of (doubtful_line (names_told names.now)) (map doubtful_view papers.now)) }
{
    let mut text = String::new(alloc);
    for paper in papers {
        put_doubtful(alloc, &mut text, names, paper)?;
    }
    Ok(text)
}

#[tactic(auto, unfolding(crate::specs::Overviews::doubtful_lines))]
/// Returns a ward's doubtful papers, with the names of the candidates.
pub(crate) fn doubtful_lines(alloc: Global, found: &DoubtfulPapers) -> Result<String, AllocError>
    ensures { IfOk result (λ text. string_bytes text ≡ doubtful_lines (doubtful_papers_view found.now)) }
{
    let names = NamesByNumber::new(alloc, &found.candidates)?;
    lines_of_doubtful(alloc, &names, &found.papers)
}
