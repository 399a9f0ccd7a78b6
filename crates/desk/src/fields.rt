//! The fields of a batch's papers, in one line: how many a marks text has, and for whom.

ghost use Rattle.std.specs.Prelude.{◌≡◌, ◌++◌, map, IfOk, None, Some, string_bytes};
ghost use Rattle.sqlite.specs.Held.{state};
ghost use Rattle.register.specs.Offices.{candidate_entry};
ghost use Rattle.register.specs.Status.{paper_entry};
ghost use Rattle.tables.specs.Reading.{OnlyReads};
ghost use Rattle.office.specs.Answers.{WhenOpenAt};
ghost use Rattle.desk.specs.Fields.{candidate_behind, candidate_words, candidates_listed, field_words, fields_line, named_fields_line};
ghost use Rattle.desk.specs.Pages.{page_of};
ghost use Rattle.desk.specs.Parts.{IsAskedOf};
ghost use Rattle.desk.specs.declared.orders.Question.{Question};

use crate::lines::LineOutcome;
use crate::overviews::{listed, numbers_in, stopped};
use office::Office;
use paper::Columns;
use register::{BallotPaper, Candidate};
use sqlite::Alter;
use std::alloc::{AllocError, Global};
use store::Fault;

#[tactic(auto, unfolding(crate::specs::Fields::field_words))]
/// Returns how many fields the marks of each paper of a batch have, in words.
fn field_words(alloc: Global, batch: u32, count: usize) -> Result<String, AllocError>
    ensures { IfOk result (λ text. string_bytes text ≡ field_words batch count) }
{
    format!(in alloc; "batch {batch} has {count} fields for each paper: ")
}

#[tactic(auto, unfolding(crate::specs::Fields::fields_line))]
/// Returns the line for a batch with the given columns: field by field, the number of its candidate.
fn fields_line(alloc: Global, batch: u32, columns: &Columns) -> Result<String, AllocError>
    ensures { IfOk result (λ text. string_bytes text ≡ fields_line batch columns.now) }
{
    let numbers = numbers_in(alloc, columns)?;
    let words = field_words(alloc, batch, numbers.len())?;
    let told = listed(alloc, &numbers)?;
    format!(in alloc; "{words}{told}")
}

#[tactic(auto, unfolding(crate::specs::Fields::candidate_words))]
/// Returns a candidate's number and name: `3 Cy`.
fn candidate_words(alloc: Global, candidate: &Candidate) -> Result<String, AllocError>
    ensures { IfOk result (λ text. string_bytes text ≡ candidate_words (candidate_entry candidate.now)) }
{
    let (number, name) = (candidate.number, candidate.name.as_str());
    format!(in alloc; "{number} {name}")
}

/// Appends another candidate to a list: `, 3 Cy`.
fn put_candidate(alloc: Global, text: &mut String, candidate: &Candidate) -> Result<(), AllocError>
    ensures { IfOk result (λ _. string_bytes text.new ≡ string_bytes text.old ++ candidate_behind (candidate_entry candidate.now)) }
{
    let told = candidate_words(alloc, candidate)?;
    text.push_str(", ")?;
    text.push_str(told.as_str())
}

#[tactic(auto, unfolding(crate::specs::Fields::candidates_listed))]
/// Returns a list of candidates: `1 Ann, 3 Cy`.
fn candidates_listed(alloc: Global, candidates: &[Candidate]) -> Result<String, AllocError>
    ensures { IfOk result (λ text. string_bytes text ≡ candidates_listed (map candidate_entry candidates.now)) }
{
    let Some((first, others)) = candidates.split_first() else {
        return Ok(String::new(alloc));
    };
    let mut text = candidate_words(alloc, first)?;
    for candidate in others {
        put_candidate(alloc, &mut text, candidate)?;
    }
    Ok(text)
}

#[tactic(auto, unfolding(crate::specs::Fields::named_fields_line))]
/// Returns the line for a batch with the given ballot paper: field by field, the number and the name of its candidate.
fn named_fields_line(alloc: Global, batch: u32, paper: &BallotPaper) -> Result<String, AllocError>
    ensures { IfOk result (λ text. string_bytes text ≡ named_fields_line batch (paper_entry paper.now)) }
{
    let words = field_words(alloc, batch, paper.candidates.len())?;
    let told = candidates_listed(alloc, &paper.candidates)?;
    format!(in alloc; "{words}{told}")
}

/// Returns the line with the numbers of a batch's candidates, or the reason why there is none.
fn numbered_fields_of<S: Alter>(alloc: Global, office: &mut Office<S>, batch: u32) -> LineOutcome
    ensures found { WhenOpenAt (state S.Store) office.old office.new
        (λ s. IsAskedOf s (Question.Fields batch None) (page_of result) office.new.closed (state S.Store office.old.held) (state S.Store office.new.held)) }
    ensures same { OnlyReads (state S.Store office.old.held) (state S.Store office.new.held) }
{
    match office.columns(batch) {
        Ok(found) => match fields_line(alloc, batch, &found) {
            Ok(line) => LineOutcome::Replied(line),
            Err(AllocError) => LineOutcome::Failed(Fault::Memory),
        },
        Err(stop) => stopped(stop),
    }
}

/// Returns the line with the names on a clerk's ballot paper of a batch, or the reason why there is none.
fn named_fields_of<S: Alter>(
    alloc: Global,
    office: &mut Office<S>,
    batch: u32,
    clerk: u32,
) -> LineOutcome
    ensures found { WhenOpenAt (state S.Store) office.old office.new
        (λ s. IsAskedOf s (Question.Fields batch (Some clerk)) (page_of result) office.new.closed (state S.Store office.old.held) (state S.Store office.new.held)) }
    ensures same { OnlyReads (state S.Store office.old.held) (state S.Store office.new.held) }
{
    match office.paper(clerk, batch) {
        Ok(found) => match named_fields_line(alloc, batch, &found) {
            Ok(line) => LineOutcome::Replied(line),
            Err(AllocError) => LineOutcome::Failed(Fault::Memory),
        },
        Err(stop) => stopped(stop),
    }
}

/// Returns the line with the fields of a batch's papers, or the reason why there is none. If a clerk is given, the line has the
/// candidates' names, and the clerk must be one of the batch's.
pub(crate) fn fields_of<S: Alter>(
    alloc: Global,
    office: &mut Office<S>,
    batch: u32,
    clerk: Option<u32>,
) -> LineOutcome
    ensures found { WhenOpenAt (state S.Store) office.old office.new
        (λ s. IsAskedOf s (Question.Fields batch clerk) (page_of result) office.new.closed (state S.Store office.old.held) (state S.Store office.new.held)) }
    ensures same { OnlyReads (state S.Store office.old.held) (state S.Store office.new.held) }
{
    match clerk {
        Some(clerk) => named_fields_of(alloc, office, batch, clerk),
        None => numbered_fields_of(alloc, office, batch),
    }
}
