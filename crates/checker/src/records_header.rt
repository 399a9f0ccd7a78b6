//! The first line of cast-vote records, which names the columns.

ghost use Rattle.std.specs.Prelude.{◌≡◌, ◌≤◌, [], length, map, string_bytes, IfOk};
ghost use Rattle.paper.specs.Columns.{max_candidates};
ghost use Rattle.checker.specs.Outcomes.{told_as};
ghost use Rattle.checker.specs.FewColumns.{AreFewColumns};
ghost use Rattle.checker.specs.RecordViews.{columns_told, header_told};
ghost use Rattle.checker.specs.RecordsHeader.{after_rank, candidate_fields, candidate_name, columns_in, header_in, header_of};
ghost use Rattle.checker.specs.RecordsHeader.{is_counted, is_rank, is_title, is_titled, names_from, ranks_from, without_space};

use crate::comments::is_word;
use crate::fields::fields_in;
use crate::file_content::{Header, RecordColumns};
use crate::foreign_comments::first_letters;
use crate::names::as_text;
use crate::numbers::number_in;
use crate::problem::BallotsFlaw;
use paper::MAX_CANDIDATES;
use std::alloc::{AllocError, Global};

/// Returns whether the first column is `count`.
fn is_counted(fields: &[Vec<u8>]) -> bool
    ensures { result ≡ is_counted (map (λ field. field.items) fields.now) }
{
    match fields {
        [field, ..] => is_word("count", field),
        [] => false,
    }
}

/// Returns the fields of the other columns.
fn candidate_fields(fields: &[Vec<u8>]) -> &[Vec<u8>]
    ensures { map (λ field. field.items) result.now ≡ candidate_fields (map (λ field. field.items) fields.now) }
{
    match fields {
        [field, others @ ..] => {
            if is_word("count", field) {
                others
            } else {
                fields
            }
        }
        [] => fields,
    }
}

/// Returns whether the word, ignoring case, is one that often names a column for something other than a candidate.
fn is_title(word: &[u8]) -> bool
    ensures { result ≡ is_title word.now }
{
    word.eq_ignore_ascii_case(b"rank")
        || (word.eq_ignore_ascii_case(b"choice")
            || (word.eq_ignore_ascii_case(b"preference")
                || (word.eq_ignore_ascii_case(b"first")
                    || (word.eq_ignore_ascii_case(b"count")
                        || (word.eq_ignore_ascii_case(b"weight")
                            || (word.eq_ignore_ascii_case(b"votes")
                                || (word.eq_ignore_ascii_case(b"papers")
                                    || (word.eq_ignore_ascii_case(b"ballot")
                                        || word.eq_ignore_ascii_case(b"ballots")))))))))
}

/// Returns whether the name of the column suggests something other than a candidate.
fn is_titled(field: &[u8]) -> bool
    ensures { result ≡ is_titled field.now }
{
    match field {
        [byte, ..] => byte.is_ascii_digit() || is_title(first_letters(field)),
        [] => false,
    }
}

/// Returns the name of a candidate's column.
fn candidate_name(alloc: Global, field: &[u8]) -> Result<Result<String, BallotsFlaw>, AllocError>
    ensures { IfOk result (λ told. told_as (λ name. string_bytes name) told ≡ candidate_name field.now) }
{
    if field.is_empty() {
        return Ok(Err(BallotsFlaw::NoColumnName));
    }
    if is_titled(field) {
        return Ok(Err(BallotsFlaw::NotCandidateColumn));
    }
    Ok(as_text(Vec::from_slice(alloc, field)?))
}

/// Returns the names in the candidates' columns.
fn names_in(
    alloc: Global,
    fields: &[Vec<u8>],
) -> Result<Result<Vec<String>, BallotsFlaw>, AllocError>
    ensures is { IfOk result (λ told. told_as (λ names. map string_bytes names.items) told ≡ names_from [] (map (λ field. field.items) fields.now)) }
    ensures few { IfOk result (λ told. IfOk told (λ names. length names.items ≤ max_candidates)) }
{
    let mut names = Vec::new(alloc);
    for field in fields {
        if names.len() >= MAX_CANDIDATES {
            return Ok(Err(BallotsFlaw::TooManyColumns));
        }
        match candidate_name(alloc, field)? {
            Ok(name) => names.push(name)?,
            Err(flaw) => return Ok(Err(flaw)),
        }
    }
    Ok(Ok(names))
}

/// Returns a text without its leading space, if it has one.
fn without_space(text: &[u8]) -> &[u8]
    ensures { result.now ≡ without_space text.now }
{
    match text {
        [b' ', rest @ ..] => rest,
        _ => text,
    }
}

/// Returns what follows the word `rank` in the name of a rank column; empty for any other column.
fn after_rank(field: &[u8]) -> &[u8]
    ensures { result.now ≡ after_rank field.now }
{
    match field {
        [first, b'a', b'n', b'k', rest @ ..] => {
            if *first == b'r' || *first == b'R' {
                without_space(rest)
            } else {
                &[]
            }
        }
        _ => &[],
    }
}

/// Returns whether the column is for the given rank.
fn is_rank(rank: u8, field: &[u8]) -> bool
    ensures { result ≡ is_rank rank field.now }
{
    match number_in(MAX_CANDIDATES as u32, after_rank(field)) {
        Ok(number) => number == u32::from(rank),
        Err(_) => false,
    }
}

/// Returns the number of rank columns.
fn ranks_in(fields: &[Vec<u8>]) -> Result<u8, BallotsFlaw>
    ensures is { result ≡ ranks_from 0 (map (λ field. field.items) fields.now) }
    ensures few { IfOk result (λ ranks. ranks ≤ max_candidates) }
{
    let mut ranks = 0u8;
    for field in fields {
        if usize::from(ranks) >= MAX_CANDIDATES {
            return Err(BallotsFlaw::TooManyColumns);
        }
        if !is_rank(ranks + 1, field) {
            return Err(BallotsFlaw::NotNextRank);
        }
        ranks += 1;
    }
    Ok(ranks)
}

/// Returns the columns after the one for the number of papers, if there is one: columns for candidates or for ranks.
fn columns_in(
    alloc: Global,
    are_candidates: bool,
    fields: &[Vec<u8>],
) -> Result<Result<RecordColumns, BallotsFlaw>, AllocError>
    ensures is { IfOk result (λ told. told_as columns_told told ≡ columns_in are_candidates (map (λ field. field.items) fields.now)) }
    ensures few { IfOk result (λ told. IfOk told AreFewColumns) }
{
    if !are_candidates {
        return match ranks_in(fields) {
            Ok(ranks) => Ok(Ok(RecordColumns::Ranks(ranks))),
            Err(flaw) => Ok(Err(flaw)),
        };
    }
    match names_in(alloc, fields)? {
        Ok(names) => Ok(Ok(RecordColumns::Candidates(names))),
        Err(flaw) => Ok(Err(flaw)),
    }
}

/// Returns the first line with the given fields.
fn header_of(
    alloc: Global,
    are_candidates: bool,
    fields: &[Vec<u8>],
) -> Result<Result<Header, BallotsFlaw>, AllocError>
    ensures is { IfOk result (λ told. told_as header_told told ≡ header_of are_candidates (map (λ field. field.items) fields.now)) }
    ensures few { IfOk result (λ told. IfOk told (λ header. AreFewColumns header.columns)) }
{
    if fields.len() < 2 {
        return Ok(Err(BallotsFlaw::LoneColumn));
    }
    let counted = is_counted(fields);
    match columns_in(alloc, are_candidates, candidate_fields(fields))? {
        Ok(columns) => Ok(Ok(Header { counted, columns })),
        Err(flaw) => Ok(Err(flaw)),
    }
}

/// Parses the first line, whose columns are for candidates or for ranks.
pub(crate) fn header_in(
    alloc: Global,
    are_candidates: bool,
    line: &[u8],
) -> Result<Result<Header, BallotsFlaw>, AllocError>
    ensures is { IfOk result (λ told. told_as header_told told ≡ header_in are_candidates line.now) }
    ensures few { IfOk result (λ told. IfOk told (λ header. AreFewColumns header.columns)) }
{
    match fields_in(alloc, line)? {
        Ok(fields) => header_of(alloc, are_candidates, &fields),
        Err(flaw) => Ok(Err(flaw)),
    }
}
