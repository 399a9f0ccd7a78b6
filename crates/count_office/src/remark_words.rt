//! The words of remarks: the lines that tell a person at a terminal more than the reply to an order says. Also what they need from
//! the texts that other orders print.

ghost use Rattle.std.specs.Prelude.{◌≡◌, ◌<◌, ◌==◌, IfOk, codes, option_and_then, option_map, string_bytes};
ghost use Rattle.std.specs.List.{after_first, before_first};
ghost use Rattle.paper.specs.Digits.{plain_number_in};
ghost use Rattle.desk.specs.Verdicts.{behind};
ghost use Rattle.count_office.specs.Remarks.{after_words, aligning, candidate_front, declared_front, drawn_in, elected_in};
ghost use Rattle.count_office.specs.Remarks.{fault_found, fault_in, field_count, fields_front, fields_remark, fields_told, fields_words};
ghost use Rattle.count_office.specs.Remarks.{first_number, lot_front, lot_named, lot_remark, lot_words, name_behind, name_on_sheet};
ghost use Rattle.count_office.specs.Remarks.{paper_and_fault, paper_front, paper_remark, seats_in, stay_word, vacancy_of, vacancy_remark, vacancy_words};

use paper::plain_number_in;
use std::alloc::{AllocError, Global};

// ---- what is found in a text

/// Returns the text after a prefix; `None` if the text doesn't begin with it.
fn behind<'a>(front: &str, text: &'a str) -> Option<&'a str>
    ensures { option_map (λ t. t.now) result ≡ behind front.now text.now }
{
    text.strip_prefix(front)
}

/// Splits a text at the first occurrence of a character into the part before it and the part after it. If the character doesn't
/// occur, returns the whole text and an empty one.
fn parted(text: &str, mark: char) -> (&str, &str)
    requires { mark < 128 }
    ensures before { result.0.now ≡ before_first (λ b. b == mark) text.now }
    ensures behind { result.1.now ≡ after_first (λ b. b == mark) text.now }
{
    match text.split_once(mark) {
        Some((before, behind)) => (before, behind),
        None => (text, ""),
    }
}

/// Returns what follows the given words on the first line that begins with them; `None` if no line does.
fn after_words<'a>(words: &str, text: &'a str) -> Option<&'a str>
    ensures { option_map (λ rest. rest.now) result ≡ after_words words.now text.now }
{
    for line in text.lines() {
        if let Some(rest) = behind(words, line) {
            return Some(rest);
        }
    }
    None
}

/// Returns the number of fields between commas.
fn field_count(text: &str) -> usize
    ensures { result ≡ field_count text.now }
{
    let mut count = 1;
    for byte in text.as_bytes() {
        if *byte == b',' {
            count += 1;
        }
    }
    count
}

/// Returns the number before the first space.
fn first_number(text: &str) -> Option<u32>
    ensures { result ≡ first_number text.now }
{
    plain_number_in(parted(text, ' ').0)
}

// ---- marks that were refused

/// Returns the first paper with a mark fault, and the fault's number, if there are both.
fn paper_and_fault(paper: Option<u32>, fault: Option<u32>) -> Option<(u32, u32)>
    ensures { result ≡ paper_and_fault paper fault }
{
    match (paper, fault) {
        (Some(paper), Some(fault)) => Some((paper, fault)),
        _ => None,
    }
}

/// Returns the fault in a text such as ` fault 1`.
fn fault_after_comma(text: &str) -> Option<u32>
    ensures { result ≡ option_and_then plain_number_in (behind (codes " fault ") text.now) }
{
    match behind(" fault ", text) {
        Some(number) => plain_number_in(number),
        None => None,
    }
}

/// Returns the paper and the fault in a text such as `37, fault 1`.
fn fault_found(text: &str) -> Option<(u32, u32)>
    ensures { result ≡ fault_found text.now }
{
    let (paper, rest) = parted(text, ',');
    paper_and_fault(plain_number_in(paper), fault_after_comma(rest))
}

/// Returns the first paper with a mark fault, and the fault's number, if a text says that marks were refused.
pub fn fault_in(text: &str) -> Option<(u32, u32)>
    ensures { result ≡ fault_in text.now }
{
    match after_words("refused 18: bad marks on paper ", text) {
        Some(rest) => fault_found(rest),
        None => None,
    }
}

#[tactic(auto, unfolding(crate::specs::Remarks::fields_front))]
/// Returns the beginning of the line that `fields` prints, up to the number of fields.
fn fields_front(alloc: Global, batch: u32) -> Result<String, AllocError>
    ensures { IfOk result (λ text. string_bytes text ≡ fields_front batch) }
{
    format!(in alloc; "batch {batch} has ")
}

/// Returns the number of fields that the marks of a batch's papers have, given what `fields` prints.
fn fields_told(alloc: Global, batch: u32, text: &str) -> Result<Option<u32>, AllocError>
    ensures { IfOk result (λ fields. fields ≡ fields_told batch text.now) }
{
    let front = fields_front(alloc, batch)?;
    match after_words(front.as_str(), text) {
        Some(rest) => Ok(first_number(rest)),
        None => Ok(None),
    }
}

#[tactic(auto, unfolding(crate::specs::Remarks::fields_words))]
/// Returns the words about marks with another number of fields.
fn fields_words(alloc: Global, wanted: u32, given: usize) -> Result<String, AllocError>
    ensures { IfOk result (λ text. string_bytes text ≡ fields_words wanted given) }
{
    format!(in alloc; "wanted: {wanted} fields, of these {given} were given")
}

/// Returns the remark on marks with another number of fields than the batch's papers have, given what `fields` prints.
pub fn fields_remark(
    alloc: Global,
    batch: u32,
    marks: &str,
    text: &str,
) -> Result<Option<String>, AllocError>
    ensures { IfOk result (λ remark. option_map string_bytes remark ≡ fields_remark batch marks.now text.now) }
{
    match fields_told(alloc, batch, text)? {
        Some(wanted) => Ok(Some(fields_words(alloc, wanted, field_count(marks))?)),
        None => Ok(None),
    }
}

// ---- how a paper counts

#[tactic(auto, unfolding(crate::specs::Remarks::paper_front))]
/// Returns the beginning of a paper's line.
fn paper_front(alloc: Global, batch: u32, paper: u32) -> Result<String, AllocError>
    ensures { IfOk result (λ text. string_bytes text ≡ paper_front batch paper) }
{
    format!(in alloc; "batch {batch} paper {paper}: ")
}

/// Returns the remark on a verdict: the paper's line, given what `papers` prints.
pub fn paper_remark(
    alloc: Global,
    batch: u32,
    paper: u32,
    text: &str,
) -> Result<Option<String>, AllocError>
    ensures { IfOk result (λ remark. option_map string_bytes remark ≡ paper_remark batch paper text.now) }
{
    let mut front = paper_front(alloc, batch, paper)?;
    match after_words(front.as_str(), text) {
        Some(rest) => {
            front.push_str(rest)?;
            Ok(Some(front))
        }
        None => Ok(None),
    }
}

// ---- a lot

#[tactic(auto, unfolding(crate::specs::Remarks::lot_front))]
/// Returns the beginning of the reply to a lot, up to the candidate's number.
fn lot_front(alloc: Global, ward: u32, stage: u32) -> Result<String, AllocError>
    ensures { IfOk result (λ text. string_bytes text ≡ lot_front ward stage) }
{
    format!(in alloc; "lot at ward {ward} stage {stage}: candidate ")
}

/// Returns the candidate whom the reply to a lot gives.
fn drawn_in(alloc: Global, ward: u32, stage: u32, reply: &str) -> Result<Option<u32>, AllocError>
    ensures { IfOk result (λ candidate. candidate ≡ drawn_in ward stage reply.now) }
{
    let front = lot_front(alloc, ward, stage)?;
    match after_words(front.as_str(), reply) {
        Some(rest) => Ok(plain_number_in(rest)),
        None => Ok(None),
    }
}

/// Returns the space that aligns a number of one digit; it is empty for a longer number.
fn aligning(number: u32) -> &'static str
    ensures { result.now ≡ aligning number }
{
    if number < 10 { " " } else { "" }
}

#[tactic(auto, unfolding(crate::specs::Remarks::candidate_front))]
/// Returns the beginning of a candidate's line on a sheet: the number, right-aligned in two places.
fn candidate_front(alloc: Global, candidate: u32) -> Result<String, AllocError>
    ensures { IfOk result (λ text. string_bytes text ≡ candidate_front candidate) }
{
    let space = aligning(candidate);
    format!(in alloc; "{space}{candidate} ")
}

/// Returns the name that follows the votes and the letter on a candidate's line.
fn name_behind(rest: &str) -> &str
    ensures { result.now ≡ name_behind rest.now }
{
    let (_, behind_votes) = parted(rest.trim_start(), ' ');
    parted(behind_votes, ' ').1
}

/// Returns a candidate's name on a sheet.
fn name_on_sheet<'a>(
    alloc: Global,
    candidate: u32,
    sheet: &'a str,
) -> Result<Option<&'a str>, AllocError>
    ensures { IfOk result (λ name. option_map (λ name. name.now) name ≡ name_on_sheet candidate sheet.now) }
{
    let front = candidate_front(alloc, candidate)?;
    match after_words(front.as_str(), sheet) {
        Some(rest) => Ok(Some(name_behind(rest))),
        None => Ok(None),
    }
}

#[tactic(auto, unfolding(crate::specs::Remarks::lot_words))]
/// Returns the words about a lot, with the candidate's name after the number.
fn lot_words(
    alloc: Global,
    ward: u32,
    stage: u32,
    candidate: u32,
    name: &str,
) -> Result<String, AllocError>
    ensures { IfOk result (λ text. string_bytes text ≡ lot_words ward stage candidate name.now) }
{
    format!(in alloc; "lot at ward {ward} stage {stage}: {candidate} {name}")
}

/// Returns the words about a lot that drew a candidate whose name is on a sheet.
fn lot_named(
    alloc: Global,
    ward: u32,
    stage: u32,
    sheet: &str,
    candidate: u32,
) -> Result<Option<String>, AllocError>
    ensures { IfOk result (λ words. option_map string_bytes words ≡ lot_named ward stage sheet.now candidate) }
{
    match name_on_sheet(alloc, candidate, sheet)? {
        Some(name) => Ok(Some(lot_words(alloc, ward, stage, candidate, name)?)),
        None => Ok(None),
    }
}

/// Returns the remark on a lot, given its reply and the ward's sheet.
pub fn lot_remark(
    alloc: Global,
    ward: u32,
    stage: u32,
    reply: &str,
    sheet: &str,
) -> Result<Option<String>, AllocError>
    ensures { IfOk result (λ remark. option_map string_bytes remark ≡ lot_remark ward stage reply.now sheet.now) }
{
    match drawn_in(alloc, ward, stage, reply)? {
        Some(candidate) => lot_named(alloc, ward, stage, sheet, candidate),
        None => Ok(None),
    }
}

// ---- seats that stay empty

#[tactic(auto, unfolding(crate::specs::Remarks::declared_front))]
/// Returns the beginning of a declared ward's line, which is also that of the reply to its declaration.
fn declared_front(alloc: Global, ward: u32) -> Result<String, AllocError>
    ensures { IfOk result (λ text. string_bytes text ≡ declared_front ward) }
{
    format!(in alloc; "ward {ward} declared: ")
}

/// Returns how many candidates the reply to a declaration gives.
fn elected_in(alloc: Global, ward: u32, reply: &str) -> Result<Option<usize>, AllocError>
    ensures { IfOk result (λ elected. elected ≡ elected_in ward reply.now) }
{
    let front = declared_front(alloc, ward)?;
    match after_words(front.as_str(), reply) {
        Some(rest) => Ok(Some(field_count(rest))),
        None => Ok(None),
    }
}

/// Returns how many seats a declared ward has, given what `wards` prints.
fn seats_in(alloc: Global, ward: u32, text: &str) -> Result<Option<u32>, AllocError>
    ensures { IfOk result (λ seats. seats ≡ seats_in ward text.now) }
{
    let front = declared_front(alloc, ward)?;
    match after_words(front.as_str(), text) {
        Some(rest) => Ok(first_number(rest)),
        None => Ok(None),
    }
}

/// Returns the verb for a number of seats.
fn stay_word(empty: usize) -> &'static str
    ensures { result.now ≡ stay_word empty }
{
    if empty == 1 { "stays" } else { "stay" }
}

#[tactic(auto, unfolding(crate::specs::Remarks::vacancy_words))]
/// Returns the words about seats that stay empty.
fn vacancy_words(alloc: Global, ward: u32, seats: usize, empty: usize) -> Result<String, AllocError>
    ensures { IfOk result (λ text. string_bytes text ≡ vacancy_words ward seats empty) }
{
    let stay = stay_word(empty);
    format!(in alloc; "ward {ward}: {empty} of its {seats} seats {stay} empty")
}

/// Returns these words if fewer candidates are elected than there are seats.
fn vacancy_of(
    alloc: Global,
    ward: u32,
    seats: Option<u32>,
    elected: Option<usize>,
) -> Result<Option<String>, AllocError>
    ensures { IfOk result (λ words. option_map string_bytes words ≡ vacancy_of ward seats elected) }
{
    let (Some(seats), Some(elected)) = (seats, elected) else {
        return Ok(None);
    };
    let seats = seats as usize;
    if elected >= seats {
        return Ok(None);
    }
    Ok(Some(vacancy_words(alloc, ward, seats, seats - elected)?))
}

/// Returns the remark on a declaration, given its reply and what `wards` prints.
pub fn vacancy_remark(
    alloc: Global,
    ward: u32,
    reply: &str,
    text: &str,
) -> Result<Option<String>, AllocError>
    ensures { IfOk result (λ remark. option_map string_bytes remark ≡ vacancy_remark ward reply.now text.now) }
{
    let seats = seats_in(alloc, ward, text)?;
    let elected = elected_in(alloc, ward, reply)?;
    vacancy_of(alloc, ward, seats, elected)
}
