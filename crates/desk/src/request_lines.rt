//! The line of a script that sends a request, and a comment above it.
//!
//! Each line is parsed again before it is used, so nothing that is promised of it depends on how it was written.

ghost use Rattle.std.specs.Prelude.{◌≡◌, ◌++◌, ℕ, false, string_bytes, true, IfNone, IfOk, IfSome, OnOk};
ghost use Rattle.register.specs.declared.command.Command.TheVariants as commands;
ghost use Rattle.desk.specs.Orders.{asked_by, sent_as};
ghost use Rattle.desk.specs.RequestLines.{HasNoLine, IsComment, IsEntryOf, IsLineOf, IsWholeLine, line_asking, line_text};

use crate::journal::words::{put_comment, put_id, put_line, put_named_line};
use crate::journal_check::requests_in;
use crate::lexer::behind_byte_order_mark;
use crate::same_requests::is_same_request;
use register::{
    BatchCommand, CandidateCommand, Command, CountCommand, KeyingCommand, Request, Verdict,
    VerdictCommand, WardCommand,
};
use std::alloc::{AllocError, Global};

// ---- writing a line

/// Appends the line of an order for a ward.
fn put_ward(
    alloc: Global,
    text: &mut String,
    id: &str,
    command: &WardCommand,
) -> Result<(), AllocError>
    ensures { (actor : ℕ) → OnOk result (string_bytes text.new ≡ string_bytes text.old ++ line_asking actor id.now (asked_by (commands.Ward command.now))) }
{
    match command {
        WardCommand::Add { ward, seats, name } => {
            let words = format!(in alloc; "ward {ward} {seats}")?;
            put_named_line(text, words.as_str(), name.as_str(), id)
        }
        WardCommand::Close { ward } => {
            let words = format!(in alloc; "close {ward}")?;
            put_line(text, words.as_str(), id)
        }
    }
}

/// Appends the line of an order for a candidate.
fn put_candidate(
    alloc: Global,
    text: &mut String,
    id: &str,
    command: &CandidateCommand,
) -> Result<(), AllocError>
    ensures { (actor : ℕ) → OnOk result (string_bytes text.new ≡ string_bytes text.old ++ line_asking actor id.now (asked_by (commands.Candidate command.now))) }
{
    match command {
        CandidateCommand::Add {
            ward,
            candidate,
            name,
        } => {
            let words = format!(in alloc; "candidate {ward} {candidate}")?;
            put_named_line(text, words.as_str(), name.as_str(), id)
        }
        CandidateCommand::Withdraw { ward, candidate } => {
            let words = format!(in alloc; "withdraw {ward} {candidate}")?;
            put_line(text, words.as_str(), id)
        }
    }
}

/// Appends the line of an order for a batch.
fn put_batch(
    alloc: Global,
    text: &mut String,
    id: &str,
    command: &BatchCommand,
) -> Result<(), AllocError>
    ensures { (actor : ℕ) → OnOk result (string_bytes text.new ≡ string_bytes text.old ++ line_asking actor id.now (asked_by (commands.Batch command.now))) }
{
    let words = match command {
        BatchCommand::Add {
            batch,
            ward,
            size,
            first_clerk,
            second_clerk,
        } => format!(in alloc; "batch {batch} {ward} {size} {first_clerk} {second_clerk}")?,
        BatchCommand::Again { batch } => format!(in alloc; "again {batch}")?,
        BatchCommand::Third { batch, clerk } => format!(in alloc; "third {batch} {clerk}")?,
    };
    put_line(text, words.as_str(), id)
}

#[tactic(auto, unfolding(crate::specs::RequestLines::keying_line))]
/// Appends the line of an order that stores a clerk's keying.
fn put_keying(
    alloc: Global,
    text: &mut String,
    request: &Request,
    keying: &KeyingCommand,
) -> Result<(), AllocError>
    ensures { OnOk result (string_bytes text.new ≡ string_bytes text.old ++ line_asking request.now.actor (string_bytes request.now.id) (asked_by (commands.Keying keying.now))) }
{
    let (clerk, batch, round) = (request.actor, keying.batch, keying.round);
    let words = format!(in alloc; "key {clerk} {batch} {round}")?;
    text.push_str(words.as_str())?;
    put_id(text, request.id.as_str())?;
    for marks in &keying.papers {
        text.push_str(" ")?;
        text.push_str(marks.as_str())?;
    }
    text.push_str("\n")
}

/// Appends the line of an order that judges a paper.
fn put_verdict(
    alloc: Global,
    text: &mut String,
    id: &str,
    command: &VerdictCommand,
) -> Result<(), AllocError>
    ensures { (actor : ℕ) → OnOk result (string_bytes text.new ≡ string_bytes text.old ++ line_asking actor id.now (asked_by (commands.Verdict command.now))) }
{
    let (batch, paper) = (command.batch, command.paper);
    let words = match &command.verdict {
        Verdict::Accept(marks) => format!(in alloc; "judge {batch} {paper} accept:{marks}")?,
        Verdict::Reject(code) => format!(in alloc; "judge {batch} {paper} reject:{code}")?,
    };
    put_line(text, words.as_str(), id)
}

/// Appends the line of an order for the count of a ward.
fn put_count(
    alloc: Global,
    text: &mut String,
    id: &str,
    command: &CountCommand,
) -> Result<(), AllocError>
    ensures { (actor : ℕ) → OnOk result (string_bytes text.new ≡ string_bytes text.old ++ line_asking actor id.now (asked_by (commands.Count command.now))) }
{
    let words = match command {
        CountCommand::Seal { ward } => format!(in alloc; "seal {ward}")?,
        CountCommand::Advance { ward } => format!(in alloc; "advance {ward}")?,
        CountCommand::Lot {
            ward,
            stage,
            candidate,
        } => format!(in alloc; "lot {ward} {stage} {candidate}")?,
        CountCommand::Declare { ward } => format!(in alloc; "declare {ward}")?,
    };
    put_line(text, words.as_str(), id)
}

/// Appends the line of the order that sends a request.
fn put_request(alloc: Global, text: &mut String, request: &Request) -> Result<(), AllocError>
    ensures { OnOk result (string_bytes text.new ≡ string_bytes text.old ++ line_text (sent_as request.now)) }
{
    let id = request.id.as_str();
    match &request.command {
        Command::Ward(command) => put_ward(alloc, text, id, command),
        Command::Candidate(command) => put_candidate(alloc, text, id, command),
        Command::Batch(command) => put_batch(alloc, text, id, command),
        Command::Keying(keying) => put_keying(alloc, text, request, keying),
        Command::Verdict(command) => put_verdict(alloc, text, id, command),
        Command::Count(command) => put_count(alloc, text, id, command),
    }
}

// ---- parsing it again

/// Returns whether a text is one whole line of a script.
fn is_whole_line(text: &str) -> bool
    ensures whole { result ≡ true → IsWholeLine text.now }
    ensures also { IsWholeLine text.now → result ≡ true }
{
    let bytes = text.as_bytes();
    let Some((last, words)) = bytes.split_last() else {
        return false;
    };
    let unmarked = behind_byte_order_mark(bytes).len() == bytes.len();
    (*last == b'\n') & (unmarked & !words.contains(&b'\n'))
}

/// Returns whether a text is one whole line that sends the given request.
fn is_line_of(alloc: Global, text: &str, request: &Request) -> Result<bool, AllocError>
    ensures sends { IfOk result (λ is. is ≡ true → IsLineOf text.now request.now) }
    ensures other { IfOk result (λ is. is ≡ false → IsLineOf text.now request.now → ⊥) }
{
    let Some(requests) = requests_in(alloc, text)? else {
        return Ok(false);
    };
    if requests.len() != 1 {
        return Ok(false);
    }
    Ok(is_whole_line(text) & is_same_request(&requests[0], request))
}

/// Returns the line of a script that sends a request, and that sends nothing else. It ends in a newline.
///
/// Returns None only if the line that was written, parsed again, doesn't send the request, as for a request that no order sends, such as
/// a withdrawal by a clerk.
pub(crate) fn line_of(alloc: Global, request: &Request) -> Result<Option<String>, AllocError>
    ensures says { IfOk result (λ found. IfSome found (λ line. IsLineOf (string_bytes line) request.now)) }
    ensures none { IfOk result (λ found. IfNone found (HasNoLine request.now)) }
{
    let mut line = String::new(alloc);
    put_request(alloc, &mut line, request)?;
    if is_line_of(alloc, line.as_str(), request)? {
        Ok(Some(line))
    } else {
        Ok(None)
    }
}

// ---- a comment above it

/// Returns true only if a text is one whole line that sends nothing.
fn is_comment(alloc: Global, text: &str) -> Result<bool, AllocError>
    ensures { IfOk result (λ is. is ≡ true → IsComment text.now) }
{
    match requests_in(alloc, text)? {
        Some(requests) => Ok(is_whole_line(text) & requests.is_empty()),
        None => Ok(false),
    }
}

/// Returns a comment as a line of a script. Returns an empty text if there is nothing to say, or if it doesn't fit into one line.
fn comment_of(alloc: Global, says: &str) -> Result<String, AllocError>
    ensures { IfOk result (λ text. IsComment (string_bytes text)) }
{
    let mut text = String::new(alloc);
    if says.is_empty() {
        return Ok(text);
    }
    put_comment(&mut text, says)?;
    if is_comment(alloc, text.as_str())? {
        Ok(text)
    } else {
        Ok(String::new(alloc))
    }
}

/// Returns what is appended to a record for a request: its line, after a comment if there is something to say. Returns None if there
/// is no such line, as `line_of` does.
pub(crate) fn entry_of(
    alloc: Global,
    says: &str,
    request: &Request,
) -> Result<Option<String>, AllocError>
    ensures some { IfOk result (λ found. IfSome found (λ text. IsEntryOf (string_bytes text) request.now)) }
    ensures none { IfOk result (λ found. IfNone found (HasNoLine request.now)) }
{
    let mut text = comment_of(alloc, says)?;
    match line_of(alloc, request)? {
        Some(line) => {
            text.push_str(line.as_str())?;
            Ok(Some(text))
        }
        None => Ok(None),
    }
}
