//! Compares the content of requests.

ghost use Rattle.std.specs.Prelude.{◌≡◌, map, option_map, string_bytes, true};
ghost use Rattle.register.specs.declared.command.Command.TheVariants as commands;
ghost use Rattle.desk.specs.Contents.{content_entry, content_of, plain, three, with_text};
ghost use Rattle.desk.specs.Orders.{asked_by, paper_to_judge, sent_as};
ghost use Rattle.desk.specs.Verdicts.{judgement_given};

use register::{
    BatchCommand, CandidateCommand, Command, CountCommand, KeyingCommand, Request, Verdict,
    VerdictCommand, WardCommand,
};

/// Up to five numbers that a command names; the others are 0.
#[derive(Clone, Copy)]
struct Numbers {
    first: u32,
    second: u32,
    third: u32,
    fourth: u32,
    fifth: u32,
}

/// What a command asks for, in one form for all commands.
#[derive(Drop)]
struct Content<'a> {
    kind: u8,
    numbers: Numbers,
    text: &'a str,
    papers: Option<&'a [String]>,
}

// ---- what a command asks for

/// Returns up to three numbers.
fn three(first: u32, second: u32, third: u32) -> Numbers
    ensures { result ≡ three first second third }
{
    Numbers {
        first,
        second,
        third,
        fourth: 0,
        fifth: 0,
    }
}

/// Returns the content of a command that names nothing but numbers.
fn plain<'a>(kind: u8, numbers: Numbers) -> Content<'a>
    ensures { content_entry result ≡ plain kind numbers }
{
    Content {
        kind,
        numbers,
        text: "",
        papers: None,
    }
}

/// Returns the content of a command that names numbers and a text.
fn with_text(kind: u8, numbers: Numbers, text: &str) -> Content<'_>
    ensures { content_entry result ≡ with_text kind numbers text.now }
{
    Content {
        kind,
        numbers,
        text,
        papers: None,
    }
}

/// Returns the content of a command for a ward.
fn content_of_ward(command: &WardCommand) -> Content<'_>
    ensures { content_entry result ≡ content_of (asked_by (commands.Ward command.now)) }
{
    match command {
        WardCommand::Add { ward, seats, name } => {
            with_text(0, three(*ward, *seats, 0), name.as_str())
        }
        WardCommand::Close { ward } => plain(1, three(*ward, 0, 0)),
    }
}

/// Returns the content of a command for a candidate.
fn content_of_candidate(command: &CandidateCommand) -> Content<'_>
    ensures { content_entry result ≡ content_of (asked_by (commands.Candidate command.now)) }
{
    match command {
        CandidateCommand::Add {
            ward,
            candidate,
            name,
        } => with_text(2, three(*ward, *candidate, 0), name.as_str()),
        CandidateCommand::Withdraw { ward, candidate } => plain(3, three(*ward, *candidate, 0)),
    }
}

/// Returns the content of a command for a batch.
fn content_of_batch(command: &BatchCommand) -> Content<'_>
    ensures { content_entry result ≡ content_of (asked_by (commands.Batch command.now)) }
{
    match command {
        BatchCommand::Add {
            batch,
            ward,
            size,
            first_clerk,
            second_clerk,
        } => {
            let numbers = Numbers {
                first: *batch,
                second: *ward,
                third: *size,
                fourth: *first_clerk,
                fifth: *second_clerk,
            };
            plain(4, numbers)
        }
        BatchCommand::Again { batch } => plain(5, three(*batch, 0, 0)),
        BatchCommand::Third { batch, clerk } => plain(6, three(*batch, *clerk, 0)),
    }
}

/// Returns the content of a keying.
fn content_of_keying(command: &KeyingCommand) -> Content<'_>
    ensures { content_entry result ≡ content_of (asked_by (commands.Keying command.now)) }
{
    Content {
        kind: 7,
        numbers: three(command.batch, command.round, 0),
        text: "",
        papers: Some(command.papers.as_slice()),
    }
}

/// Returns the content of a verdict on a paper.
fn content_of_verdict(command: &VerdictCommand) -> Content<'_>
    ensures { content_entry result ≡ content_of (asked_by (commands.Verdict command.now)) }
{
    let (batch, paper) = (command.batch, command.paper);
    match &command.verdict {
        Verdict::Accept(marks) => with_text(8, three(batch, paper, 0), marks.as_str()),
        Verdict::Reject(code) => plain(9, three(batch, paper, *code)),
    }
}

/// Returns the content of a command for a count.
fn content_of_count(command: &CountCommand) -> Content<'_>
    ensures { content_entry result ≡ content_of (asked_by (commands.Count command.now)) }
{
    match command {
        CountCommand::Seal { ward } => plain(10, three(*ward, 0, 0)),
        CountCommand::Advance { ward } => plain(11, three(*ward, 0, 0)),
        CountCommand::Lot {
            ward,
            stage,
            candidate,
        } => plain(12, three(*ward, *stage, *candidate)),
        CountCommand::Declare { ward } => plain(13, three(*ward, 0, 0)),
    }
}

/// Returns the content of a command.
fn content_of(command: &Command) -> Content<'_>
    ensures { content_entry result ≡ content_of (asked_by command.now) }
{
    match command {
        Command::Ward(command) => content_of_ward(command),
        Command::Candidate(command) => content_of_candidate(command),
        Command::Batch(command) => content_of_batch(command),
        Command::Keying(command) => content_of_keying(command),
        Command::Verdict(command) => content_of_verdict(command),
        Command::Count(command) => content_of_count(command),
    }
}

// ---- whether two ask for the same

/// Returns whether two lists contain the same texts.
fn are_same_texts(texts: &[String], others: &[String]) -> bool
    ensures same { result ≡ true → map string_bytes texts.now ≡ map string_bytes others.now }
    ensures also { map string_bytes texts.now ≡ map string_bytes others.now → result ≡ true }
{
    if texts.len() != others.len() {
        return false;
    }
    for (place, text) in texts.iter().enumerate() {
        if text.as_str() != others[place].as_str() {
            return false;
        }
    }
    true
}

/// Returns whether the texts of two lists of papers are the same, or there are none.
fn are_same_papers(one: Option<&[String]>, other: Option<&[String]>) -> bool
    ensures same { result ≡ true → option_map (λ papers. map string_bytes papers.now) one.entry ≡ option_map (λ papers. map string_bytes papers.now) other.entry }
    ensures also { option_map (λ papers. map string_bytes papers.now) one.entry ≡ option_map (λ papers. map string_bytes papers.now) other.entry → result ≡ true }
{
    match one {
        Some(texts) => match other {
            Some(others) => are_same_texts(texts, others),
            None => false,
        },
        None => other.is_none(),
    }
}

/// Returns whether the numbers are the same.
fn are_same_numbers(one: Numbers, other: Numbers) -> bool
    ensures same { result ≡ true → one ≡ other }
    ensures also { one ≡ other → result ≡ true }
{
    let ends = (one.fourth == other.fourth) & (one.fifth == other.fifth);
    (one.first == other.first)
        & ((one.second == other.second) & ((one.third == other.third) & ends))
}

/// Returns whether two commands ask for the same.
fn is_same_content(one: &Content<'_>, other: &Content<'_>) -> bool
    ensures same { result ≡ true → content_entry one.now ≡ content_entry other.now }
    ensures also { content_entry one.now ≡ content_entry other.now → result ≡ true }
{
    let numbers = are_same_numbers(one.numbers, other.numbers);
    let papers = are_same_papers(one.papers, other.papers);
    (one.kind == other.kind) & (numbers & ((one.text == other.text) & papers))
}

/// Returns whether two requests have the same actor and id, and ask for the same.
pub(crate) fn is_same_request(one: &Request, other: &Request) -> bool
    ensures same { result ≡ true → sent_as one.now ≡ sent_as other.now }
    ensures also { sent_as one.now ≡ sent_as other.now → result ≡ true }
{
    let actors = one.actor == other.actor;
    let ids = one.id.as_str() == other.id.as_str();
    let asked = is_same_content(&content_of(&one.command), &content_of(&other.command));
    actors & (ids & asked)
}
