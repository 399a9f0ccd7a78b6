//! Overviews, one line each, for wards, a ward's batches, the differences in a batch, receipts and papers. The lines for
//! papers are built in [`papers`](crate::papers).

ghost use Rattle.std.specs.Prelude.{◌≡◌, ◌⊎◌, ◌++◌, map, IfOk, IfErr, string_bytes};
ghost use Rattle.std.specs.List.{flat_map};
ghost use Rattle.sqlite.specs.Held.{state};
ghost use Rattle.register.specs.Offices.{receipt_entry};
ghost use Rattle.register.specs.Texts.{behind, listed};
ghost use Rattle.store.specs.Overviews.{batch_view, clerk_view, differences_view, ward_view};
ghost use Rattle.tables.specs.Reading.{OnlyReads};
ghost use Rattle.office.specs.Answers.{WhenOpenAt};
ghost use Rattle.desk.specs.Parts.{IsAskedOf};
ghost use Rattle.desk.specs.Overviews.{batch_line, differences_line, receipt_line, shift_words, ward_line};
ghost use Rattle.desk.specs.Overviews.{clerk_words, elected_words, keyed_word, open_words, seats_words, size_words, standing_word, twin_words, untaken_words};
ghost use Rattle.desk.specs.Pages.{failed, line, page_of, page_stopped, printed};

use crate::fields::fields_of;
use crate::lines::{Failure, LineOutcome};
use crate::orders::Question;
use crate::papers::{doubtful_lines, paper_lines};
use crate::ward_forms::form_of;
use crate::ward_status::phase_word;
use office::{Office, ReadError};
use paper::Columns;
use register::Receipt;
use sqlite::Alter;
use std::alloc::{AllocError, Global};
use store::{BatchOverview, BatchStanding, ClerkOverview, Differences, Fault, Shift, WardOverview};

/// A value that is printed on one line.
trait Lined {
    ghost use Rattle.clap.specs.Words.{Text};

    /// The line, without its newline.
    ghost text: { Self → Text };

    /// Returns the line, without its newline.
    fn line(&self, alloc: Global) -> Result<String, AllocError>
        ensures { IfOk result (λ told. string_bytes told ≡ text self.now) };
}

/// Appends another number to a list: `, 3`.
fn put_behind(alloc: Global, text: &mut String, number: u32) -> Result<(), AllocError>
    ensures { IfOk result (λ _. string_bytes text.new ≡ string_bytes text.old ++ behind number) }
{
    let told = format!(in alloc; ", {number}")?;
    text.push_str(told.as_str())
}

#[tactic(auto, unfolding(register::specs::Texts::listed))]
/// Returns numbers separated by a comma and a space: `1, 3`.
pub(crate) fn listed(alloc: Global, numbers: &[u32]) -> Result<String, AllocError>
    ensures { IfOk result (λ text. string_bytes text ≡ listed numbers.now) }
{
    let Some((first, others)) = numbers.split_first() else {
        return Ok(String::new(alloc));
    };
    let mut text = format!(in alloc; "{first}")?;
    for number in others {
        put_behind(alloc, &mut text, *number)?;
    }
    Ok(text)
}

/// Returns the candidate numbers in a set, in ascending order.
pub(crate) fn numbers_in(alloc: Global, columns: &Columns) -> Result<Vec<u32>, AllocError>
    ensures { IfOk result (λ numbers. numbers.items ≡ columns.now) }
{
    let mut numbers = Vec::new(alloc);
    let all = columns.as_slice();
    for number in all {
        numbers.push(u32::from(*number))?;
    }
    Ok(numbers)
}

// ---- a ward

#[tactic(auto, unfolding(crate::specs::Overviews::seats_words))]
/// Returns the number, phase and seats of the ward, in words.
fn seats_words(alloc: Global, overview: &WardOverview) -> Result<String, AllocError>
    ensures { IfOk result (λ text. string_bytes text ≡ seats_words (ward_view overview.now)) }
{
    let (ward, phase) = (overview.ward.number, phase_word(overview.ward.phase));
    let seats = overview.ward.seats;
    format!(in alloc; "ward {ward} {phase}: {seats} seats")
}

#[tactic(auto, unfolding(crate::specs::Overviews::untaken_words))]
/// Returns how many candidates and batches the ward has, and how many batches aren't taken.
fn untaken_words(alloc: Global, overview: &WardOverview) -> Result<String, AllocError>
    ensures { IfOk result (λ text. string_bytes text ≡ untaken_words (ward_view overview.now)) }
{
    let (candidates, batches) = (overview.status.candidates, overview.status.batches);
    let untaken = batches.saturating_sub(overview.status.taken);
    format!(in alloc; "{candidates} candidates, {batches} batches, {untaken} not taken")
}

#[tactic(auto, unfolding(crate::specs::Overviews::open_words))]
/// Returns how many batches differ, how many doubtful papers are open, and how many stages have been counted.
fn open_words(alloc: Global, overview: &WardOverview) -> Result<String, AllocError>
    ensures { IfOk result (λ text. string_bytes text ≡ open_words (ward_view overview.now)) }
{
    let (differing, open) = (overview.status.differing, overview.status.doubtful_open);
    let stages = overview.status.stages;
    format!(in alloc; "{differing} differing, {open} doubtful open, {stages} stages")
}

#[tactic(auto, unfolding(crate::specs::Overviews::elected_words))]
/// Returns who is elected to the given seats, once the result is declared, and how many seats stay empty.
fn elected_words(alloc: Global, seats: u32, elected: &Option<Columns>) -> Result<String, AllocError>
    ensures { IfOk result (λ text. string_bytes text ≡ elected_words seats elected.now) }
{
    let Some(elected) = elected else {
        return Ok(String::new(alloc));
    };
    let numbers = numbers_in(alloc, elected)?;
    let empty = (seats as usize).saturating_sub(numbers.len());
    let told = listed(alloc, &numbers)?;
    format!(in alloc; ", elected {told}, {empty} seats empty")
}

impl Lined for WardOverview {
    ghost text = { λ o. ward_line (ward_view o) };

    #[tactic(auto, unfolding(crate::specs::Overviews::ward_line))]
    /// Returns the line for the ward, ending with its name.
    fn line(&self, alloc: Global) -> Result<String, AllocError> {
        let seats = seats_words(alloc, self)?;
        let untaken = untaken_words(alloc, self)?;
        let open = open_words(alloc, self)?;
        let elected = elected_words(alloc, self.ward.seats, &self.elected)?;
        let name = self.ward.name.as_str();
        format!(in alloc; "{seats}, {untaken}, {open}{elected}: {name}")
    }
}

// ---- a batch

#[tactic(auto, unfolding(crate::specs::Overviews::size_words))]
/// Returns the number, round and size of the batch, in words.
fn size_words(alloc: Global, overview: &BatchOverview) -> Result<String, AllocError>
    ensures { IfOk result (λ text. string_bytes text ≡ size_words (batch_view overview.now)) }
{
    let (batch, round) = (overview.batch.number, overview.batch.round);
    let size = overview.batch.size;
    format!(in alloc; "batch {batch} round {round}: {size} papers")
}

/// Returns the words that say whether a clerk has keyed a batch.
fn keyed_word(keyed: bool) -> &'static str
    ensures { result.now ≡ keyed_word keyed }
{
    if keyed { "keyed" } else { "not keyed" }
}

#[tactic(auto, unfolding(crate::specs::Overviews::clerk_words))]
/// Appends a clerk of the batch, and whether that clerk has keyed it.
fn put_clerk(alloc: Global, text: &mut String, overview: &ClerkOverview) -> Result<(), AllocError>
    ensures { IfOk result (λ _. string_bytes text.new ≡ string_bytes text.old ++ clerk_words (clerk_view overview.now)) }
{
    let (clerk, keyed) = (overview.clerk, keyed_word(overview.keyed));
    let told = format!(in alloc; ", clerk {clerk} {keyed}")?;
    text.push_str(told.as_str())
}

/// Returns a batch's clerks, and whether each of them has keyed it.
fn clerks_words(alloc: Global, clerks: &[ClerkOverview]) -> Result<String, AllocError>
    ensures { IfOk result (λ text. string_bytes text ≡ flat_map clerk_words (map clerk_view clerks.now)) }
{
    let mut text = String::new(alloc);
    for clerk in clerks {
        put_clerk(alloc, &mut text, clerk)?;
    }
    Ok(text)
}

/// Returns the word for the status of a batch.
fn standing_word(standing: BatchStanding) -> &'static str
    ensures { result.now ≡ standing_word standing }
{
    match standing {
        BatchStanding::Taken => "taken",
        BatchStanding::Differing => "differing",
        BatchStanding::Waiting => "waiting",
    }
}

#[tactic(auto, unfolding(crate::specs::Overviews::twin_words))]
/// Returns the words that name another batch with the same papers, if there is one.
fn twin_words(alloc: Global, twin: Option<u32>) -> Result<String, AllocError>
    ensures { IfOk result (λ text. string_bytes text ≡ twin_words twin) }
{
    match twin {
        Some(batch) => format!(in alloc; ", same papers as batch {batch}"),
        None => Ok(String::new(alloc)),
    }
}

impl Lined for BatchOverview {
    ghost text = { λ o. batch_line (batch_view o) };

    #[tactic(auto, unfolding(crate::specs::Overviews::batch_line))]
    /// Returns the line for the batch.
    fn line(&self, alloc: Global) -> Result<String, AllocError> {
        let size = size_words(alloc, self)?;
        let clerks = clerks_words(alloc, &self.clerks)?;
        let (standing, open) = (standing_word(self.standing), self.doubtful_open);
        let twin = twin_words(alloc, self.twin)?;
        format!(in alloc; "{size}{clerks}, {standing}, {open} doubtful open{twin}")
    }
}

// ---- differences, and receipts

#[tactic(auto, unfolding(crate::specs::Overviews::shift_words))]
/// Returns the words that say from where on two keyings agree once the papers of one clerk are moved up by one; empty if there
/// is no shift.
fn shift_words(alloc: Global, shift: Option<Shift>) -> Result<String, AllocError>
    ensures { IfOk result (λ text. string_bytes text ≡ shift_words shift) }
{
    match shift {
        Some(shift) => {
            let (paper, clerk) = (shift.paper, shift.clerk);
            format!(in alloc;
                "; from {paper} on they agree when clerk {clerk}'s are moved by one: a paper may have been left out or keyed twice"
            )
        }
        None => Ok(String::new(alloc)),
    }
}

#[tactic(auto, unfolding(crate::specs::Overviews::differences_line))]
/// Returns the line that lists the papers on which a batch's keyings differ, and says if they look shifted.
fn differences_line(alloc: Global, found: &Differences) -> Result<String, AllocError>
    ensures { IfOk result (λ text. string_bytes text ≡ differences_line (differences_view found.now)) }
{
    let (batch, round) = (found.batch.number, found.batch.round);
    let papers = listed(alloc, &found.papers)?;
    let shift = shift_words(alloc, found.shift)?;
    format!(in alloc; "batch {batch} round {round} differs on papers {papers}{shift}")
}

impl Lined for Receipt {
    ghost text = { λ r. receipt_line (receipt_entry r) };

    #[tactic(auto, unfolding(crate::specs::Overviews::receipt_line))]
    /// Returns the line for a receipt: the actor, the id, the subject and the reply.
    fn line(&self, alloc: Global) -> Result<String, AllocError> {
        let (actor, id) = (self.actor, self.id.as_str());
        let (subject, reply) = (self.subject.as_str(), self.reply.as_str());
        format!(in alloc; "actor {actor} id {id}, {subject}: {reply}")
    }
}

// ---- what is printed

/// Appends a value on a line of its own.
fn put_line<T: Lined>(alloc: Global, text: &mut String, told: &T) -> Result<(), AllocError>
    ensures { IfOk result (λ _. string_bytes text.new ≡ string_bytes text.old ++ line (T.text told.now)) }
{
    let line = told.line(alloc)?;
    text.push_str(line.as_str())?;
    text.push_str("\n")
}

/// Returns the values, each on a line of its own.
fn lines_of<T: Lined>(alloc: Global, found: &[T]) -> Result<String, AllocError>
    ensures { IfOk result (λ text. string_bytes text ≡ flat_map (λ t. line (T.text t)) found.now) }
{
    let mut text = String::new(alloc);
    for told in found {
        put_line(alloc, &mut text, told)?;
    }
    Ok(text)
}

/// Returns the line on each ward, without its terminator.
pub(crate) fn lines_on_wards(
    alloc: Global,
    wards: &[WardOverview],
) -> Result<Vec<String>, AllocError>
    ensures { IfOk result (λ lines. map string_bytes lines.items ≡ map (λ w. ward_line (ward_view w)) wards.now) }
{
    let mut lines = Vec::new(alloc);
    for ward in wards {
        lines.push(ward.line(alloc)?)?;
    }
    Ok(lines)
}

/// Returns what is printed for a read that was refused or failed.
pub(crate) fn stopped(stop: ReadError) -> LineOutcome
    ensures { page_of result ≡ page_stopped stop }
{
    match stop {
        ReadError::Refused(refusal) => LineOutcome::Refused(refusal),
        ReadError::Fault(fault) => LineOutcome::Failed(fault),
    }
}

/// Returns what is printed for the values found, for the reason why there are none, or for a failed allocation.
fn outcome_of<T: Lined + Drop>(alloc: Global, found: Result<Vec<T>, ReadError>) -> LineOutcome
    ensures lines { IfOk found (λ all. (page_of result ≡ printed (flat_map (λ t. line (T.text t)) all.items)) ⊎ (page_of result ≡ failed (Failure.Office Fault.Memory))) }
    ensures stop { IfErr found (λ stop. page_of result ≡ page_stopped stop) }
{
    let found = match found {
        Ok(found) => found,
        Err(stop) => return stopped(stop),
    };
    match lines_of(alloc, &found) {
        Ok(text) => LineOutcome::Printed(text),
        Err(AllocError) => LineOutcome::Failed(Fault::Memory),
    }
}

/// Returns a line that lists the papers on which a batch's keyings differ, or the reason why there is none.
fn differences_of<S: Alter>(alloc: Global, office: &mut Office<S>, batch: u32) -> LineOutcome
    ensures found { WhenOpenAt (state S.Store) office.old office.new
        (λ s. IsAskedOf s (Question.Differences batch) (page_of result) office.new.closed (state S.Store office.old.held) (state S.Store office.new.held)) }
    ensures same { OnlyReads (state S.Store office.old.held) (state S.Store office.new.held) }
{
    match office.differences(batch) {
        Ok(found) => match differences_line(alloc, &found) {
            Ok(line) => LineOutcome::Replied(line),
            Err(AllocError) => LineOutcome::Failed(Fault::Memory),
        },
        Err(stop) => stopped(stop),
    }
}

/// Returns the lines for a ward's doubtful papers, or the reason why there are none.
fn doubtful_of<S: Alter>(alloc: Global, office: &mut Office<S>, ward: u32) -> LineOutcome
    ensures found { WhenOpenAt (state S.Store) office.old office.new
        (λ s. IsAskedOf s (Question.Doubtful ward) (page_of result) office.new.closed (state S.Store office.old.held) (state S.Store office.new.held)) }
    ensures same { OnlyReads (state S.Store office.old.held) (state S.Store office.new.held) }
{
    match office.doubtful(ward) {
        Ok(found) => match doubtful_lines(alloc, &found) {
            Ok(text) => LineOutcome::Printed(text),
            Err(AllocError) => LineOutcome::Failed(Fault::Memory),
        },
        Err(stop) => stopped(stop),
    }
}

/// Returns the lines that say how each paper in a batch counts, or the reason why there are none.
fn papers_of<S: Alter>(alloc: Global, office: &mut Office<S>, batch: u32) -> LineOutcome
    ensures found { WhenOpenAt (state S.Store) office.old office.new
        (λ s. IsAskedOf s (Question.Papers batch) (page_of result) office.new.closed (state S.Store office.old.held) (state S.Store office.new.held)) }
    ensures same { OnlyReads (state S.Store office.old.held) (state S.Store office.new.held) }
{
    match office.papers(batch) {
        Ok(found) => match paper_lines(alloc, &found) {
            Ok(text) => LineOutcome::Printed(text),
            Err(AllocError) => LineOutcome::Failed(Fault::Memory),
        },
        Err(stop) => stopped(stop),
    }
}

/// Returns the office's answer to a question, or the reason why there is none.
pub(crate) fn answer_to<S: Alter>(
    alloc: Global,
    office: &mut Office<S>,
    question: Question,
) -> LineOutcome
    ensures found { WhenOpenAt (state S.Store) office.old office.new
        (λ s. IsAskedOf s question (page_of result) office.new.closed (state S.Store office.old.held) (state S.Store office.new.held)) }
    ensures same { OnlyReads (state S.Store office.old.held) (state S.Store office.new.held) }
{
    match question {
        Question::Wards => outcome_of(alloc, office.wards()),
        Question::Batches { ward } => outcome_of(alloc, office.batches(ward)),
        Question::Doubtful { ward } => doubtful_of(alloc, office, ward),
        Question::Differences { batch } => differences_of(alloc, office, batch),
        Question::Papers { batch } => papers_of(alloc, office, batch),
        Question::Fields { batch, clerk } => fields_of(alloc, office, batch, clerk),
        Question::Form { form, ward } => form_of(alloc, office, form, ward),
        Question::Receipts { actor } => outcome_of(alloc, office.receipts(actor)),
    }
}
