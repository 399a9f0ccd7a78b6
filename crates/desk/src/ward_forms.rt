//! The forms of a ward, as pages to print.

ghost use Rattle.std.specs.Prelude.{◌≡◌, IfOk, OnErr, map};
ghost use Rattle.sqlite.specs.Held.{state};
ghost use Rattle.register.specs.NextSteps.{step_entry};
ghost use Rattle.register.specs.Offices.{candidate_entry};
ghost use Rattle.store.specs.Overviews.{batch_view, doubtful_papers_view, doubtful_view, ward_view};
ghost use Rattle.tables.specs.Reading.{OnlyReads};
ghost use Rattle.office.specs.Answers.{WhenOpenAt};
ghost use Rattle.forms.specs.Covers.{cover_entry};
ghost use Rattle.forms.specs.Lots.{candidate_shown};
ghost use Rattle.forms.specs.Verdicts.{doubtful_entry};
ghost use Rattle.desk.specs.Forms.{adjudication_form, candidate_numbered, candidate_of, cover_of, covers_form, declaration_form, doubtful_of, due_form, elected_form, lots_form, purpose_of};
ghost use Rattle.desk.specs.Pages.{failed, page_of};
ghost use Rattle.desk.specs.Parts.{IsAskedOf};

use crate::candidate_names::name_of;
use crate::lines::{Failure, LineOutcome, NoForm};
use crate::orders::{Form, Question};
use crate::overviews::stopped;
use count::{Due, TiedFor};
use forms::{
    Cover, DoubtfulRow, LotPurpose, NamedCandidate, covers_page, declaration_page, lot_page,
    verdicts_page,
};
use office::Office;
use paper::Columns;
use register::{Candidate, NextStep};
use sqlite::Alter;
use std::alloc::{AllocError, Global};
use store::{BatchOverview, DoubtfulPaper, DoubtfulPapers, Fault, WardOverview};

// ---- what forms show

/// Returns all candidates as a form shows them.
fn candidates_of<'a>(
    alloc: Global,
    candidates: &'a [Candidate],
) -> Result<Vec<NamedCandidate<'a>>, AllocError>
    ensures { IfOk result (λ shown. map candidate_shown shown.items ≡ map candidate_of (map candidate_entry candidates.entry.now)) }
{
    let mut shown = Vec::new(alloc);
    for candidate in candidates {
        shown.push(NamedCandidate {
            number: candidate.number,
            name: candidate.name.as_str(),
        })?;
    }
    Ok(shown)
}

/// Returns the candidates with these numbers as a form shows them.
fn numbered_of<'a>(
    alloc: Global,
    candidates: &'a [Candidate],
    numbers: &Columns,
) -> Result<Vec<NamedCandidate<'a>>, AllocError>
    ensures { IfOk result (λ shown. map candidate_shown shown.items ≡ map (candidate_numbered (map candidate_entry candidates.entry.now)) numbers.now) }
{
    let mut shown = Vec::new(alloc);
    let all = numbers.as_slice();
    for number in all {
        shown.push(NamedCandidate {
            number: u32::from(*number),
            name: name_of(candidates, u32::from(*number)),
        })?;
    }
    Ok(shown)
}

/// Returns the covers of the batches.
fn covers_of(alloc: Global, batches: &[BatchOverview]) -> Result<Vec<Cover>, AllocError>
    ensures { IfOk result (λ covers. map cover_entry covers.items ≡ map cover_of (map batch_view batches.now)) }
{
    let mut covers = Vec::new(alloc);
    for overview in batches {
        covers.push(Cover {
            batch: overview.batch.number,
            ward: overview.batch.ward,
            size: overview.batch.size,
            first_clerk: overview.batch.first_clerk,
            second_clerk: overview.batch.second_clerk,
        })?;
    }
    Ok(covers)
}

/// Returns the rows of the doubtful papers.
fn rows_of(alloc: Global, papers: &[DoubtfulPaper]) -> Result<Vec<DoubtfulRow>, AllocError>
    ensures { IfOk result (λ rows. map doubtful_entry rows.items ≡ map doubtful_of (map doubtful_view papers.now)) }
{
    let mut rows = Vec::new(alloc);
    for paper in papers {
        rows.push(DoubtfulRow {
            batch: paper.counted.batch,
            paper: paper.counted.paper,
        })?;
    }
    Ok(rows)
}

/// Returns what a lot decides.
fn purpose_of(kind: TiedFor) -> LotPurpose
    ensures { result ≡ purpose_of kind }
{
    match kind {
        TiedFor::Surplus => LotPurpose::Surplus,
        TiedFor::Exclusion => LotPurpose::Exclusion,
    }
}

// ---- the forms

/// Returns the page with the covers of a ward's batches, to be printed.
fn covers_form(alloc: Global, batches: &[BatchOverview]) -> Result<LineOutcome, AllocError>
    ensures { IfOk result (λ outcome. page_of outcome ≡ covers_form (map batch_view batches.now)) }
{
    let covers = covers_of(alloc, batches)?;
    Ok(LineOutcome::Printed(covers_page(alloc, &covers)?))
}

/// Returns the page for adjudicating a ward's doubtful papers.
fn adjudication_form(
    alloc: Global,
    ward: u32,
    found: &DoubtfulPapers,
) -> Result<LineOutcome, AllocError>
    ensures { IfOk result (λ outcome. page_of outcome ≡ adjudication_form ward (doubtful_papers_view found.now)) }
{
    let candidates = candidates_of(alloc, &found.candidates)?;
    let rows = rows_of(alloc, &found.papers)?;
    let page = verdicts_page(alloc, ward, &candidates, &rows)?;
    Ok(LineOutcome::Printed(page))
}

/// Returns the page for the lot that a count waits for, or that no lot is due.
fn due_form(
    alloc: Global,
    ward: u32,
    candidates: &[Candidate],
    due: Due,
) -> Result<LineOutcome, AllocError>
    ensures { IfOk result (λ outcome. page_of outcome ≡ due_form ward (map candidate_entry candidates.now) due) }
{
    match due {
        Due::Lot { stage, kind, among } => {
            let tied = numbered_of(alloc, candidates, &among)?;
            let page = lot_page(alloc, ward, u64::from(stage), purpose_of(kind), &tied)?;
            Ok(LineOutcome::Printed(page))
        }
        Due::Act(_) | Due::Finished => Ok(LineOutcome::Unformed(NoForm::NoLot)),
    }
}

/// Returns the page for the lot that comes next in a ward, or that no lot is due.
fn lots_form(alloc: Global, ward: u32, step: &NextStep) -> Result<LineOutcome, AllocError>
    ensures { IfOk result (λ outcome. page_of outcome ≡ lots_form ward (step_entry step.now)) }
{
    match step {
        NextStep::Count {
            due,
            candidates,
            ..
        } => due_form(alloc, ward, candidates, *due),
        NextStep::Nominations { .. } => Ok(LineOutcome::Unformed(NoForm::NoLot)),
        NextStep::Papers(_) => Ok(LineOutcome::Unformed(NoForm::NoLot)),
        NextStep::Nothing => Ok(LineOutcome::Unformed(NoForm::NoLot)),
    }
}

/// Returns the page with the declaration of a ward, or that the ward isn't declared.
fn elected_form(alloc: Global, ward: &WardOverview) -> Result<LineOutcome, AllocError>
    ensures { IfOk result (λ outcome. page_of outcome ≡ elected_form (ward_view ward.now) (ward_view ward.now).elected) }
{
    let Some(elected) = &ward.elected else {
        return Ok(LineOutcome::Unformed(NoForm::Undeclared));
    };
    let shown = numbered_of(alloc, &ward.candidates, elected)?;
    let (number, name, seats) = (ward.ward.number, ward.ward.name.as_str(), ward.ward.seats);
    let vacant = (seats as usize).saturating_sub(shown.len());
    let page = declaration_page(alloc, number, name, seats, &shown, vacant)?;
    Ok(LineOutcome::Printed(page))
}

/// Returns the page with the declaration of the ward with this number, or that there is no such declared ward.
fn declaration_form(
    alloc: Global,
    ward: u32,
    wards: &[WardOverview],
) -> Result<LineOutcome, AllocError>
    ensures { IfOk result (λ outcome. page_of outcome ≡ declaration_form ward (map ward_view wards.now)) }
{
    for overview in wards {
        if overview.ward.number == ward {
            return elected_form(alloc, overview);
        }
    }
    Ok(LineOutcome::Unformed(NoForm::Undeclared))
}

/// Returns the outcome with the form, or that an allocation failed.
fn made(form: Result<LineOutcome, AllocError>) -> LineOutcome
    ensures ok { IfOk form (λ outcome. page_of result ≡ page_of outcome) }
    ensures err { OnErr form (page_of result ≡ failed (Failure.Office Fault.Memory)) }
{
    match form {
        Ok(outcome) => outcome,
        Err(AllocError) => LineOutcome::Failed(Fault::Memory),
    }
}

/// Reads a ward's batches from the office, and returns their covers, or why there are none.
fn covers_asked<S: Alter>(alloc: Global, office: &mut Office<S>, ward: u32) -> LineOutcome
    ensures found { WhenOpenAt (state S.Store) office.old office.new
        (λ s. IsAskedOf s (Question.Form Form.Covers ward) (page_of result) office.new.closed (state S.Store office.old.held) (state S.Store office.new.held)) }
    ensures same { OnlyReads (state S.Store office.old.held) (state S.Store office.new.held) }
{
    match office.batches(ward) {
        Ok(found) => made(covers_form(alloc, &found)),
        Err(stop) => stopped(stop),
    }
}

/// Reads a ward's doubtful papers from the office, and returns the form for adjudicating them, or why there is none.
fn adjudication_asked<S: Alter>(alloc: Global, office: &mut Office<S>, ward: u32) -> LineOutcome
    ensures found { WhenOpenAt (state S.Store) office.old office.new
        (λ s. IsAskedOf s (Question.Form Form.Adjudication ward) (page_of result) office.new.closed (state S.Store office.old.held) (state S.Store office.new.held)) }
    ensures same { OnlyReads (state S.Store office.old.held) (state S.Store office.new.held) }
{
    match office.doubtful(ward) {
        Ok(found) => made(adjudication_form(alloc, ward, &found)),
        Err(stop) => stopped(stop),
    }
}

/// Reads from the office what comes next in a ward, and returns the form for the lot that is due, or why there is none.
fn lot_asked<S: Alter>(alloc: Global, office: &mut Office<S>, ward: u32) -> LineOutcome
    ensures found { WhenOpenAt (state S.Store) office.old office.new
        (λ s. IsAskedOf s (Question.Form Form.Lots ward) (page_of result) office.new.closed (state S.Store office.old.held) (state S.Store office.new.held)) }
    ensures same { OnlyReads (state S.Store office.old.held) (state S.Store office.new.held) }
{
    match office.next_step(ward) {
        Ok(found) => made(lots_form(alloc, ward, &found)),
        Err(stop) => stopped(stop),
    }
}

/// Reads the wards from the office, and returns the declaration of one of them, or why there is none.
fn declaration_asked<S: Alter>(alloc: Global, office: &mut Office<S>, ward: u32) -> LineOutcome
    ensures found { WhenOpenAt (state S.Store) office.old office.new
        (λ s. IsAskedOf s (Question.Form Form.Declaration ward) (page_of result) office.new.closed (state S.Store office.old.held) (state S.Store office.new.held)) }
    ensures same { OnlyReads (state S.Store office.old.held) (state S.Store office.new.held) }
{
    match office.wards() {
        Ok(found) => made(declaration_form(alloc, ward, &found)),
        Err(stop) => stopped(stop),
    }
}

/// Returns a form of a ward, filled in from the office, or why there is none.
pub(crate) fn form_of<S: Alter>(
    alloc: Global,
    office: &mut Office<S>,
    form: Form,
    ward: u32,
) -> LineOutcome
    ensures found { WhenOpenAt (state S.Store) office.old office.new
        (λ s. IsAskedOf s (Question.Form form ward) (page_of result) office.new.closed (state S.Store office.old.held) (state S.Store office.new.held)) }
    ensures same { OnlyReads (state S.Store office.old.held) (state S.Store office.new.held) }
{
    match form {
        Form::Covers => covers_asked(alloc, office, ward),
        Form::Adjudication => adjudication_asked(alloc, office, ward),
        Form::Lots => lot_asked(alloc, office, ward),
        Form::Declaration => declaration_asked(alloc, office, ward),
    }
}
