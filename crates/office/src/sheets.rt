//! A ward's public texts, generated from its election.

ghost use Rattle.std.specs.Prelude.{◌≡◌, [], true, map, Some, IfOk, IfSome, IsSome, string_bytes};
ghost use Rattle.std.specs.List.{list_all};
ghost use Rattle.register.specs.Ranges.{is_candidate_number};
ghost use Rattle.register.specs.Offices.{WardEntry, OfficeState, ward_at, candidate_entry};
ghost use Rattle.register.specs.StateConditions.{IsState};
ghost use Rattle.register.specs.Elections.{ElectionEntry, election_of, is_counted};
ghost use Rattle.register.specs.Tabulated.{IsCountedWard, IsSheetOf};
ghost use Rattle.sheet.specs.Entries.{shown};
ghost use Rattle.sheet.specs.Wards.{HasFewPapers, CanBePrinted};
ghost use Rattle.office.specs.Sheets.{is_numbered, IsTextual, candidate_shown, poll_shown, shown_with, election_shown, declaration_of};
ghost use Rattle.office.specs.Sheets.{stages_shown, bundles_shown, lots_shown, surpluses_shown, result_page_of, text_shown, is_printable_in};

use count::{Bundles, Stage, bundles_count_alike};
use register::marks::columns_of;
use register::{Candidate, CountedWard, Phase, WardSheet};
use sheet::{
    CountShown, PassedOn, Poll, Ward, ballots_text, can_be_printed, declaration_text, page_text,
    results_text, sheet_text, spreadsheet_text, surpluses_of,
};
use std::alloc::{AllocError, Global};
use store::elected_in;

/// Provides callers with the law about an office's texts: in any state of an office, the texts of every ward can be
/// written.
pub fn texts_are_there()
    ensures { (s : OfficeState) (w : WardEntry) → IsState s → ward_at s w.number ≡ Some w → IsTextual (election_of s w) }
{
    // Called for its law that the columns of a ward are the numbers of its candidates.
    columns_of(&[]);
}

/// The texts of a ward.
#[derive(Clone, Copy, Debug)]
pub enum WardText<'a> {
    /// The stage sheet, once the ward is sealed.
    Sheet,
    /// The declaration, once the ward is declared.
    Declaration,
    /// The ballots in the BLT format, once the ward is sealed.
    Ballots,
    /// The result as a page to print and sign, with this title, once the ward is sealed. An empty title is left out.
    Page(&'a str),
    /// The stages as a table for a spreadsheet, once the ward is sealed.
    Table,
    /// The result as JSON for other programs, once the ward is sealed.
    Results,
}

impl<'a> WardText<'a> {
    /// Returns true if the text may be printed in the given phase.
    pub(crate) fn is_printable_in(self, phase: Phase) -> bool
        ensures is { result ≡ is_printable_in self.entry phase }
        ensures counted { result ≡ true → is_counted phase ≡ true }
    {
        match self {
            WardText::Declaration => matches!(phase, Phase::Declared),
            WardText::Sheet
            | WardText::Ballots
            | WardText::Page(_)
            | WardText::Table
            | WardText::Results => { matches!(phase, Phase::Sealed | Phase::Declared) }
        }
    }
}

/// Returns a candidate's number and name, or `None` if the number is out of range. No candidate of an office has such a
/// number.
fn candidate_line(candidate: &Candidate) -> Result<Option<(u8, String)>, AllocError>
    ensures is { IfOk result (λ found. IfSome found (λ line. (line.0, string_bytes line.1) ≡ candidate_shown (candidate_entry candidate.now))) }
    ensures some { IfOk result (λ found. is_candidate_number candidate.now.number ≡ true → IsSome found) }
{
    let Ok(number) = u8::try_from(candidate.number) else {
        return Ok(None);
    };
    Ok(Some((number, candidate.name.clone()?)))
}

/// Returns the numbers and names of candidates, in order, or `None` if a number is out of range.
fn candidate_lines(
    alloc: Global,
    candidates: &[Candidate],
) -> Result<Option<Vec<(u8, String)>>, AllocError>
    ensures is { IfOk result (λ found. IfSome found (λ lines. map (λ line. (line.0, string_bytes line.1)) lines.items ≡ map candidate_shown (map candidate_entry candidates.now))) }
    ensures some { IfOk result (λ found. list_all is_numbered (map candidate_entry candidates.now) ≡ true → IsSome found) }
{
    let mut lines = Vec::new(alloc);
    for candidate in candidates {
        let Some(line) = candidate_line(candidate)? else {
            return Ok(None);
        };
        lines.push(line)?;
    }
    Ok(Some(lines))
}

/// Returns the poll of a ward that is being counted.
fn poll_of(sheet: &WardSheet) -> Option<Poll>
    ensures { (e : ElectionEntry) → IsSheetOf e sheet.now → is_counted e.ward.phase ≡ true → result ≡ poll_shown e }
{
    match &sheet.counted.count {
        Some(count) => Some(Poll {
            valid: count.valid(),
            rejected: sheet.rejected,
        }),
        None => None,
    }
}

/// Returns a counted ward as the texts show it, with the given candidate lines and poll. Returns `None` if a
/// number is out of range and the ward therefore can't be printed. No ward of an office has such a number.
fn ward_of<'a>(
    counted: &'a CountedWard,
    candidates: &'a [(u8, String)],
    poll: Option<Poll>,
) -> Option<Ward<'a>>
    ensures is { (e : ElectionEntry) → IsCountedWard e counted.now → map (λ line. (line.0, string_bytes line.1)) candidates.now ≡ map candidate_shown e.candidates
        → IfSome result (λ ward. shown ward ≡ shown_with poll e) }
    ensures printed { IfSome result CanBePrinted }
    ensures some { (e : ElectionEntry) → IsCountedWard e counted.now → map (λ line. (line.0, string_bytes line.1)) candidates.now ≡ map candidate_shown e.candidates
        → IsTextual e → HasFewPapers poll → IsSome result }
{
    let Ok(number) = u8::try_from(counted.ward.number) else {
        return None;
    };
    let Ok(seats) = u8::try_from(counted.ward.seats) else {
        return None;
    };
    let ward = Ward {
        number,
        name: counted.ward.name.as_str(),
        seats,
        candidates,
        poll,
    };
    if !can_be_printed(&ward) {
        return None;
    }
    Some(ward)
}

/// Returns the stages done so far in a ward's count; an uncontested ward has none.
fn stages_of(counted: &CountedWard) -> &[Stage]
    ensures { (e : ElectionEntry) → IsCountedWard e counted.now → is_counted e.ward.phase ≡ true → result.now ≡ stages_shown e }
{
    match &counted.count {
        Some(count) => count.kept.stages(),
        None => &[],
    }
}

/// Returns the bundles of equal valid papers of a ward that is being counted, or `none` for an uncontested ward, which
/// has no bundles.
fn bundles_of<'a>(counted: &'a CountedWard, none: &'a Bundles) -> &'a Bundles
    requires { none.now ≡ [] }
    ensures { (e : ElectionEntry) → IsCountedWard e counted.now → is_counted e.ward.phase ≡ true → result.now ≡ bundles_shown e }
{
    match &counted.count {
        Some(count) => count.kept.bundles(),
        None => none,
    }
}

/// Returns the lots recorded in a ward's count; an uncontested ward has none.
fn lots_of(counted: &CountedWard) -> &[(u8, u8)]
    ensures { (e : ElectionEntry) → IsCountedWard e counted.now → is_counted e.ward.phase ≡ true → result.now ≡ lots_shown e }
{
    match &counted.count {
        Some(count) => &count.lots,
        None => &[],
    }
}

/// Returns the papers that passed on with each surplus in a ward's count; an uncontested ward has none.
fn surpluses_in(
    alloc: Global,
    counted: &CountedWard,
    ward: &Ward,
) -> Result<Vec<PassedOn>, AllocError>
    ensures { IfOk result (λ found. (e : ElectionEntry) → IsCountedWard e counted.now → is_counted e.ward.phase ≡ true
        → shown ward.now ≡ election_shown e → found.items ≡ surpluses_shown e) }
{
    // called for its law that the bundles of a ward's papers can be counted if the papers can
    bundles_count_alike();
    let none = Bundles::new(alloc);
    match &counted.count {
        None => Ok(Vec::new(alloc)),
        Some(count) => {
            let candidates = count.kept.candidates();
            let bundles = bundles_of(counted, &none);
            let stages = stages_of(counted).len();
            surpluses_of(
                alloc,
                candidates,
                ward.seats,
                bundles,
                lots_of(counted),
                stages,
            )
        }
    }
}

/// Returns the page of a ward that was read, given what the page shows of it.
fn write_page(
    alloc: Global,
    counted: &CountedWard,
    ward: &Ward,
    title: &str,
) -> Result<String, AllocError>
    requires { CanBePrinted ward.now }
    ensures { IfOk result (λ told. (e : ElectionEntry) → IsCountedWard e counted.now → is_counted e.ward.phase ≡ true
        → shown ward.now ≡ election_shown e → string_bytes told ≡ result_page_of title.now e) }
{
    let is_declared = WardText::Declaration.is_printable_in(counted.ward.phase);
    let surpluses = surpluses_in(alloc, counted, ward)?;
    let count = CountShown {
        stages: stages_of(counted),
        lots: lots_of(counted),
        surpluses: &surpluses,
    };
    page_text(alloc, ward, title, is_declared, &count)
}

/// Returns a text of a ward that was read, given what the text shows.
fn write_text(
    alloc: Global,
    counted: &CountedWard,
    ward: &Ward,
    text: WardText,
) -> Result<String, AllocError>
    requires { CanBePrinted ward.now }
    ensures { IfOk result (λ told. (e : ElectionEntry) → IsCountedWard e counted.now → is_counted e.ward.phase ≡ true
        → shown ward.now ≡ election_shown e → string_bytes told ≡ text_shown text.entry e) }
{
    match text {
        WardText::Sheet => sheet_text(alloc, ward, stages_of(counted)),
        WardText::Declaration => declaration_text(alloc, ward, elected_in(counted)),
        WardText::Ballots => {
            let none = Bundles::new(alloc);
            ballots_text(alloc, ward, bundles_of(counted, &none), lots_of(counted))
        }
        WardText::Page(title) => write_page(alloc, counted, ward, title),
        WardText::Table => spreadsheet_text(alloc, ward, stages_of(counted)),
        WardText::Results => {
            let is_declared = WardText::Declaration.is_printable_in(counted.ward.phase);
            let stages = stages_of(counted);
            results_text(alloc, ward, is_declared, stages, lots_of(counted))
        }
    }
}

/// Returns one of a ward's texts, generated from the stages done so far. Returns `None` if the text can't be written,
/// which never happens for an office. Fails with `AllocError` if an allocation fails.
pub(crate) fn text_of(
    alloc: Global,
    sheet: &WardSheet,
    text: WardText,
) -> Result<Option<String>, AllocError>
    ensures is { IfOk result (λ found. IfSome found (λ told. (e : ElectionEntry) → IsSheetOf e sheet.now → is_counted e.ward.phase ≡ true → string_bytes told ≡ text_shown text.entry e)) }
    ensures some { IfOk result (λ found. (e : ElectionEntry) → IsSheetOf e sheet.now → is_counted e.ward.phase ≡ true → IsTextual e → IsSome found) }
{
    let counted = &sheet.counted;
    let Some(candidates) = candidate_lines(alloc, &counted.candidates)? else {
        return Ok(None);
    };
    let Some(ward) = ward_of(counted, &candidates, poll_of(sheet)) else {
        return Ok(None);
    };
    Ok(Some(write_text(alloc, counted, &ward, text)?))
}

/// Returns a ward's declaration, generated from the elected candidates, under the same conditions as `text_of`.
pub(crate) fn declaration(
    alloc: Global,
    counted: &CountedWard,
) -> Result<Option<String>, AllocError>
    ensures is { IfOk result (λ found. IfSome found (λ text. (e : ElectionEntry) → IsCountedWard e counted.now → is_counted e.ward.phase ≡ true → string_bytes text ≡ declaration_of e)) }
    ensures some { IfOk result (λ found. (e : ElectionEntry) → IsCountedWard e counted.now → is_counted e.ward.phase ≡ true → IsTextual e → IsSome found) }
{
    let Some(candidates) = candidate_lines(alloc, &counted.candidates)? else {
        return Ok(None);
    };
    let Some(ward) = ward_of(counted, &candidates, None) else {
        return Ok(None);
    };
    Ok(Some(declaration_text(alloc, &ward, elected_in(counted))?))
}
