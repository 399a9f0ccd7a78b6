//! The texts of a sealed ward, made again from its ballots.

ghost use Rattle.std.specs.Prelude.{◌≡◌, map, option_map, string_bytes, if◌then◌else◌, IfOk};
ghost use Rattle.std.specs.Option.{option_copied};
ghost use Rattle.publication.specs.Election.{ward_entry};
ghost use Rattle.sheet.specs.Entries.{shown};
ghost use Rattle.sheet.specs.Index.{elected_shown, listed};
ghost use Rattle.sheet.specs.Sheet.{declaration};
ghost use Rattle.sheet.specs.Wards.{CanBePrinted};
ghost use Rattle.checker.specs.Folders.{elected_in, listed_as, texts_as};
ghost use Rattle.checker.specs.FolderWards.{told_texts};

use crate::wards::Election;
use paper::Columns;
use publication::WardTexts;
use sheet::{
    CountShown, ListedWard, Ward, WardStanding, ballots_text, declaration_text, page_text,
    results_text, sheet_text, spreadsheet_text,
};
use std::alloc::{AllocError, Global};

/// The texts of a sealed ward.
#[derive(Drop)]
pub(crate) struct SealedTexts {
    pub(crate) number: u8,
    pub(crate) name: String,
    pub(crate) page: String,
    pub(crate) sheet: String,
    pub(crate) declaration: Option<String>,
    pub(crate) table: String,
    pub(crate) results: String,
    pub(crate) ballots: String,
}

/// Returns the declaration of a ward, if it is declared.
fn declaration_if(
    alloc: Global,
    ward: &Ward,
    elected: Columns,
    is_declared: bool,
) -> Result<Option<String>, AllocError>
    requires { CanBePrinted ward.now }
    ensures { IfOk result (λ text. option_map string_bytes text ≡ (if is_declared then Some (declaration (shown ward.now) elected) else None)) }
{
    if !is_declared {
        return Ok(None);
    }
    Ok(Some(declaration_text(alloc, ward, elected)?))
}

/// Returns the texts of a ward under the given title, showing the given part of its count.
pub(crate) fn sealed_texts(
    alloc: Global,
    title: &str,
    election: &Election,
    count: &CountShown,
    elected: Columns,
    is_declared: bool,
) -> Result<SealedTexts, AllocError>
    requires { CanBePrinted election.now.ward }
    ensures { let e = election.now in IfOk result (λ texts. told_texts texts
        ≡ texts_as title.now (shown e.ward) e.bundles.now count.now.lots.now count.now.stages.now count.now.surpluses.now elected is_declared) }
{
    let ward = &election.ward;
    let stages = count.stages;
    let page = page_text(alloc, ward, title, is_declared, count)?;
    let sheet = sheet_text(alloc, ward, stages)?;
    let declaration = declaration_if(alloc, ward, elected, is_declared)?;
    let table = spreadsheet_text(alloc, ward, stages)?;
    let results = results_text(alloc, ward, is_declared, stages, count.lots)?;
    let ballots = ballots_text(alloc, ward, election.bundles, count.lots)?;
    let name = String::from_str(alloc, ward.name)?;
    Ok(SealedTexts {
        number: ward.number,
        name,
        page,
        sheet,
        declaration,
        table,
        results,
        ballots,
    })
}

/// Returns the candidates elected, if the ward is declared.
fn elected_in(
    alloc: Global,
    ward: &Ward,
    elected: &Columns,
    is_declared: bool,
) -> Result<Vec<(u32, String)>, AllocError>
    ensures { IfOk result (λ names. map elected_shown names.items ≡ elected_in (shown ward.now).candidates elected.now is_declared) }
{
    let mut names = Vec::new(alloc);
    if !is_declared {
        return Ok(names);
    }
    for (c, name) in ward.candidates {
        if !elected.has(*c) {
            continue;
        }
        names.push((u32::from(*c), String::from_str(alloc, name.as_str())?))?;
    }
    Ok(names)
}

/// Returns the status of a sealed ward.
fn standing_of(is_declared: bool) -> WardStanding
    ensures { result ≡ (if is_declared then WardStanding.Declared else WardStanding.Sealed) }
{
    if is_declared {
        WardStanding::Declared
    } else {
        WardStanding::Sealed
    }
}

/// Returns a sealed ward, as the page of all wards lists it.
pub(crate) fn listed_ward(
    alloc: Global,
    ward: &Ward,
    elected: &Columns,
    is_declared: bool,
) -> Result<ListedWard, AllocError>
    ensures { IfOk result (λ made. listed made ≡ listed_as (shown ward.now) elected.now is_declared) }
{
    Ok(ListedWard {
        number: u32::from(ward.number),
        name: String::from_str(alloc, ward.name)?,
        seats: u32::from(ward.seats),
        standing: standing_of(is_declared),
        is_contested: usize::from(ward.seats) < ward.candidates.len(),
        elected: elected_in(alloc, ward, elected, is_declared)?,
    })
}

/// Returns a text, if there is one.
fn text_in(text: &Option<String>) -> Option<&str>
    ensures { option_copied result ≡ option_map string_bytes text.entry.now }
{
    match text {
        Some(text) => Some(text.as_str()),
        None => None,
    }
}

/// Returns the texts of a ward, to be published.
pub(crate) fn published_texts<'a>(texts: &'a SealedTexts) -> WardTexts<'a>
    ensures { ward_entry result ≡ told_texts texts.entry.now }
{
    WardTexts {
        number: texts.number,
        name: texts.name.as_str(),
        page: texts.page.as_str(),
        sheet: texts.sheet.as_str(),
        declaration: text_in(&texts.declaration),
        table: texts.table.as_str(),
        results: texts.results.as_str(),
        ballots: Some(texts.ballots.as_str()),
    }
}
