//! The stage sheet, the declaration, the ballots, the page and the index of wards, as strings.

ghost use Rattle.std.specs.Prelude.{◌≡◌, [], map, Some, IfOk, string_bytes};
ghost use Rattle.std.specs.Str.{IsUtf8};
ghost use Rattle.sheet.specs.Entries.{shown};
ghost use Rattle.sheet.specs.Ballots.{ballots};
ghost use Rattle.sheet.specs.Index.{index, listed};
ghost use Rattle.sheet.specs.Page.{page};
ghost use Rattle.sheet.specs.Sheet.{sheet, declaration};
ghost use Rattle.sheet.specs.Wards.{CanBePrinted};

use crate::ballots::write_ballots;
use crate::declaration::write_declaration;
use crate::index::{ListedWard, write_index};
use crate::page::{CountShown, write_page};
use crate::sheets::write_sheet;
use crate::ward::Ward;
use count::{Bundles, Stage};
use paper::Columns;
use std::alloc::{AllocError, Global};
use streams::{Broken, Sink};

/// An in-memory sink, which fails if an allocation fails.
#[derive(Drop)]
struct InMemory {
    text: Vec<u8>,
    failed: u64,
}

impl InMemory {
    /// Returns an empty sink. Allocates nothing.
    fn new(alloc: Global) -> InMemory
        ensures text { result.text.items ≡ [] }
        ensures none { result.failed ≡ 0 }
    {
        InMemory {
            text: Vec::new(alloc),
            failed: 0,
        }
    }

    /// Returns the text that has been written.
    fn into_text(self) -> String
        requires { IsUtf8 self.text.items }
        ensures { string_bytes result ≡ self.text.items }
    {
        String::from_utf8(self.text).unwrap()
    }
}

impl Sink for InMemory {
    ghost taken = { λ s. Some s.text.items };

    ghost failed = { λ s. s.failed };

    fn put(&mut self, bytes: &[u8]) -> Result<usize, Broken> {
        match self.text.extend_from_slice(bytes) {
            Ok(()) => Ok(bytes.len()),
            Err(AllocError) => {
                self.failed += 1;
                Err(Broken)
            }
        }
    }

    fn failures(&self) -> u64 {
        self.failed
    }
}

/// Returns the stage sheet of a ward, as written by [`write_sheet`].
///
/// The only error is a failed allocation.
pub fn sheet_text(alloc: Global, ward: &Ward, stages: &[Stage]) -> Result<String, AllocError>
    requires { CanBePrinted ward.now }
    ensures { IfOk result (λ text. string_bytes text ≡ sheet (shown ward.now) stages.now) }
{
    let mut page = InMemory::new(alloc);
    match write_sheet(&mut page, ward, stages) {
        Ok(()) => Ok(page.into_text()),
        Err(Broken) => Err(AllocError),
    }
}

/// Returns the declaration of a ward, as written by [`write_declaration`].
///
/// The only error is a failed allocation.
pub fn declaration_text(alloc: Global, ward: &Ward, elected: Columns) -> Result<String, AllocError>
    requires { CanBePrinted ward.now }
    ensures { IfOk result (λ text. string_bytes text ≡ declaration (shown ward.now) elected) }
{
    let mut page = InMemory::new(alloc);
    match write_declaration(&mut page, ward, elected) {
        Ok(()) => Ok(page.into_text()),
        Err(Broken) => Err(AllocError),
    }
}

/// Returns the ballots of a ward, as written by [`write_ballots`].
///
/// The only error is a failed allocation.
pub fn ballots_text(
    alloc: Global,
    ward: &Ward,
    bundles: &Bundles,
    lots: &[(u8, u8)],
) -> Result<String, AllocError>
    requires { CanBePrinted ward.now }
    ensures { IfOk result (λ text. string_bytes text ≡ ballots (shown ward.now) bundles.now lots.now) }
{
    let mut page = InMemory::new(alloc);
    match write_ballots(&mut page, ward, bundles, lots) {
        Ok(()) => Ok(page.into_text()),
        Err(Broken) => Err(AllocError),
    }
}

/// Returns the page of a ward, as written by [`write_page`].
///
/// The only error is a failed allocation.
pub fn page_text(
    alloc: Global,
    ward: &Ward,
    title: &str,
    is_declared: bool,
    count: &CountShown,
) -> Result<String, AllocError>
    requires { CanBePrinted ward.now }
    ensures { IfOk result (λ text. string_bytes text ≡ page (shown ward.now) title.now is_declared count.now.stages.now count.now.lots.now count.now.surpluses.now) }
{
    let mut page = InMemory::new(alloc);
    match write_page(&mut page, ward, title, is_declared, count) {
        Ok(()) => Ok(page.into_text()),
        Err(Broken) => Err(AllocError),
    }
}

/// Returns the page of all wards, as written by [`write_index`].
///
/// The only error is a failed allocation.
pub fn index_text(alloc: Global, title: &str, wards: &[ListedWard]) -> Result<String, AllocError>
    ensures { IfOk result (λ text. string_bytes text ≡ index title.now (map listed wards.now)) }
{
    let mut page = InMemory::new(alloc);
    match write_index(&mut page, title, wards) {
        Ok(()) => Ok(page.into_text()),
        Err(Broken) => Err(AllocError),
    }
}
