//! Reading the state of the office. No read changes it.
#![tactic(auto, using(crate::proofs::StopLemmas::stops_of_memory))]

ghost use Rattle.std.specs.Prelude.{◌≡◌, ◌⊎◌, Bool, true, false, map, IfOk, IfErr, IfSome, IfNone, IsSome, OnOk, Some, None, Ok, Err, string_bytes};
ghost use Rattle.sqlite.specs.Held.{state};
ghost use Rattle.register.specs.Status.{paper_at, paper_entry, status_entry, work_entry, work_of};
ghost use Rattle.register.specs.NextSteps.{step_entry};
ghost use Rattle.register.specs.Seen.{seen_by};
ghost use Rattle.register.specs.Repeats.{is_kept_otherwise};
ghost use Rattle.register.specs.declared.refusal.Reason.{Reason};
ghost use Rattle.tables.specs.Reading.{OnlyReads};
ghost use Rattle.register.specs.Elections.{ElectionEntry};
ghost use Rattle.register.specs.Tabulated.{IsCountedWard, IsSheetOf};
ghost use Rattle.office.specs.Answers.{WhenOpenAt};
ghost use Rattle.office.specs.Reads.{ReadWhenOpen, status_answer, next_answer, columns_answer, work_answer, paper_answer, FailsFor, ReadFailsBy, ClosesAt};
ghost use Rattle.office.specs.Sheets.{is_printable_in, text_shown, text_answer, FailsToPrint, FailsToWrite, IsTextual, IsOfMemory};

use crate::answers::ReadError;
use crate::open_office::Office;
use crate::sheets::{WardText, declaration, text_of, texts_are_there};
use paper::Columns;
use register::ranges::{is_batch_number, is_clerk, is_ward_number};
use register::{
    BallotPaper, CountedWard, NextStep, Reason, Refusal, Request, Status, WardSheet, Work,
};
use sqlite::Alter;
use std::alloc::{AllocError, Global};
use store::Fault;

/// Reads from the store if the office is open and the number is in range, and otherwise returns the reason why it
/// can't. Returns what was found, or the value computed from it. If the store has nothing under this number, returns
/// the given reason.
macro_rules! read {
    ($office:ident, $is_in_range:expr => $load:ident($($number:ident)?)) => {{
        if let Some(stop) = $office.stop_before($is_in_range) {
            return Err(stop);
        }
        match $office.store.$load($($number)?) {
            Ok(found) => Ok(found),
            Err(fault) => Err($office.stopped_by(fault)),
        }
    }};
    ($office:ident, $is_in_range:expr => $load:ident($($number:ident),+), $missing:expr) => {
        read!($office, $is_in_range => $load($($number),+), $missing, found => Ok(found))
    };
    ($office:ident, $is_in_range:expr => $load:ident($($number:ident),+), $missing:expr, $found:ident => $told:expr) => {{
        if let Some(stop) = $office.stop_before($is_in_range) {
            return Err(stop);
        }
        match $office.store.$load($($number),+) {
            Ok(Some($found)) => $told,
            Ok(None) => Err(refused($office.alloc, $missing)),
            Err(fault) => Err($office.stopped_by(fault)),
        }
    }};
}

pub(crate) use read;

/// Returns a refusal for a reason, or `Memory` if an allocation fails.
pub(crate) fn refused(alloc: Global, reason: Reason) -> ReadError
    ensures reason { FailsFor reason result }
    ensures closes { (closed : Bool) → ClosesAt closed result }
    ensures memory { IsOfMemory result }
{
    match Refusal::new(alloc, reason) {
        Ok(refusal) => ReadError::Refused(refusal),
        Err(_) => ReadError::Fault(Fault::Memory),
    }
}

impl<S: Alter> Office<S> {
    /// Returns the reason why a read can't query the store, if there is one: the office is closed, or the number is out
    /// of range.
    pub(crate) fn stop_before(&self, is_in_range: bool) -> Option<ReadError>
        ensures closed { self.now.closed ≡ true → result ≡ Some (ReadError.Fault Fault.Closed) }
        ensures range { self.now.closed ≡ false → IfSome result (λ stop. (is_in_range ≡ false) × FailsFor Reason.NumberOutOfRange stop × IsOfMemory stop) }
        ensures none { IfNone result ((self.now.closed ≡ false) × (is_in_range ≡ true)) }
        ensures closes { IfSome result (ClosesAt self.now.closed) }
    {
        if self.closed {
            return Some(ReadError::Fault(Fault::Closed));
        }
        if !is_in_range {
            return Some(refused(self.alloc, Reason::NumberOutOfRange));
        }
        None
    }

    /// Returns a fault that occurred during a read. Any fault except `Memory` closes the office.
    pub(crate) fn stopped_by(&mut self, fault: Fault) -> ReadError
        ensures told { result ≡ ReadError.Fault fault }
        ensures held { self.new.held ≡ self.old.held }
        ensures kept { fault ≡ Fault.Memory → self.new.closed ≡ false }
        ensures closes { (fault ≡ Fault.Memory) ⊎ (self.new.closed ≡ true) }
        ensures shuts { fault ≡ Fault.Store → self.new.closed ≡ true }
    {
        self.closed = fault != Fault::Memory;
        ReadError::Fault(fault)
    }

    /// Returns a ward's status.
    ///
    /// Refused if the ward number is outside 1 to 99 or there is no such ward. Nothing is changed. After `Memory` the
    /// office stays open; any other fault closes it. A closed office returns `Closed`.
    pub fn status(&mut self, ward: u32) -> Result<Status, ReadError>
        ensures reads { ReadWhenOpen (state S.Store) self.old self.new status_entry (λ s. status_answer s ward) result }
        ensures same { OnlyReads (state S.Store self.old.held) (state S.Store self.new.held) }
        ensures closes { IfErr result (ClosesAt self.new.closed) }
        ensures cause { WhenOpenAt (state S.Store) self.old self.new (λ s. IfErr result (ReadFailsBy (state S.Store self.old.held) (state S.Store self.new.held))) }
        ensures closed { self.old.closed ≡ true → (result ≡ Err (ReadError.Fault Fault.Closed)) × (self.new ≡ self.old) }
    {
        read!(self, is_ward_number(ward) => load_status(ward), Reason::NoSuchWard)
    }

    /// Returns the next step in a ward's election, along with the ward's candidates once it is being counted.
    ///
    /// Refused if the ward number is outside 1 to 99 or there is no such ward. Nothing is changed. After `Memory` the
    /// office stays open; any other fault closes it. A closed office returns `Closed`.
    pub fn next_step(&mut self, ward: u32) -> Result<NextStep, ReadError>
        ensures reads { ReadWhenOpen (state S.Store) self.old self.new step_entry (λ s. next_answer s ward) result }
        ensures same { OnlyReads (state S.Store self.old.held) (state S.Store self.new.held) }
        ensures closes { IfErr result (ClosesAt self.new.closed) }
        ensures cause { WhenOpenAt (state S.Store) self.old self.new (λ s. IfErr result (ReadFailsBy (state S.Store self.old.held) (state S.Store self.new.held))) }
        ensures closed { self.old.closed ≡ true → (result ≡ Err (ReadError.Fault Fault.Closed)) × (self.new ≡ self.old) }
    {
        read!(self, is_ward_number(ward) => load_next(ward), Reason::NoSuchWard)
    }

    /// Returns the columns of a batch's papers: the numbers of its ward's candidates, in ascending order.
    ///
    /// Refused if the batch number is outside 1 to 9999 or there is no such batch. Nothing is changed. After `Memory`
    /// the office stays open; any other fault closes it. A closed office returns `Closed`.
    pub fn columns(&mut self, batch: u32) -> Result<Columns, ReadError>
        ensures reads { ReadWhenOpen (state S.Store) self.old self.new (λ columns. columns) (λ s. columns_answer s batch) result }
        ensures same { OnlyReads (state S.Store self.old.held) (state S.Store self.new.held) }
        ensures closes { IfErr result (ClosesAt self.new.closed) }
        ensures cause { WhenOpenAt (state S.Store) self.old self.new (λ s. IfErr result (ReadFailsBy (state S.Store self.old.held) (state S.Store self.new.held))) }
        ensures closed { self.old.closed ≡ true → (result ≡ Err (ReadError.Fault Fault.Closed)) × (self.new ≡ self.old) }
    {
        read!(self, is_batch_number(batch) => load_columns(batch), Reason::NoSuchBatch)
    }

    /// Returns a clerk's work: the clerk's batches in wards that are being keyed, in numerical order. Each entry
    /// gives the batch's ward, the columns and the number of its papers, its current round, and whether the clerk has
    /// keyed that round.
    ///
    /// The result depends only on what the clerk can see of the state, regardless of what others keyed. Refused if the
    /// clerk number is outside 1 to 999. Nothing is changed. After `Memory` the office stays open; any other fault
    /// closes it. A closed office returns `Closed`.
    pub fn work(&mut self, clerk: u32) -> Result<Vec<Work>, ReadError>
        ensures reads { ReadWhenOpen (state S.Store) self.old self.new (λ work. map work_entry work.items) (λ s. work_answer s clerk) result }
        ensures blind { WhenOpenAt (state S.Store) self.old self.new (λ s. IfOk result (λ work. map work_entry work.items ≡ work_of (seen_by clerk s) clerk)) }
        ensures same { OnlyReads (state S.Store self.old.held) (state S.Store self.new.held) }
        ensures closes { IfErr result (ClosesAt self.new.closed) }
        ensures cause { WhenOpenAt (state S.Store) self.old self.new (λ s. IfErr result (ReadFailsBy (state S.Store self.old.held) (state S.Store self.new.held))) }
        ensures closed { self.old.closed ≡ true → (result ≡ Err (ReadError.Fault Fault.Closed)) × (self.new ≡ self.old) }
    {
        read!(self, is_clerk(clerk) => load_work(clerk))
    }

    /// Returns the text of the ballot papers of a batch for one of its clerks: the ward, and the candidates in it.
    ///
    /// The result depends only on what the clerk can see of the state. Refused if a number is out of range, there is no
    /// such batch, or the clerk isn't one of its clerks. Nothing is changed. After `Memory` the office stays open; any
    /// other fault closes it. A closed office returns `Closed`.
    pub fn paper(&mut self, clerk: u32, batch: u32) -> Result<BallotPaper, ReadError>
        ensures reads { ReadWhenOpen (state S.Store) self.old self.new paper_entry (λ s. paper_answer s clerk batch) result }
        ensures blind { WhenOpenAt (state S.Store) self.old self.new (λ s. IfOk result (λ paper. Some (paper_entry paper) ≡ paper_at (seen_by clerk s) clerk batch)) }
        ensures same { OnlyReads (state S.Store self.old.held) (state S.Store self.new.held) }
        ensures closes { IfErr result (ClosesAt self.new.closed) }
        ensures cause { WhenOpenAt (state S.Store) self.old self.new (λ s. IfErr result (ReadFailsBy (state S.Store self.old.held) (state S.Store self.new.held))) }
        ensures closed { self.old.closed ≡ true → (result ≡ Err (ReadError.Fault Fault.Closed)) × (self.new ≡ self.old) }
    {
        read!(self, is_clerk(clerk) && is_batch_number(batch) => load_paper(clerk, batch), Reason::NotItsClerk)
    }

    /// Returns whether the stored content of a repeated request differs from the request. A receipt contains only the
    /// id and the subject of its request, so a repeated request gets the same reply whatever else it contains.
    ///
    /// Never refused. Nothing is changed. After `Memory` the office stays open; any other fault closes it. A closed
    /// office returns `Closed`.
    pub fn differs_from_stored(&mut self, request: &Request) -> Result<bool, ReadError>
        ensures reads { ReadWhenOpen (state S.Store) self.old self.new (λ differs. differs) (λ s. Ok (is_kept_otherwise s request.now)) result }
        ensures same { OnlyReads (state S.Store self.old.held) (state S.Store self.new.held) }
        ensures closes { IfErr result (ClosesAt self.new.closed) }
        ensures cause { WhenOpenAt (state S.Store) self.old self.new (λ s. IfErr result (ReadFailsBy (state S.Store self.old.held) (state S.Store self.new.held))) }
        ensures closed { self.old.closed ≡ true → (result ≡ Err (ReadError.Fault Fault.Closed)) × (self.new ≡ self.old) }
    {
        read!(self, true => load_differs_from_stored(request))
    }

    /// Returns a ward's stage sheet: its papers and the stages done so far, but no later ones. For an
    /// uncontested ward it shows the seats.
    ///
    /// Refused if the ward number is outside 1 to 99, there is no such ward, or the ward isn't sealed yet. Nothing is
    /// changed. After `Memory` the office stays open; any other fault closes it. A closed office returns `Closed`.
    pub fn sheet(&mut self, ward: u32) -> Result<String, ReadError>
        ensures reads { ReadWhenOpen (state S.Store) self.old self.new string_bytes (λ s. text_answer WardText.Sheet s ward) result }
        ensures same { OnlyReads (state S.Store self.old.held) (state S.Store self.new.held) }
        ensures closes { IfErr result (ClosesAt self.new.closed) }
        ensures cause { WhenOpenAt (state S.Store) self.old self.new (λ s. IfErr result (ReadFailsBy (state S.Store self.old.held) (state S.Store self.new.held))) }
        ensures closed { self.old.closed ≡ true → (result ≡ Err (ReadError.Fault Fault.Closed)) × (self.new ≡ self.old) }
    {
        self.text(ward, WardText::Sheet)
    }

    /// Returns one of a ward's texts, generated from the contents of its stage sheet: its papers and the stages done so
    /// far, but no later ones. For an uncontested ward, the ballots contain its seats and candidates.
    ///
    /// Refused if the ward number is outside 1 to 99, there is no such ward, or the text isn't available yet: the
    /// declaration is available once the ward is declared, and any other text once it is sealed. Nothing is changed.
    /// After `Memory` the office stays open; any other fault closes it. A closed office returns `Closed`.
    pub fn text(&mut self, ward: u32, text: WardText) -> Result<String, ReadError>
        ensures reads { ReadWhenOpen (state S.Store) self.old self.new string_bytes (λ s. text_answer text.entry s ward) result }
        ensures same { OnlyReads (state S.Store self.old.held) (state S.Store self.new.held) }
        ensures closes { IfErr result (ClosesAt self.new.closed) }
        ensures cause { WhenOpenAt (state S.Store) self.old self.new (λ s. IfErr result (ReadFailsBy (state S.Store self.old.held) (state S.Store self.new.held))) }
        ensures closed { self.old.closed ≡ true → (result ≡ Err (ReadError.Fault Fault.Closed)) × (self.new ≡ self.old) }
    {
        texts_are_there();
        read!(self, is_ward_number(ward) => load_sheet(ward), Reason::NoSuchWard, sheet => self.read_text(&sheet, text))
    }

    /// Returns a ward's declaration: the elected candidates.
    ///
    /// Refused if the ward number is outside 1 to 99, there is no such ward, or the ward isn't declared yet. Nothing is
    /// changed. After `Memory` the office stays open; any other fault closes it. A closed office returns `Closed`.
    pub fn result(&mut self, ward: u32) -> Result<String, ReadError>
        ensures reads { ReadWhenOpen (state S.Store) self.old self.new string_bytes (λ s. text_answer WardText.Declaration s ward) result }
        ensures same { OnlyReads (state S.Store self.old.held) (state S.Store self.new.held) }
        ensures closes { IfErr result (ClosesAt self.new.closed) }
        ensures cause { WhenOpenAt (state S.Store) self.old self.new (λ s. IfErr result (ReadFailsBy (state S.Store self.old.held) (state S.Store self.new.held))) }
        ensures closed { self.old.closed ≡ true → (result ≡ Err (ReadError.Fault Fault.Closed)) × (self.new ≡ self.old) }
    {
        texts_are_there();
        read!(self, is_ward_number(ward) => load_counted(ward), Reason::NoSuchWard, counted => self.declaration_of(&counted))
    }

    /// Returns a text that was written. If it couldn't be written, the rows don't belong to any office, and the office
    /// is closed.
    fn told(&mut self, written: Result<Option<String>, AllocError>) -> Result<String, ReadError>
        ensures told { IfOk result (λ text. written ≡ Ok (Some text)) }
        ensures stopped { self.old.closed ≡ false → IfErr result (FailsToWrite self.new.closed) }
        ensures closes { IfErr result (ClosesAt self.new.closed) }
        ensures cause { IfOk written IsSome → IfErr result IsOfMemory }
        ensures held { self.new.held ≡ self.old.held }
        ensures open_still { OnOk result (self.new.closed ≡ self.old.closed) }
    {
        match written {
            Ok(Some(text)) => Ok(text),
            Ok(None) => Err(self.stopped_by(Fault::Store)),
            Err(_) => Err(self.stopped_by(Fault::Memory)),
        }
    }

    /// Returns a text of a ward that was read. If the texts of the ward can be written, which is the case for every
    /// ward of an office, this fails only if an allocation fails.
    fn read_text(&mut self, sheet: &WardSheet, text: WardText) -> Result<String, ReadError>
        ensures told { IfOk result (λ told. (is_printable_in text.entry sheet.now.counted.ward.phase ≡ true)
            × ((e : ElectionEntry) → IsSheetOf e sheet.now → string_bytes told ≡ text_shown text.entry e)) }
        ensures stopped { self.old.closed ≡ false → IfErr result (λ stop. FailsToPrint text.entry sheet.now.counted.ward.phase self.new.closed stop) }
        ensures closes { IfErr result (ClosesAt self.new.closed) }
        ensures cause { (e : ElectionEntry) → IsSheetOf e sheet.now → IsTextual e → IfErr result IsOfMemory }
        ensures held { self.new.held ≡ self.old.held }
        ensures open_still { OnOk result (self.new.closed ≡ self.old.closed) }
    {
        if !text.is_printable_in(sheet.counted.ward.phase) {
            return Err(refused(self.alloc, Reason::WrongPhase));
        }
        let written = text_of(self.alloc, sheet, text);
        self.told(written)
    }

    /// Returns the declaration of a ward that was read, under the same conditions as `read_text`.
    fn declaration_of(&mut self, counted: &CountedWard) -> Result<String, ReadError>
        ensures told { IfOk result (λ text. (is_printable_in WardText.Declaration counted.now.ward.phase ≡ true)
            × ((e : ElectionEntry) → IsCountedWard e counted.now → string_bytes text ≡ text_shown WardText.Declaration e)) }
        ensures stopped { self.old.closed ≡ false → IfErr result (λ stop. FailsToPrint WardText.Declaration counted.now.ward.phase self.new.closed stop) }
        ensures closes { IfErr result (ClosesAt self.new.closed) }
        ensures cause { (e : ElectionEntry) → IsCountedWard e counted.now → IsTextual e → IfErr result IsOfMemory }
        ensures held { self.new.held ≡ self.old.held }
        ensures open_still { OnOk result (self.new.closed ≡ self.old.closed) }
    {
        if !WardText::Declaration.is_printable_in(counted.ward.phase) {
            return Err(refused(self.alloc, Reason::WrongPhase));
        }
        let written = declaration(self.alloc, counted);
        self.told(written)
    }
}
