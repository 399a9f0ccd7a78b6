//! A second record in a file: a script with one line for each request.

ghost use Rattle.std.specs.Prelude.{◌≡◌, false, is_err, Err, IfErr, IfSome, None, OnErr, OnOk, Option, Some, true};
ghost use Rattle.register.specs.Offices.{OfficeState};
ghost use Rattle.desk.specs.Records.{Appended, AppendsAll, AppendsSome, FlushesAll, IsRecordOf, Leaves, Records};
ghost use Rattle.desk.specs.RequestLines.{HasNoLine};
ghost use Rattle.desk.specs.ScriptRecords.{HoldsJournal, IsCauseOf, PutsAll, fault_of, file_of, has_failed};

use crate::record::Recorder;
use crate::request_lines::entry_of;
use register::Request;
use std::alloc::{AllocError, Global};
use streams::Broken;
use thiserror::Error;

/// A file to which bytes are appended. A stop leaves all bytes that were flushed, and a beginning of those appended since.
pub trait DurableSink {
    /// The file's bytes, if they are known.
    ghost kept: { Self → Option Appended };

    /// That a call failed.
    ghost broken: { Self → Type 0 };

    /// Appends bytes. After `Broken`, a beginning of them was appended.
    fn append(&mut self, bytes: &[u8]) -> Result<(), Broken>
        ensures all { OnOk result (AppendsAll (kept self.old) (kept self.new) bytes.now) }
        ensures some { OnErr result (AppendsSome (kept self.old) (kept self.new) bytes.now) }
        ensures cause { OnErr result (broken self.new) };

    /// Flushes the bytes appended so far. After `Broken`, a stop may leave them or not, as before.
    fn flush(&mut self) -> Result<(), Broken>
        ensures all { OnOk result (FlushesAll (kept self.old) (kept self.new)) }
        ensures none { OnErr result (IfSome (kept self.old) (λ file. kept self.new ≡ Some file)) }
        ensures cause { OnErr result (broken self.new) };
}

#[tactic(auto, using(crate::proofs::ScriptRecordLemmas::flush_failed))]
/// Appends bytes to a file and flushes them. After `Broken`, a beginning of them was appended, and nothing was flushed.
fn put_durably<W: DurableSink>(file: &mut W, bytes: &[u8]) -> Result<(), Broken>
    ensures all { OnOk result (PutsAll (W.kept file.old) (W.kept file.new) bytes.now) }
    ensures some { OnErr result (AppendsSome (W.kept file.old) (W.kept file.new) bytes.now) }
    ensures cause { OnErr result (W.broken file.new) }
{
    file.append(bytes)?;
    file.flush()
}

/// The reason why a request wasn't recorded.
#[derive(Clone, Copy, Debug, PartialEq, Eq, Error)]
pub enum RecordFault {
    /// A call of the file failed. A beginning of the line may have been appended.
    #[error("the file of the second record failed")]
    File,
    /// An allocation failed. Nothing was appended.
    #[error("out of memory for the second record")]
    Memory,
    /// The request can't be written as a line of a script: the line that would be written doesn't send it. Nothing was appended.
    #[error("a request has no line for the second record")]
    NoLine,
}

/// A record in a file.
///
/// When the record begins, the file must hold a journal of the office: all its bytes are flushed, and its last line has ended. After
/// each request it then holds a journal again, until the record fails. Once it has failed, nothing more is appended.
#[derive(Drop)]
pub struct ScriptRecord<W> {
    alloc: Global,
    file: W,
    comment: String,
    fault: Option<RecordFault>,
}

impl<W: DurableSink> ScriptRecord<W> {
    /// Returns a record that continues a file. If the file holds a journal of an office, it is a record of that office.
    pub fn new(alloc: Global, file: W) -> Self
        ensures file { file_of result ≡ file }
        ensures fault { fault_of result ≡ None }
        ensures begins { (s : OfficeState) → HoldsJournal (W.kept file) s → IsRecordOf (Leaves (W.kept (file_of result))) s }
    {
        ScriptRecord {
            alloc,
            file,
            comment: String::new(alloc),
            fault: None,
        }
    }

    /// Returns the fault with which the record failed, if it did.
    pub fn fault(&self) -> Option<RecordFault>
        ensures { result ≡ fault_of self.now }
    {
        self.fault
    }

    /// Returns the record's file.
    pub fn into_file(self) -> W
        ensures { result ≡ file_of self }
    {
        let ScriptRecord {
            alloc: _,
            file,
            comment: _,
            fault: _,
        } = self;
        file
    }

    /// Sets the comment that is written above the line of the next request, such as its time and its sender. A comment that doesn't
    /// fit into one line is left out.
    pub fn set_comment(&mut self, comment: String)
        ensures file { file_of self.new ≡ file_of self.old }
        ensures fault { fault_of self.new ≡ fault_of self.old }
    {
        self.comment = comment;
    }

    /// Appends the line of a request, after the comment, and flushes the file.
    fn write(&mut self, request: &Request) -> Result<(), RecordFault>
        ensures recorded { Records request.now (Leaves (W.kept (file_of self.old))) (Leaves (W.kept (file_of self.new))) (is_err result) }
        ensures cause { IfErr result (λ fault. IsCauseOf W.broken fault (file_of self.old) (file_of self.new)) }
        ensures no_line { IfErr result (λ fault. fault ≡ RecordFault.NoLine → HasNoLine request.now) }
        ensures fault { fault_of self.new ≡ fault_of self.old }
    {
        let text = match entry_of(self.alloc, self.comment.as_str(), request) {
            Ok(Some(text)) => text,
            Ok(None) => return Err(RecordFault::NoLine),
            Err(AllocError) => return Err(RecordFault::Memory),
        };
        match put_durably(&mut self.file, text.as_bytes()) {
            Ok(()) => Ok(()),
            Err(Broken) => Err(RecordFault::File),
        }
    }

    /// Records a request that the office has accepted, as [`Recorder::record`] does, and returns the reason if that fails.
    ///
    /// Each fault is final: later calls return it again, and append nothing. After `File`, a beginning of the line may have been
    /// appended; after `Memory` or `NoLine` nothing was.
    pub fn try_record(&mut self, request: &Request) -> Result<(), RecordFault>
        ensures recorded { has_failed self.old ≡ false
            → Records request.now (Leaves (W.kept (file_of self.old))) (Leaves (W.kept (file_of self.new))) (has_failed self.new) }
        ensures ok { OnOk result ((has_failed self.old ≡ false) × (has_failed self.new ≡ false)) }
        ensures err { IfErr result (λ fault. fault_of self.new ≡ Some fault) }
        ensures cause { has_failed self.old ≡ false → IfErr result (λ fault. IsCauseOf W.broken fault (file_of self.old) (file_of self.new)) }
        ensures no_line { has_failed self.old ≡ false → IfErr result (λ fault. fault ≡ RecordFault.NoLine → HasNoLine request.now) }
        ensures again { IfSome (fault_of self.old) (λ fault. (result ≡ Err fault) × (file_of self.new ≡ file_of self.old)) }
    {
        if let Some(fault) = self.fault {
            return Err(fault);
        }
        let written = self.write(request);
        self.comment.clear();
        self.fault = written.err();
        written
    }
}

impl<W: DurableSink> Recorder for ScriptRecord<W> {
    ghost records = { λ _. true };

    ghost found = { λ script. Leaves (W.kept (file_of script)) };

    ghost failed = { λ script. has_failed script };

    fn has_failed(&self) -> bool {
        self.fault.is_some()
    }

    fn record(&mut self, request: &Request) -> Result<(), Broken> {
        match self.try_record(request) {
            Ok(()) => Ok(()),
            Err(_) => Err(Broken),
        }
    }
}
