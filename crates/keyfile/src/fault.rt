//! What is wrong with an import file.

ghost use Rattle.std.specs.Prelude.{◌≡◌, IfOk, IfErr, Ok, Err};
ghost use Rattle.keyfile.specs.declared.fault.Flaw.TheVariants.{Memory};
ghost use Rattle.keyfile.specs.Faults.{flaw_number, flaw_words};

use std::alloc::AllocError;
use std::error::Error;
use std::fmt;

/// The reason why a record of an import file is refused. If a record has several flaws, the first one in this order is reported:
/// other file, other keying, header, record length, too many records, not UTF-8, number, paper order, marks.
#[derive(Clone, Copy, Debug, PartialEq, Eq)]
pub enum Flaw {
    /// There is no record, or the first one isn't the header. A first record that isn't UTF-8 is not a header and names no keying.
    Header,
    /// The record doesn't have as many fields as the header.
    RecordLength,
    /// A number field doesn't consist of 1 to 5 digits without a leading 0.
    Number,
    /// The number of the paper isn't the number of the record.
    PaperOrder,
    /// A mark field contains a comma, a double quote or a line break.
    Marks,
    /// A field isn't UTF-8.
    NotUtf8,
    /// The record exceeds the maximum number of records.
    TooManyRecords,
    /// The file couldn't be opened, or a read failed.
    ReadFailed,
    /// An allocation failed.
    Memory,
    /// The header names this batch and this clerk, but a keying of another batch or by another clerk is expected.
    OtherKeying { batch: u32, clerk: u32 },
    /// The file doesn't have the given digest.
    OtherFile,
}

/// The fault for which an import file is refused.
#[derive(Clone, Copy, Debug, PartialEq, Eq)]
pub struct FileFault {
    pub flaw: Flaw,
    /// The record's number; the header is record 0. For `ReadFailed` and `Memory`, this is the record being read.
    pub record_number: u32,
}

impl Flaw {
    /// Returns the number of the flaw, 1 to 11.
    pub fn number(&self) -> u32
        ensures { result ≡ flaw_number self.now }
    {
        match self {
            Flaw::Header => 1,
            Flaw::RecordLength => 2,
            Flaw::Number => 3,
            Flaw::PaperOrder => 4,
            Flaw::Marks => 5,
            Flaw::NotUtf8 => 6,
            Flaw::TooManyRecords => 7,
            Flaw::ReadFailed => 8,
            Flaw::Memory => 9,
            Flaw::OtherKeying { .. } => 10,
            Flaw::OtherFile => 11,
        }
    }

    /// Returns the text of the flaw, without the batch and the clerk if the flaw names them.
    pub fn words(&self) -> &'static str
        ensures { result.now ≡ flaw_words self.now }
    {
        match self {
            Flaw::Header => "header",
            Flaw::RecordLength => "record length",
            Flaw::Number => "number",
            Flaw::PaperOrder => "paper order",
            Flaw::Marks => "marks",
            Flaw::NotUtf8 => "not UTF-8",
            Flaw::TooManyRecords => "too many records",
            Flaw::ReadFailed => "read failed",
            Flaw::Memory => "memory",
            Flaw::OtherKeying { .. } => "the file is of batch ",
            Flaw::OtherFile => "not the file of this digest",
        }
    }
}

impl FileFault {
    /// Returns the number of the fault, 1 to 11.
    pub fn number(&self) -> u32
        ensures { result ≡ flaw_number self.now.flaw }
    {
        self.flaw.number()
    }
}

impl fmt::Display for Flaw {
    ghost use Rattle.std.specs.Prelude.{Some};
    ghost use Rattle.keyfile.specs.Faults.{flaw_text};

    ghost output = { λ flaw. Some (flaw_text flaw) };

    fn fmt<W: fmt::Write>(&self, f: &mut fmt::Formatter<W>) -> fmt::Result {
        match self {
            Flaw::OtherKeying { batch, clerk } => {
                write!(f, "{}{batch}, clerk {clerk}", self.words())
            }
            other => f.write_str(other.words()),
        }
    }
}

impl Error for Flaw {}

impl fmt::Display for FileFault {
    ghost use Rattle.std.specs.Prelude.{Some};
    ghost use Rattle.keyfile.specs.Faults.{file_fault_text};

    ghost output = { λ fault. Some (file_fault_text fault) };

    fn fmt<W: fmt::Write>(&self, f: &mut fmt::Formatter<W>) -> fmt::Result {
        let FileFault {
            flaw,
            record_number,
        } = self;
        write!(
            f,
            "file fault {} at record {record_number}: {flaw}",
            flaw.number()
        )
    }
}

impl Error for FileFault {}

impl From<AllocError> for Flaw {
    ghost from_gives = { λ _ flaw. flaw ≡ Memory };

    fn from(_: AllocError) -> Flaw {
        Flaw::Memory
    }
}

/// Returns the value, or the flaw as a fault at the record with the given number.
pub(crate) fn at_record<T>(number: u32, outcome: Result<T, Flaw>) -> Result<T, FileFault>
    ensures ok { IfOk result (λ value. outcome ≡ Ok value) }
    ensures err { IfErr result (λ fault. (outcome ≡ Err fault.flaw) × (fault.record_number ≡ number)) }
{
    match outcome {
        Ok(value) => Ok(value),
        Err(flaw) => Err(FileFault {
            flaw,
            record_number: number,
        }),
    }
}
