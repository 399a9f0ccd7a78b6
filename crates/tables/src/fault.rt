//! The faults that a call can return.

ghost use Rattle.std.specs.Prelude.{◌≡◌, ◌↔◌};
ghost use Rattle.tables.specs.Faults.{fault_number, fault_text, fault_of};

use sqlite::{Error, ErrorCode};
use std::fmt;

/// The faults of an office, numbered 101 to 106 and 108.
#[derive(Clone, Copy, Debug, PartialEq, Eq, Drop)]
pub enum Fault {
    /// Out of memory.
    Memory,
    /// The store refused a call for another reason.
    Store,
    /// The rows don't form the tables of any state of an office.
    Damaged,
    /// An earlier fault closed the office.
    Closed,
    /// The database contains no office or, when one is being created, already has a table with one of its names.
    WrongDatabase,
    /// A later program created the tables.
    NewerSchema,
    /// An earlier program created the tables, and they must be migrated first.
    OlderSchema,
}

impl Fault {
    /// Returns the fault's number, starting from 101, and its text.
    fn told(&self) -> (u32, &'static str)
        ensures number { result.0 ≡ fault_number self.now }
        ensures text { result.1.now ≡ fault_text self.now }
    {
        match self {
            Fault::Memory => (101, "memory"),
            Fault::Store => (102, "store"),
            Fault::Damaged => (103, "damaged"),
            Fault::Closed => (104, "closed"),
            Fault::WrongDatabase => (105, "wrong database"),
            Fault::NewerSchema => (106, "newer schema"),
            Fault::OlderSchema => (108, "older schema"),
        }
    }

    /// Returns the fault's number, starting from 101.
    pub fn number(&self) -> u32
        ensures { result ≡ fault_number self.now }
    {
        self.told().0
    }

    /// Returns the fault's text.
    pub fn text(&self) -> &'static str
        ensures { result.now ≡ fault_text self.now }
    {
        self.told().1
    }
}

impl fmt::Display for Fault {
    ghost use Rattle.std.specs.Prelude.{Some};
    ghost use Rattle.tables.specs.Faults.{fault_text};

    ghost output = { λ f. Some (fault_text f) };

    fn fmt<W: fmt::Write>(&self, f: &mut fmt::Formatter<W>) -> fmt::Result {
        f.write_str(self.text())
    }
}

impl std::error::Error for Fault {}

/// Returns the fault for a call that `sqlite` refused: `Memory` if it was out of memory, `Store` for any other reason.
pub fn fault_of(e: Error) -> Fault
    ensures value { result ≡ fault_of e }
    ensures memory { (result ≡ Fault.Memory) ↔ (e ≡ Error.SqliteFailure ErrorCode.OutOfMemory) }
{
    match e {
        Error::SqliteFailure(ErrorCode::OutOfMemory) => Fault::Memory,
        _ => Fault::Store,
    }
}

impl From<Error> for Fault {
    ghost use Rattle.tables.specs.Faults.{fault_of};

    ghost from_gives = { λ e f. f ≡ fault_of e };

    fn from(e: Error) -> Fault {
        fault_of(e)
    }
}
