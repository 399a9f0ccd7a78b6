//! The tables of an office.

ghost use Rattle.std.specs.Prelude.{◌≡◌};
ghost use Rattle.tables.specs.Schema.{shape, changes_rows};

/// The tables, in order of creation.
#[derive(Clone, Copy, PartialEq, Eq)]
pub enum Table {
    Office,
    Ward,
    Candidate,
    Batch,
    Keying,
    Verdict,
    Lot,
    Receipt,
    Bundle,
    Vote,
    Third,
}

impl Table {
    /// All tables, in order of creation.
    pub const ALL: [Table; 11] = [
        Table::Office,
        Table::Ward,
        Table::Candidate,
        Table::Batch,
        Table::Keying,
        Table::Verdict,
        Table::Lot,
        Table::Receipt,
        Table::Bundle,
        Table::Vote,
        Table::Third,
    ];

    /// Returns the table's name.
    pub fn name(self) -> &'static str
        ensures { result.now ≡ (shape self).name }
    {
        match self {
            Table::Office => "office",
            Table::Ward => "ward",
            Table::Candidate => "candidate",
            Table::Batch => "batch",
            Table::Keying => "keying",
            Table::Verdict => "verdict",
            Table::Lot => "lot",
            Table::Receipt => "receipt",
            Table::Bundle => "bundle",
            Table::Vote => "vote",
            Table::Third => "third",
        }
    }

    /// Returns how many leading columns form the key: 1 to 4.
    pub fn key_columns(self) -> usize
        ensures { result ≡ (shape self).key }
    {
        match self {
            Table::Office | Table::Ward | Table::Batch | Table::Third => 1,
            Table::Candidate | Table::Verdict | Table::Lot | Table::Receipt | Table::Bundle => 2,
            Table::Vote => 3,
            Table::Keying => 4,
        }
    }

    /// Returns whether rows of the table may be changed or removed, not just added.
    pub fn changes_rows(self) -> bool
        ensures { result ≡ changes_rows self }
    {
        match self {
            Table::Office | Table::Ward | Table::Candidate | Table::Batch | Table::Bundle => true,
            Table::Keying
            | Table::Verdict
            | Table::Lot
            | Table::Receipt
            | Table::Vote
            | Table::Third => false,
        }
    }
}

/// The columns outside the key by which rows are looked up.
#[derive(Clone, Copy, PartialEq, Eq)]
pub enum Reference {
    /// The ward of a batch.
    WardOfBatch,
}

/// The columns outside the key that can be set individually, leaving the others unchanged.
#[derive(Clone, Copy, PartialEq, Eq)]
pub enum SettableColumn {
    /// The version of the office.
    VersionOfOffice,
    /// The phase of a ward.
    PhaseOfWard,
    /// The number of stages done in the count of a ward.
    DoneOfWard,
    /// The round of a batch.
    RoundOfBatch,
}
