//! What can be wrong with a codes file.

ghost use Rattle.std.specs.Prelude.{◌≡◌};
ghost use Rattle.codes.specs.Faults.{fault_line, fault_number, fault_text, flaw_number, flaw_text};
ghost use Rattle.codes.specs.declared.fault.CodesError.TheVariants.{Memory};

use std::alloc::AllocError;

/// What is wrong with a line.
#[derive(Clone, Copy, Debug, PartialEq, Eq, Drop)]
pub enum CodeFlaw {
    /// The line begins neither with a clerk's number, 1 to 999, and a space, nor with `office` and a space.
    NoEntry,
    /// The rest of the line isn't a code: 8 to 64 letters, digits and punctuation characters.
    BadCode,
    /// An earlier line is for the same clerk.
    ClerkTwice,
    /// An earlier line has the same code.
    CodeTwice,
    /// An earlier line is also for the office.
    OfficeTwice,
    /// The office's code has fewer than 16 bytes other than hyphens.
    ShortOffice,
}

/// The reason why codes weren't read or made.
#[derive(Clone, Copy, Debug, PartialEq, Eq, Drop)]
pub enum CodesFault {
    /// The line with this number has this flaw.
    Line(usize, CodeFlaw),
    /// Users other than its owner may read the file.
    OpenToOthers,
    /// The file can't be read, or it is too long.
    Unread,
    /// The file already exists, or it can't be created.
    Unmade,
    /// The system returned no random bytes.
    NoRandom,
    /// The order doesn't name a range of clerks such as 1-40.
    NoClerks,
    /// The random bytes yielded too few letters, or the same code twice in each of a hundred files.
    BadRandom,
}

impl CodeFlaw {
    /// Returns the number of the flaw.
    fn number(self) -> u32
        ensures { result ≡ flaw_number self }
    {
        match self {
            CodeFlaw::NoEntry => 1,
            CodeFlaw::BadCode => 2,
            CodeFlaw::ClerkTwice => 3,
            CodeFlaw::CodeTwice => 4,
            CodeFlaw::OfficeTwice => 11,
            CodeFlaw::ShortOffice => 12,
        }
    }

    /// Returns the text of the flaw.
    fn text(self) -> &'static str
        ensures { result.now ≡ flaw_text self }
    {
        match self {
            CodeFlaw::NoEntry => "no clerk and code",
            CodeFlaw::BadCode => "bad code",
            CodeFlaw::ClerkTwice => "clerk twice",
            CodeFlaw::CodeTwice => "code twice",
            CodeFlaw::OfficeTwice => "office twice",
            CodeFlaw::ShortOffice => "office code too short",
        }
    }
}

impl CodesFault {
    /// Returns the number of the fault.
    pub fn number(&self) -> u32
        ensures { result ≡ fault_number self.now }
    {
        match self {
            CodesFault::Line(_, flaw) => flaw.number(),
            CodesFault::OpenToOthers => 5,
            CodesFault::Unread => 6,
            CodesFault::Unmade => 7,
            CodesFault::NoRandom => 8,
            CodesFault::NoClerks => 9,
            CodesFault::BadRandom => 10,
        }
    }

    /// Returns the text of the fault.
    pub fn text(&self) -> &'static str
        ensures { result.now ≡ fault_text self.now }
    {
        match self {
            CodesFault::Line(_, flaw) => flaw.text(),
            CodesFault::OpenToOthers => "file open to others",
            CodesFault::Unread => "file not read",
            CodesFault::Unmade => "file not made",
            CodesFault::NoRandom => "no random bytes",
            CodesFault::NoClerks => "no clerks, as 1-40",
            CodesFault::BadRandom => "random bytes make no codes",
        }
    }

    /// Returns the line number of the fault, if it concerns a line.
    pub fn line(&self) -> Option<usize>
        ensures { result ≡ fault_line self.now }
    {
        match self {
            CodesFault::Line(number, _) => Some(*number),
            _ => None,
        }
    }
}

/// The reason why no codes were read or made.
#[derive(Clone, Copy, Debug, PartialEq, Eq, Drop)]
pub enum CodesError {
    /// An allocation failed.
    Memory,
    /// This fault occurred.
    Fault(CodesFault),
}

impl From<AllocError> for CodesError {
    ghost from_gives = { λ _ why. why ≡ Memory };

    fn from(_: AllocError) -> CodesError {
        CodesError::Memory
    }
}
