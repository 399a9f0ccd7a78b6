//! The codes of clerks and of the office: reading them from a file, comparing them with what a browser sends (`Authorization:
//! Basic`), and making new ones.
//!
//! [`Codes::read`](Codes) reads the text of a file, which has one line per clerk and at most one for the office; [`entries_of`]
//! returns the codes in its [`lines_of`] unchanged, for slips. [`Codes::admits`](Codes) compares a text with a clerk's credentials,
//! and `Codes::admits_office` compares it with the office's. Both compare digests first, so that the time taken doesn't reveal how
//! much of the text is correct. [`RateLimit`] counts wrong codes, using the times of a clock that the caller provides. [`make`]
//! returns the text of a new file, made from random bytes ([`RandomSource`]), and [`make_with_office`] one that includes a code for
//! the office.
//!
//! `specs/Codes.antt` defines the credentials of a clerk and of the office, `specs/Files.antt` the contents of a codes file, and
//! `specs/RateLimits.antt` the limit on wrong codes. `specs/Making.antt` defines the text of a new file, and `specs/Drawing.antt`
//! the bytes that it is made from. Nothing guarantees that the system's bytes are random.
//!
//! ```text
//! let codes = Codes::read(alloc, text)?;
//! if codes.admits(4, sent) { .. } else if limit.is_reached(now) { .. } else { limit.count_wrong(now) }
//! ```
#![tactic(auto)]

mod credentials;
mod fault;
mod holders;
// new codes
mod drawing;
mod making;
mod random_letters;
mod range;
// a file
mod reading;
// wrong codes
mod rate_limit;

pub use credentials::{Basic, Credentials};
pub use drawing::{DrawFailed, RandomSource};
pub use fault::{CodeFlaw, CodesError, CodesFault};
pub use holders::Codes;
pub use making::{make, make_with_office};
pub use range::ClerkRange;
pub use rate_limit::RateLimit;
pub use reading::{CodeLine, FileLines, entries_of, lines_of};
