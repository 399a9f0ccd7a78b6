//! Names in quotation marks, one per line.

ghost use Rattle.std.specs.Prelude.{◌≡◌, [], ◌∷◌, IfOk, OnOk, string_bytes};
ghost use Rattle.checker.specs.Names.{as_text, name_in, name_of, outside, with_byte, with_bytes};
ghost use Rattle.checker.specs.Outcomes.{told_as};
ghost use Rattle.checker.specs.Values.{quoting_of};

use crate::foreign_comments::skip_foreign;
use crate::problem::BallotsFlaw;
use crate::tokens::is_blank;
use std::alloc::{AllocError, Global};
use std::str;

/// The maximum length of a name in bytes. A sheet contains every name at every stage, so longer names would make it very large.
pub(crate) const MAX_NAME: usize = 1000;

/// The position of the next byte in a line that contains a name.
#[derive(Clone, Copy)]
pub(crate) enum Within {
    /// Before the opening quotation mark.
    Before,
    /// In the name.
    Inside,
    /// In the name, after a backslash.
    Escaped,
    /// After the closing quotation mark.
    Behind,
    /// In the comment after the name, which begins with `#`.
    Comment,
    /// After something that isn't part of the name.
    Beside,
}

/// The name read so far, the comment after it, and the position of the next byte in its line.
#[derive(Drop)]
pub(crate) struct Quoted {
    name: Vec<u8>,
    comment: Vec<u8>,
    within: Within,
}

/// Returns a name if it is UTF-8 and not too long.
pub(crate) fn as_text(name: Vec<u8>) -> Result<String, BallotsFlaw>
    ensures { told_as (λ text. string_bytes text) result ≡ as_text name.items }
{
    if name.len() > MAX_NAME {
        return Err(BallotsFlaw::LongName);
    }
    match str::from_utf8(&name) {
        Ok(_) => {}
        Err(_) => return Err(BallotsFlaw::NotUtf8),
    }
    Ok(String::from_utf8(name).unwrap())
}

impl Quoted {
    /// Appends bytes to the name.
    fn add(&mut self, bytes: &[u8]) -> Result<(), AllocError>
        ensures { OnOk result (quoting_of self.new ≡ with_bytes (quoting_of self.old) bytes.now) }
    {
        self.name.extend_from_slice(bytes)?;
        self.within = Within::Inside;
        Ok(())
    }

    /// Processes a byte outside the name: the given sign moves to the next position, a blank changes nothing, and any other byte is
    /// an error, which is reported at the end.
    fn take_outside(&mut self, sign: u8, next: Within, byte: u8)
        ensures { quoting_of self.new ≡ outside sign next (quoting_of self.old) byte }
    {
        if byte == sign {
            self.within = next;
        } else if !is_blank(byte) {
            self.within = Within::Beside;
        }
    }

    /// Processes one byte.
    fn take(&mut self, byte: u8) -> Result<(), AllocError>
        ensures { OnOk result (quoting_of self.new ≡ with_byte (quoting_of self.old) byte) }
    {
        match self.within {
            Within::Before => {
                self.take_outside(b'"', Within::Inside, byte);
                Ok(())
            }
            Within::Inside => {
                if byte == b'"' {
                    self.within = Within::Behind;
                    return Ok(());
                }
                if byte == b'\\' {
                    self.within = Within::Escaped;
                    return Ok(());
                }
                self.add(&[byte])
            }
            Within::Escaped => {
                if byte == b'"' || byte == b'\\' {
                    return self.add(&[byte]);
                }
                self.add(&[b'\\', byte])
            }
            Within::Behind => {
                self.take_outside(b'#', Within::Comment, byte);
                Ok(())
            }
            Within::Comment => {
                self.comment.push(byte)?;
                Ok(())
            }
            Within::Beside => Ok(()),
        }
    }

    /// Returns the name in a line that has been read to its end.
    fn into_name(self) -> Result<String, BallotsFlaw>
        ensures { told_as (λ text. string_bytes text) result ≡ name_of (quoting_of self) }
    {
        match self.within {
            Within::Before | Within::Beside => Err(BallotsFlaw::NoName),
            Within::Inside | Within::Escaped => Err(BallotsFlaw::OpenQuote),
            Within::Behind => as_text(self.name),
            Within::Comment => {
                skip_foreign(&self.comment)?;
                as_text(self.name)
            }
        }
    }
}

/// Parses the name in a line.
pub(crate) fn name_in(alloc: Global, line: &[u8]) -> Result<Result<String, BallotsFlaw>, AllocError>
    ensures { IfOk result (λ told. told_as (λ text. string_bytes text) told ≡ name_in line.now) }
{
    let mut quoted = Quoted {
        name: Vec::new(alloc),
        comment: Vec::new(alloc),
        within: Within::Before,
    };
    for byte in line {
        quoted.take(*byte)?;
    }
    Ok(quoted.into_name())
}
