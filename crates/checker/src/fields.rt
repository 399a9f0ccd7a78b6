//! The fields of a line of comma-separated values.

ghost use Rattle.std.specs.Prelude.{◌≡◌, [], map, IfOk, OnOk};
ghost use Rattle.checker.specs.FieldViews.{fields_told};
ghost use Rattle.checker.specs.Fields.{begun, ended, fields_in, outside_step, step_of, with_byte, with_field};
ghost use Rattle.checker.specs.Outcomes.{told_as};

use crate::problem::BallotsFlaw;
use std::alloc::{AllocError, Global};
use std::mem;

/// The position of the next byte in a line.
#[derive(Clone, Copy)]
pub(crate) enum FieldPlace {
    /// At the beginning of a field.
    Start,
    /// In an unquoted field.
    Plain,
    /// In a quoted field.
    Quoted,
    /// In a quoted field, after a quotation mark that either ends the field or is the first of two.
    Closed,
    /// After something that isn't part of a field.
    Astray,
}

/// The meaning of a byte at a given position.
#[derive(Clone, Copy)]
pub(crate) enum FieldStep {
    /// The field ends before this byte.
    Ends,
    /// The byte is part of the field, and the next byte is at the given position.
    Adds(FieldPlace),
    /// The byte isn't part of the field, and the next byte is at the given position.
    Moves(FieldPlace),
}

/// The fields read so far, the bytes of the next one, and the position of the next byte.
#[derive(Drop)]
pub(crate) struct Fields {
    done: Vec<Vec<u8>>,
    field: Vec<u8>,
    place: FieldPlace,
}

/// Returns the meaning of a byte outside quotation marks, given the position to which a quotation mark leads.
fn outside_step(next: FieldPlace, byte: u8) -> FieldStep
    ensures { result ≡ outside_step next byte }
{
    if byte == b',' {
        return FieldStep::Ends;
    }
    if byte == b'"' {
        return FieldStep::Moves(next);
    }
    FieldStep::Adds(FieldPlace::Plain)
}

/// Returns the meaning of a byte at the given position.
pub(crate) fn step_of(place: FieldPlace, byte: u8) -> FieldStep
    ensures { result ≡ step_of place byte }
{
    match place {
        FieldPlace::Start => outside_step(FieldPlace::Quoted, byte),
        FieldPlace::Plain => outside_step(FieldPlace::Astray, byte),
        FieldPlace::Quoted => {
            if byte == b'"' {
                FieldStep::Moves(FieldPlace::Closed)
            } else {
                FieldStep::Adds(FieldPlace::Quoted)
            }
        }
        FieldPlace::Closed => {
            if byte == b',' {
                FieldStep::Ends
            } else if byte == b'"' {
                FieldStep::Adds(FieldPlace::Quoted)
            } else {
                FieldStep::Moves(FieldPlace::Astray)
            }
        }
        FieldPlace::Astray => FieldStep::Moves(FieldPlace::Astray),
    }
}

impl Fields {
    /// Returns the state before the first byte.
    fn new(alloc: Global) -> Fields
        ensures { fields_told result ≡ begun [] }
    {
        Fields {
            done: Vec::new(alloc),
            field: Vec::new(alloc),
            place: FieldPlace::Start,
        }
    }

    /// Processes one byte.
    fn take(&mut self, alloc: Global, byte: u8) -> Result<(), AllocError>
        ensures { OnOk result (fields_told self.new ≡ with_byte with_field (fields_told self.old) byte) }
    {
        match step_of(self.place, byte) {
            FieldStep::Ends => {
                let field = mem::replace(&mut self.field, Vec::new(alloc));
                self.done.push(field)?;
                self.place = FieldPlace::Start;
            }
            FieldStep::Adds(place) => {
                self.field.push(byte)?;
                self.place = place;
            }
            FieldStep::Moves(place) => self.place = place,
        }
        Ok(())
    }

    /// Returns the fields of a line that has been read to its end.
    fn into_fields(self) -> Result<Result<Vec<Vec<u8>>, BallotsFlaw>, AllocError>
        ensures { IfOk result (λ told. told_as (λ all. map (λ field. field.items) all.items) told ≡ ended with_field (fields_told self)) }
    {
        match self.place {
            FieldPlace::Quoted => return Ok(Err(BallotsFlaw::OpenQuote)),
            FieldPlace::Astray => return Ok(Err(BallotsFlaw::Field)),
            FieldPlace::Start | FieldPlace::Plain | FieldPlace::Closed => {}
        }
        let mut fields = self.done;
        fields.push(self.field)?;
        Ok(Ok(fields))
    }
}

/// Splits a line into its fields.
pub(crate) fn fields_in(
    alloc: Global,
    line: &[u8],
) -> Result<Result<Vec<Vec<u8>>, BallotsFlaw>, AllocError>
    ensures { IfOk result (λ told. told_as (λ all. map (λ field. field.items) all.items) told ≡ fields_in line.now) }
{
    let mut fields = Fields::new(alloc);
    for byte in line {
        fields.take(alloc, *byte)?;
    }
    fields.into_fields()
}
