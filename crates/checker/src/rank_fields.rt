//! The lines of cast-vote records with a rank in each column.

ghost use Rattle.std.specs.Prelude.{◌≡◌, ◌≤◌, Ok, length, map, string_bytes, IfOk, OnOk};
ghost use Rattle.paper.specs.Columns.{max_candidates};
ghost use Rattle.checker.specs.Fields.{begun, with_byte};
ghost use Rattle.checker.specs.Outcomes.{told_as};
ghost use Rattle.checker.specs.RankFields.{nothing_ranked, paper_of, ranked_in, with_rank_field};
ghost use Rattle.checker.specs.RankViews.{reader_told};

use crate::fields::{FieldPlace, FieldStep, step_of};
use crate::problem::BallotsFlaw;
use crate::ranked_paper::RankedPaper;
use std::alloc::{AllocError, Global};

/// The name length, in bytes, for which space is reserved at the start. Longer names need further allocations.
const USUAL_NAME: usize = 64;

/// A line as far as it has been read: the paper in the fields read so far, or the flaw found in them, the bytes of the next field,
/// and the position of the next byte.
#[derive(Drop)]
pub(crate) struct RankReader {
    paper: RankedPaper,
    flaw: Option<BallotsFlaw>,
    field: Vec<u8>,
    place: FieldPlace,
}

impl RankReader {
    /// Returns the state before the first byte of a line.
    fn new(alloc: Global) -> Result<RankReader, AllocError>
        ensures { IfOk result (λ reader. reader_told reader ≡ begun (Ok nothing_ranked)) }
    {
        Ok(RankReader {
            paper: RankedPaper::new(alloc)?,
            flaw: None,
            field: Vec::with_capacity(alloc, USUAL_NAME)?,
            place: FieldPlace::Start,
        })
    }

    /// Ends a field.
    fn end_field(&mut self, names: &[String], ranks: u8) -> Result<(), AllocError>
        requires { length names.now ≤ max_candidates }
        ensures { OnOk result (reader_told self.new ≡ begun (with_rank_field (map string_bytes names.now) ranks (reader_told self.old).done (reader_told self.old).field)) }
    {
        if self.flaw.is_none() {
            if let Err(flaw) = self.paper.take(names, ranks, &self.field)? {
                self.flaw = Some(flaw);
            }
        }
        self.field.clear();
        self.place = FieldPlace::Start;
        Ok(())
    }

    /// Processes one byte.
    fn take(&mut self, names: &[String], ranks: u8, byte: u8) -> Result<(), AllocError>
        requires { length names.now ≤ max_candidates }
        ensures { OnOk result (reader_told self.new ≡ with_byte (with_rank_field (map string_bytes names.now) ranks) (reader_told self.old) byte) }
    {
        match step_of(self.place, byte) {
            FieldStep::Ends => return self.end_field(names, ranks),
            FieldStep::Adds(place) => {
                self.field.push(byte)?;
                self.place = place;
            }
            FieldStep::Moves(place) => self.place = place,
        }
        Ok(())
    }

    /// Returns the paper of a line that has been read to its end.
    fn into_paper(
        self,
        names: &[String],
        ranks: u8,
    ) -> Result<Result<RankedPaper, BallotsFlaw>, AllocError>
        requires { length names.now ≤ max_candidates }
        ensures { IfOk result (λ told. told_as (λ paper. paper) told ≡ paper_of (map string_bytes names.now) ranks (reader_told self)) }
    {
        match self.place {
            FieldPlace::Quoted => return Ok(Err(BallotsFlaw::OpenQuote)),
            FieldPlace::Astray => return Ok(Err(BallotsFlaw::Field)),
            FieldPlace::Start | FieldPlace::Plain | FieldPlace::Closed => {}
        }
        let mut reader = self;
        reader.end_field(names, ranks)?;
        if let Some(flaw) = reader.flaw {
            return Ok(Err(flaw));
        }
        if !reader.paper.is_complete(ranks) {
            return Ok(Err(BallotsFlaw::FieldCount));
        }
        Ok(Ok(reader.paper))
    }
}

/// Returns the paper of a line, given the candidates' names and the number of rank columns.
pub(crate) fn ranked_in(
    alloc: Global,
    names: &[String],
    ranks: u8,
    line: &[u8],
) -> Result<Result<RankedPaper, BallotsFlaw>, AllocError>
    requires { length names.now ≤ max_candidates }
    ensures { IfOk result (λ told. told_as (λ paper. paper) told ≡ ranked_in (map string_bytes names.now) ranks line.now) }
{
    let mut reader = RankReader::new(alloc)?;
    for byte in line {
        reader.take(names, ranks, *byte)?;
    }
    reader.into_paper(names, ranks)
}
