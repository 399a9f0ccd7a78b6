//! The declaration of the elected candidates.

ghost use Rattle.std.specs.Prelude.{◌-◌, ◌^◌, ◌<◌};
ghost use Rattle.sheet.specs.Entries.{shown};
ghost use Rattle.sheet.specs.Sheet.{elected_line, declaration};
ghost use Rattle.sheet.specs.Wards.{CanBePrinted};
ghost use Rattle.sheet.specs.Writing.{Writes};

use crate::each_candidate::{OfCandidate, write_each};
use crate::heading_lines::write_ward_line;
use crate::line::{Piece, write_line};
use crate::ward::Ward;
use paper::Columns;
use streams::{Broken, Sink};

/// The line of a candidate who is elected; empty for any other candidate.
#[derive(Clone, Copy)]
struct ElectedLine<'a> {
    elected: &'a Columns,
}

impl<'a> OfCandidate for ElectedLine<'a> {
    ghost text = { λ l. elected_line l.elected.now };

    fn write<W: Sink>(&self, sink: &mut W, candidate: &(u8, String)) -> Result<(), Broken> {
        let (c, name) = candidate;
        if !self.elected.has(*c) {
            return Ok(());
        }
        let pieces = [
            Piece::NumberColumn(*c),
            Piece::Text(" "),
            Piece::Text(name.as_str()),
        ];
        write_line(sink, &pieces)
    }
}

/// Writes the declaration of a ward: its number and name, and one line per elected candidate. In an uncontested ward, these are all
/// its candidates.
///
/// Allocates nothing. `Broken` only if the sink fails; it has then accepted a prefix of the declaration, and its failure count is one
/// higher.
pub fn write_declaration<W: Sink>(sink: &mut W, ward: &Ward, elected: Columns) -> Result<(), Broken>
    requires ward { CanBePrinted ward.now }
    requires failures { W.failed sink.old < 2 ^ 64 - 1 }
    ensures { Writes W.taken W.failed sink.old sink.new (declaration (shown ward.now) elected) result }
{
    write_ward_line(sink, ward)?;
    write_line(sink, &[Piece::Text("Elected")])?;
    write_each(sink, ward, &ElectedLine { elected: &elected })
}
