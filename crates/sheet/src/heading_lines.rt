//! The lines before the stages.

ghost use Rattle.std.specs.Prelude.{◌-◌, ◌^◌, ◌<◌, ◌≤◌};
ghost use Rattle.votes.specs.Units.{max_papers, max_seats};
ghost use Rattle.sheet.specs.Entries.{shown};
ghost use Rattle.sheet.specs.Sheet.{ward_line, uncontested_line, seats_line, rejected_line};
ghost use Rattle.sheet.specs.Writing.{Writes};

use crate::line::{Piece, write_line};
use crate::ward::Ward;
use streams::{Broken, Sink};
use votes::quota;

/// Writes the number and the name of a ward.
pub fn write_ward_line<W: Sink>(sink: &mut W, ward: &Ward) -> Result<(), Broken>
    requires { W.failed sink.old < 2 ^ 64 - 1 }
    ensures { Writes W.taken W.failed sink.old sink.new (ward_line (shown ward.now)) result }
{
    let pieces = [
        Piece::Text("Ward "),
        Piece::Number(u64::from(ward.number)),
        Piece::Text(" "),
        Piece::Text(ward.name),
    ];
    write_line(sink, &pieces)
}

/// Writes the number of seats of an uncontested ward.
pub fn write_uncontested_line<W: Sink>(sink: &mut W, seats: u8) -> Result<(), Broken>
    requires { W.failed sink.old < 2 ^ 64 - 1 }
    ensures { Writes W.taken W.failed sink.old sink.new (uncontested_line seats) result }
{
    let pieces = [
        Piece::Text("Seats "),
        Piece::Number(u64::from(seats)),
        Piece::Text(", uncontested"),
    ];
    write_line(sink, &pieces)
}

/// Writes the numbers of seats and of valid papers, and the quota, of a contested ward.
pub fn write_seats_line<W: Sink>(sink: &mut W, seats: u8, valid: u32) -> Result<(), Broken>
    requires some_seats { 1 ≤ seats }
    requires few_seats { seats ≤ max_seats }
    requires few { valid ≤ max_papers }
    requires failures { W.failed sink.old < 2 ^ 64 - 1 }
    ensures { Writes W.taken W.failed sink.old sink.new (seats_line seats valid) result }
{
    let pieces = [
        Piece::Text("Seats "),
        Piece::Number(u64::from(seats)),
        Piece::Text(", valid "),
        Piece::Number(u64::from(valid)),
        Piece::Text(", quota "),
        Piece::Value(quota(valid, seats)),
    ];
    write_line(sink, &pieces)
}

/// Writes the number of rejected papers for each code, 1 to 5.
pub fn write_rejected_line<W: Sink>(sink: &mut W, rejected: &[u32; 5]) -> Result<(), Broken>
    requires { W.failed sink.old < 2 ^ 64 - 1 }
    ensures { Writes W.taken W.failed sink.old sink.new (rejected_line rejected.now) result }
{
    let pieces = [
        Piece::Text("Rejected 1: "),
        Piece::Number(u64::from(rejected[0])),
        Piece::Text(", 2: "),
        Piece::Number(u64::from(rejected[1])),
        Piece::Text(", 3: "),
        Piece::Number(u64::from(rejected[2])),
        Piece::Text(", 4: "),
        Piece::Number(u64::from(rejected[3])),
        Piece::Text(", 5: "),
        Piece::Number(u64::from(rejected[4])),
    ];
    write_line(sink, &pieces)
}
