//! Texts that are shown for each candidate of a ward.

ghost use Rattle.std.specs.Prelude.{ℕ, List, ◌-◌, ◌^◌, ◌<◌, string_bytes};
ghost use Rattle.std.specs.List.{flat_map};
ghost use Rattle.sheet.specs.Entries.{shown};
ghost use Rattle.sheet.specs.Writing.{Writes};

use crate::ward::Ward;
use streams::{Broken, Sink};

/// A text that is shown the same way for each candidate.
pub trait OfCandidate {
    // The text, given the candidate's number and name.
    ghost text: { Self → ℕ → List ℕ → List ℕ };

    /// Writes the text for a candidate, given the candidate's number and name.
    fn write<W: Sink>(&self, sink: &mut W, candidate: &(u8, String)) -> Result<(), Broken>
        requires { W.failed sink.old < 2 ^ 64 - 1 }
        ensures { Writes W.taken W.failed sink.old sink.new (text self.now candidate.now.0 (string_bytes candidate.now.1)) result };
}

/// Writes the text for all candidates of a ward, in order.
pub fn write_each<W: Sink, T: OfCandidate>(
    sink: &mut W,
    ward: &Ward,
    told: &T,
) -> Result<(), Broken>
    requires { W.failed sink.old < 2 ^ 64 - 1 }
    ensures { Writes W.taken W.failed sink.old sink.new (flat_map (λ candidate. T.text told.now candidate.0 candidate.1) (shown ward.now).candidates) result }
{
    for candidate in ward.candidates {
        told.write(sink, candidate)?;
    }
    Ok(())
}
