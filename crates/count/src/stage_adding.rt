//! Adding a stage to the earlier ones.

ghost use Rattle.std.specs.Prelude.{◌<◌, reverse, vec_len, vec_capacity};
ghost use Rattle.count.specs.Inside.BookInvariants.{IsAdded};

use crate::elected::{elected, without};
use crate::stages::Stage;
use crate::terms::Terms;

/// Appends the stage to the earlier ones, with its newly elected candidates filled in; there must be room.
pub fn add_stage(terms: &Terms, stages: &mut Vec<Stage>, bare: Stage)
    requires { vec_len stages.old < vec_capacity stages.old }
    ensures { IsAdded terms.now (reverse stages.old.items) bare (reverse stages.new.items) }
{
    let before = elected(terms, stages);
    let newest = stages.len();
    let _ = stages.push(bare);
    let after = elected(terms, stages);
    stages[newest].elected = without(&after, &before);
}
