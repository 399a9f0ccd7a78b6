//! The tabulation of the counts: the place of each bundle of equal papers, and every figure.

ghost use Rattle.std.specs.Prelude.{◌≡◌, ◌↔◌, IsTrue};
ghost use Rattle.register.specs.Tabulated.{tabulation_entries, tabulation_of, IsTabulationOf};
ghost use Rattle.rowcheck.specs.States.{state_of, tabulated};

use crate::rows::Rows;
use register::Tabulation;

/// Returns whether the rows of the tabulation are exactly what was counted, one by one and in the same order. This is
/// the eighth condition on the rows of an office, provided that what was counted is the tabulation of the state that
/// the rows represent, as `all_counted` returns it for the same rows.
pub fn is_tabulated(rows: &Rows, counted: &Tabulation) -> bool
    ensures compares { IsTrue result ↔ (tabulated rows.now ≡ tabulation_entries counted.now) }
    ensures judges { tabulation_entries counted.now ≡ tabulation_of (state_of rows.now) → IsTrue result ↔ IsTabulationOf (tabulated rows.now) (state_of rows.now) }
{
    let bundles = rows.bundles == counted.bundles;
    let figures = rows.figures == counted.figures;
    bundles & figures
}
