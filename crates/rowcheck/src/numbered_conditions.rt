//! The seventh and eighth conditions, each checked on its own.

ghost use Rattle.std.specs.Prelude.{◌≡◌, ◌↔◌, true, IfOk, IsTrue};
ghost use Rattle.register.specs.Offices.{MapsAreSorted};
ghost use Rattle.register.specs.StateConditions.{all_in_range, all_keyed, all_counted};
ghost use Rattle.register.specs.Tabulated.{IsTabulationOf};
ghost use Rattle.rowcheck.specs.States.{state_of, tabulated};

use crate::counts::all_counted;
use crate::rows::Rows;
use crate::tabulation::is_tabulated;
use std::alloc::{AllocError, Global};

/// Returns whether the counts match what the rows claim: the seventh condition, for rows that meet the first and fourth
/// conditions. [`all_counted`](crate::all_counted) performs the same check and returns the tabulation of the counts.
/// Returns `AllocError` if an allocation fails.
pub fn item7(alloc: Global, rows: &Rows) -> Result<bool, AllocError>
    requires rise { MapsAreSorted (state_of rows.now) }
    requires in_range { all_in_range (state_of rows.now) ≡ true }
    requires keyed { all_keyed (state_of rows.now) ≡ true }
    ensures { IfOk result (λ yes. yes ≡ all_counted (state_of rows.now)) }
{
    let found = all_counted(alloc, rows)?;
    Ok(found.is_some())
}

/// Returns whether the bundles and figures are those of the counts: the eighth condition, for rows that meet the first,
/// fourth and seventh conditions. This function recounts; a caller that has already done so can use
/// [`is_tabulated`](crate::is_tabulated) instead. Returns `AllocError` if an allocation fails.
pub fn item8(alloc: Global, rows: &Rows) -> Result<bool, AllocError>
    requires rise { MapsAreSorted (state_of rows.now) }
    requires in_range { all_in_range (state_of rows.now) ≡ true }
    requires keyed { all_keyed (state_of rows.now) ≡ true }
    requires counted { all_counted (state_of rows.now) ≡ true }
    ensures { IfOk result (λ yes. IsTrue yes ↔ IsTabulationOf (tabulated rows.now) (state_of rows.now)) }
{
    match all_counted(alloc, rows)? {
        Some(counted) => Ok(is_tabulated(rows, &counted)),
        None => unreachable!(),
    }
}
