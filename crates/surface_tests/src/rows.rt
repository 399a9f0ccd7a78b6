//! The functions of `rowcheck`: the conditions on rows, by number.

ghost use Rattle.std.specs.Prelude.{◌≡◌, true};
ghost use Rattle.register.specs.StateConditions.{all_counted, all_in_range, all_keyed};
ghost use Rattle.register.specs.Offices.{MapsAreSorted};
ghost use Rattle.rowcheck.specs.States.{state_of};

use rowcheck::{Rows, item1, item2, item3, item4, item5, item6, item7, item8};
use std::alloc::{AllocError, Global};

fn are_in_range(rows: &Rows) -> bool {
    item1(rows)
}

fn are_nominated(rows: &Rows) -> bool
    requires { MapsAreSorted (state_of rows.now) }
{
    item2(rows)
}

fn are_given_out(rows: &Rows) -> bool
    requires { MapsAreSorted (state_of rows.now) }
{
    item3(rows)
}

fn are_keyed(rows: &Rows) -> bool
    requires { MapsAreSorted (state_of rows.now) }
{
    item4(rows)
}

fn are_judged(rows: &Rows) -> bool
    requires { MapsAreSorted (state_of rows.now) }
{
    item5(rows)
}

fn are_agreed(rows: &Rows) -> bool
    requires { MapsAreSorted (state_of rows.now) }
{
    item6(rows)
}

fn are_counted(alloc: Global, rows: &Rows) -> Result<bool, AllocError>
    requires rise { MapsAreSorted (state_of rows.now) }
    requires in_range { all_in_range (state_of rows.now) ≡ true }
    requires keyed { all_keyed (state_of rows.now) ≡ true }
{
    item7(alloc, rows)
}

fn are_tabulated(alloc: Global, rows: &Rows) -> Result<bool, AllocError>
    requires rise { MapsAreSorted (state_of rows.now) }
    requires in_range { all_in_range (state_of rows.now) ≡ true }
    requires keyed { all_keyed (state_of rows.now) ≡ true }
    requires counted { all_counted (state_of rows.now) ≡ true }
{
    item8(alloc, rows)
}
