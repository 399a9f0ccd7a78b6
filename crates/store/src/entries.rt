//! The entries represented by the rows of each table.

ghost use Rattle.std.specs.Prelude.{◌≡◌, pos, IfOk, IfErr};
ghost use Rattle.sqlite.specs.Value.{owned};
ghost use Rattle.sqlite.specs.declared.types.Value.TheVariants.{Int};

pub(crate) mod batches;
pub(crate) mod bundles;
pub(crate) mod candidates;
pub(crate) mod figures;
pub(crate) mod keyings;
pub(crate) mod lots;
pub(crate) mod receipts;
pub(crate) mod thirds;
pub(crate) mod verdicts;
pub(crate) mod wards;

use sqlite_value::value::ValueRef;
use tables::Fault;
use tables::value_conversion::amount;

/// Returns a number of units as a parameter. Returns `Memory` if a column can't hold it: no machine has enough memory
/// for so many papers.
fn units<'a>(n: u64) -> Result<ValueRef<'a>, Fault>
    ensures value { IfOk result (λ value. owned value ≡ Int (pos n)) }
    ensures cause { IfErr result (λ f. f ≡ Fault.Memory) }
{
    if n >= 1 << 63 {
        return Err(Fault::Memory);
    }
    Ok(amount(n))
}
