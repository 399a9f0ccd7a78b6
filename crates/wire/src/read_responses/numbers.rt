//! Lists of numbers, as JSON values.

ghost use Rattle.std.specs.Prelude.{◌≡◌, IfOk};
ghost use Rattle.serde_json.specs.View.{view};
ghost use Rattle.wire.specs.OfficeReplies.{numbers_data};

use serde_json::Value;
use std::alloc::{AllocError, Global};

/// Returns numbers, as a list of JSON values.
pub(crate) fn numbers_value(alloc: Global, numbers: &[u32]) -> Result<Value, AllocError>
    ensures { IfOk result (λ value. view value ≡ numbers_data numbers.now) }
{
    let mut values = Vec::with_capacity(alloc, numbers.len())?;
    for number in numbers {
        values.push(Value::from(*number))?;
    }
    Ok(Value::Array(values))
}

/// Returns the numbers of candidates, as a list of JSON values.
pub(crate) fn candidate_numbers_value(alloc: Global, numbers: &[u8]) -> Result<Value, AllocError>
    ensures { IfOk result (λ value. view value ≡ numbers_data numbers.now) }
{
    let mut values = Vec::with_capacity(alloc, numbers.len())?;
    for number in numbers {
        values.push(Value::from(*number))?;
    }
    Ok(Value::Array(values))
}
