//! Converts values to and from rows.

ghost use Rattle.std.specs.Prelude.{◌≡◌, ◌≢◌, ◌⊎◌, ◌<◌, ◌^◌, ◌++◌, map, pos, IfOk, IfErr, string_bytes};
ghost use Rattle.sqlite.specs.Value.{owned};
ghost use Rattle.sqlite.specs.Values.{bound};
ghost use Rattle.sqlite.specs.Order.{column};
ghost use Rattle.sqlite.specs.declared.types.Value.TheVariants.{Int as Number, Text as Words, Blob as Bytes};
ghost use Rattle.tables.specs.RowValues.{IsNumber, IsAmount, IsText, IsBytes};
ghost use Rattle.tables.specs.Faults.{value_fault};

use crate::fault::Fault;
use sqlite::{Error, ErrorCode, Row};
use sqlite_value::value::ValueRef;
use std::alloc::Global;

/// Returns a whole number as a parameter.
pub fn number<'a>(n: u32) -> ValueRef<'a>
    ensures { owned result ≡ Number (pos n) }
{
    ValueRef::Int(i64::from(n))
}

/// Returns a number below 2^63 as a parameter.
pub fn amount<'a>(n: u64) -> ValueRef<'a>
    requires { n < 2 ^ 63 }
    ensures { owned result ≡ Number (pos n) }
{
    match i64::try_from(n) {
        Ok(n) => ValueRef::Int(n),
        Err(_) => unreachable!(),
    }
}

/// Returns an integer as a parameter.
pub fn integer<'a>(n: i64) -> ValueRef<'a>
    ensures { owned result ≡ Number n }
{
    ValueRef::Int(n)
}

/// Returns a text as a parameter.
pub fn text(s: &str) -> ValueRef<'_>
    ensures { owned result ≡ Words s.now }
{
    ValueRef::Text(s.as_bytes())
}

/// Returns bytes as a parameter.
pub fn bytes(b: &[u8]) -> ValueRef<'_>
    ensures { owned result ≡ Bytes b.now }
{
    ValueRef::Blob(b)
}

/// Returns the values of a row that begins with the given numbers, followed by the other values. Returns `Memory` if an
/// allocation fails.
pub fn row_values<'a>(
    alloc: Global,
    numbers: &[u32],
    others: &[ValueRef<'a>],
) -> Result<Vec<ValueRef<'a>>, Fault>
    ensures values { IfOk result (λ values. bound values.items ≡ map (λ n. Number (pos n)) numbers.now ++ bound others.now) }
    ensures cause { IfErr result (λ f. f ≡ Fault.Memory) }
{
    let mut values = Vec::new(alloc);
    for n in numbers {
        if values.push(number(*n)).is_err() {
            return Err(Fault::Memory);
        }
    }
    if values.extend_from_slice(others).is_err() {
        return Err(Fault::Memory);
    }
    Ok(values)
}

/// Returns the fault for a value that couldn't be read: `Memory` if an allocation failed, otherwise `Damaged`.
fn value_fault(e: Error) -> Fault
    ensures { result ≡ value_fault e }
{
    match e {
        Error::SqliteFailure(ErrorCode::OutOfMemory) => Fault::Memory,
        _ => Fault::Damaged,
    }
}

/// Returns the number below 2^32 in a column. Returns `Damaged` if the value isn't one.
pub fn number_at(row: &Row, place: usize) -> Result<u32, Fault>
    ensures number { IfOk result (λ n. column row.now place ≡ Number (pos n)) }
    ensures cause { IfErr result (λ f. (f ≡ Fault.Memory) ⊎ ((f ≡ Fault.Damaged) × ¬ IsNumber (column row.now place))) }
{
    row.get::<u32>(place).map_err(value_fault)
}

/// Returns the number in a column. Returns `Damaged` if the value isn't a number or is negative.
pub fn amount_at(row: &Row, place: usize) -> Result<u64, Fault>
    ensures amount { IfOk result (λ n. column row.now place ≡ Number (pos n)) }
    ensures cause { IfErr result (λ f. (f ≡ Fault.Memory) ⊎ ((f ≡ Fault.Damaged) × ¬ IsAmount (column row.now place))) }
{
    row.get::<u64>(place).map_err(value_fault)
}

/// Returns the integer in a column. Returns `Damaged` if the value isn't one.
pub fn integer_at(row: &Row, place: usize) -> Result<i64, Fault>
    ensures integer { IfOk result (λ n. column row.now place ≡ Number n) }
    ensures cause { IfErr result (λ f. (f ≡ Fault.Memory) ⊎ ((f ≡ Fault.Damaged) × ((n : _) → column row.now place ≢ Number n))) }
{
    row.get::<i64>(place).map_err(value_fault)
}

/// Returns the text in a column. Returns `Damaged` if the value isn't text, or isn't UTF-8.
pub fn text_at(row: &Row, place: usize) -> Result<String, Fault>
    ensures text { IfOk result (λ s. column row.now place ≡ Words (string_bytes s)) }
    ensures cause { IfErr result (λ f. (f ≡ Fault.Memory) ⊎ ((f ≡ Fault.Damaged) × ¬ IsText (column row.now place))) }
{
    row.get::<String>(place).map_err(value_fault)
}

/// Returns the bytes in a column. Returns `Damaged` if the value isn't bytes, even if it is text.
pub fn bytes_at(row: &Row, place: usize) -> Result<Vec<u8>, Fault>
    ensures bytes { IfOk result (λ b. column row.now place ≡ Bytes b.items) }
    ensures cause { IfErr result (λ f. (f ≡ Fault.Memory) ⊎ ((f ≡ Fault.Damaged) × ¬ IsBytes (column row.now place))) }
{
    row.get::<Vec<u8>>(place).map_err(value_fault)
}
