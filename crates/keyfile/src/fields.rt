//! The fields of a record.

ghost use Rattle.std.specs.Prelude.{◌≡◌, ◌≤◌, ◌⊎◌, true, false, length, map, take, IfOk, IfErr};
ghost use Rattle.std.specs.List.{list_all};
ghost use Rattle.std.specs.Str.{is_utf8};
ghost use Rattle.csv.specs.Records.{fields_of};
ghost use Rattle.keyfile.specs.Faults.{is_failed_read};

use crate::fault::Flaw;
use csv::ByteRecord;
use std::alloc::Global;
use std::str;

/// Returns the fields of a record as texts. Fails with `NotUtf8` if a field isn't UTF-8, and with `Memory` if an allocation fails.
pub(crate) fn texts(alloc: Global, raw: &ByteRecord) -> Result<Vec<&str>, Flaw>
    ensures fields { IfOk result (λ texts. map (λ t. t.now) texts.items ≡ fields_of raw.now) }
    ensures all { IfOk result (λ _. list_all is_utf8 (fields_of raw.now) ≡ true) }
    ensures err { IfErr result (λ flaw. (flaw ≡ Flaw.Memory) ⊎ ((flaw ≡ Flaw.NotUtf8) × (list_all is_utf8 (fields_of raw.now) ≡ false))) }
    ensures file { IfErr result (λ flaw. is_failed_read flaw ≡ false) }
{
    let mut texts = Vec::new(alloc);
    for i in 0..raw.len() {
        let field = raw.get(i).unwrap_or(b"");
        let Ok(text) = str::from_utf8(field) else {
            return Err(Flaw::NotUtf8);
        };
        if texts.push(text).is_err() {
            return Err(Flaw::Memory);
        }
    }
    Ok(texts)
}
