//! Texts made of parts.

ghost use Rattle.std.specs.Prelude.{◌≡◌, map, IfOk, string_bytes};
ghost use Rattle.sheet.specs.Lines.{joined};

use std::alloc::{AllocError, Global};

/// Returns the parts of a text, joined in order.
pub fn joined(alloc: Global, parts: &[&str]) -> Result<String, AllocError>
    ensures { IfOk result (λ text. string_bytes text ≡ joined (map (λ part. part.now) parts.now)) }
{
    parts.concat(alloc)
}
