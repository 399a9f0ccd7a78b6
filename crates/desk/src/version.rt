//! The versions of the program and of the offices that it creates.

ghost use Rattle.std.specs.Prelude.{◌≡◌, IfOk, string_bytes};
ghost use Rattle.store.specs.EntryRows.{this_version};
ghost use Rattle.desk.specs.Versions.{version_text};

use std::alloc::{AllocError, Global};

/// The version of the program. It is defined only here; the scripts that build a release read it from this line.
pub const VERSION: &str = "1.14.0";

/// Returns the version of the offices that the program creates and opens, which is the version of their tables.
fn office_version() -> u32
    ensures { result ≡ this_version }
{
    2
}

/// Returns what is printed when the version is requested: the version of the program and that of its offices.
pub(crate) fn version_text(alloc: Global) -> Result<String, AllocError>
    ensures { IfOk result (λ text. string_bytes text ≡ version_text) }
{
    let office = office_version();
    format!(in alloc; "count-office {VERSION}\nmakes and opens offices of version {office}\n")
}
