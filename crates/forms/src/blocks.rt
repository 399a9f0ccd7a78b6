//! Repeated parts of a page, one after another.

ghost use Rattle.std.specs.Prelude.{◌≡◌, IfOk, string_bytes};
ghost use Rattle.std.specs.List.{flat_map};

use std::alloc::{AllocError, Global};

/// A part that a page repeats.
pub(crate) trait Block {
    ghost use Rattle.forms.specs.Pages.{Text};

    /// The text of the part on the page.
    ghost text: { Self → Text };

    /// Returns the text of the part on the page.
    fn block(&self, alloc: Global) -> Result<String, AllocError>
        ensures { IfOk result (λ told. string_bytes told ≡ text self.now) };
}

/// Returns the texts of the parts, concatenated in order.
pub(crate) fn blocks<T: Block>(alloc: Global, all: &[T]) -> Result<String, AllocError>
    ensures { IfOk result (λ text. string_bytes text ≡ flat_map T.text all.now) }
{
    let mut text = String::new(alloc);
    for one in all {
        let block = one.block(alloc)?;
        text.push_str(block.as_str())?;
    }
    Ok(text)
}
