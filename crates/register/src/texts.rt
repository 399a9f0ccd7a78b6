//! Lists of numbers as text.

ghost use Rattle.std.specs.Prelude.{◌≡◌, ◌++◌, IfOk, string_bytes};
ghost use Rattle.register.specs.Texts.{behind, listed};

use paper::Columns;
use std::alloc::{AllocError, Global};

/// Appends a comma, a space and a number to a text: `, 3`.
fn put_behind(alloc: Global, text: &mut String, number: u8) -> Result<(), AllocError>
    ensures { IfOk result (λ _. string_bytes text.new ≡ string_bytes text.old ++ behind number) }
{
    let told = format!(in alloc; ", {number}")?;
    text.push_str(told.as_str())
}

/// Returns the text of the given numbers, separated by a comma and a space: `1, 3`.
#[tactic(auto, unfolding(crate::specs::Texts::listed))]
pub(crate) fn listed(alloc: Global, numbers: &Columns) -> Result<String, AllocError>
    ensures { IfOk result (λ text. string_bytes text ≡ listed numbers.now) }
{
    let Some((first, others)) = numbers.as_slice().split_first() else {
        return Ok(String::new(alloc));
    };
    let mut text = format!(in alloc; "{first}")?;
    for number in others {
        put_behind(alloc, &mut text, *number)?;
    }
    Ok(text)
}
