//! Escapes texts so that a page never treats them as markup.

ghost use Rattle.std.specs.Prelude.{◌≡◌, ◌++◌, IfOk, OnOk, string_bytes};
ghost use Rattle.forms.specs.Pages.{HasNoMarkup, escaped, escaped_ascii, escaped_character, named};

use std::alloc::{AllocError, Global};

/// Appends a character, as an entity if it could be markup.
fn put_escaped(character: char, text: &mut String) -> Result<(), AllocError>
    ensures { OnOk result (string_bytes text.new ≡ string_bytes text.old ++ escaped_character character) }
{
    match character {
        '&' => text.push_str("&amp;"),
        '<' => text.push_str("&lt;"),
        '>' => text.push_str("&gt;"),
        '"' => text.push_str("&quot;"),
        '\'' => text.push_str("&#39;"),
        _ => text.push(character),
    }
}

/// Returns a text, escaped for a page.
pub(crate) fn escaped(alloc: Global, text: &str) -> Result<String, AllocError>
    ensures is { IfOk result (λ escaped_text. string_bytes escaped_text ≡ escaped text.now) }
    ensures plain { IfOk result (λ escaped_text. HasNoMarkup (string_bytes escaped_text)) }
{
    let mut escaped_text = String::new(alloc);
    for character in text.chars() {
        put_escaped(character, &mut escaped_text)?;
    }
    Ok(escaped_text)
}

/// Returns an ASCII text, escaped for a page.
pub(crate) fn escaped_ascii(alloc: Global, text: &[u8]) -> Result<String, AllocError>
    ensures is { IfOk result (λ escaped_text. string_bytes escaped_text ≡ escaped_ascii text.now) }
    ensures plain { IfOk result (λ escaped_text. HasNoMarkup (string_bytes escaped_text)) }
{
    let mut escaped_text = String::new(alloc);
    for byte in text {
        put_escaped(char::from(*byte), &mut escaped_text)?;
    }
    Ok(escaped_text)
}

#[tactic(auto, unfolding(crate::specs::Pages::named))]
/// Returns a number and an escaped name for a page, such as `7 <bdi>Harbour</bdi>`.
pub(crate) fn named(alloc: Global, number: u32, name: &str) -> Result<String, AllocError>
    ensures { IfOk result (λ text. string_bytes text ≡ named number name.now) }
{
    let name = escaped(alloc, name)?;
    format!(in alloc; "{number} <bdi>{name}</bdi>")
}
