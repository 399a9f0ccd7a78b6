//! Texts from untrusted sources, made safe for a terminal.

ghost use Rattle.std.specs.Prelude.{◌≡◌, IfOk, OnOk, ◌++◌, string_bytes};
ghost use Rattle.checker.specs.Reports.{shown, shown_character, steers};

use std::alloc::{AllocError, Global};

/// Returns whether the character controls a terminal or the writing direction.
fn steers(character: char) -> bool
    ensures { result ≡ steers character }
{
    matches!(
        character,
        '\u{0}'..='\u{9}' | '\u{b}'..='\u{1f}' | '\u{7f}'..='\u{9f}' | '\u{61c}' | '\u{200e}'..='\u{200f}'
            | '\u{202a}'..='\u{202e}' | '\u{2066}'..='\u{2069}'
    )
}

/// Appends a character to a text, made safe for a terminal.
fn show(character: char, text: &mut String) -> Result<(), AllocError>
    ensures { OnOk result (string_bytes text.new ≡ string_bytes text.old ++ shown_character character) }
{
    if steers(character) {
        text.push('?')
    } else {
        text.push(character)
    }
}

/// Returns a text made safe for a terminal: since names may come from untrusted sources, a question mark replaces each character
/// that controls the terminal or the writing direction.
pub(crate) fn shown(alloc: Global, text: &str) -> Result<String, AllocError>
    ensures { IfOk result (λ shown_text. string_bytes shown_text ≡ shown text.now) }
{
    let mut shown_text = String::new(alloc);
    for character in text.chars() {
        show(character, &mut shown_text)?;
    }
    Ok(shown_text)
}
