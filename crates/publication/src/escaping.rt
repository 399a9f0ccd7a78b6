//! Texts on a page and in JSON, escaped so that they are never treated as markup or as structure.

ghost use Rattle.std.specs.Prelude.{◌≡◌, ◌++◌, IfOk, OnOk, string_bytes};
ghost use Rattle.std.specs.Str.{IsUtf8};
ghost use Rattle.sheet.specs.Lines.{plain, plain_byte};
ghost use Rattle.json.specs.Print.{quoted};

use json::Writer;
use std::alloc::{AllocError, Global};

/// Returns the text with the given bytes.
fn text_of(bytes: Vec<u8>) -> String
    requires { IsUtf8 bytes.items }
    ensures { string_bytes result ≡ bytes.items }
{
    String::from_utf8(bytes).unwrap()
}

/// Appends a byte of a text on a page, as an entity if it could be markup.
fn push_plain_byte(bytes: &mut Vec<u8>, byte: u8) -> Result<(), AllocError>
    ensures { OnOk result (bytes.new.items ≡ bytes.old.items ++ plain_byte byte) }
{
    match byte {
        b'&' => bytes.extend_from_slice(b"&amp;"),
        b'<' => bytes.extend_from_slice(b"&lt;"),
        b'>' => bytes.extend_from_slice(b"&gt;"),
        b'"' => bytes.extend_from_slice(b"&quot;"),
        b'\'' => bytes.extend_from_slice(b"&#39;"),
        _ => bytes.extend_from_slice(&[byte]),
    }
}

/// Returns a text on a page, escaped so that it is never treated as markup, whatever its bytes.
pub fn plain_text(alloc: Global, text: &str) -> Result<String, AllocError>
    ensures { IfOk result (λ escaped. string_bytes escaped ≡ plain text.now) }
{
    let mut bytes = Vec::new(alloc);
    for byte in text.as_bytes() {
        push_plain_byte(&mut bytes, *byte)?;
    }
    Ok(text_of(bytes))
}

/// Returns a text as a JSON string, with its quotation marks.
pub fn json_text(alloc: Global, text: &str) -> Result<String, AllocError>
    ensures { IfOk result (λ json. string_bytes json ≡ quoted text.now) }
{
    let mut out = Writer::new(Vec::new(alloc));
    out.string(text)?;
    Ok(text_of(out.into_inner()))
}
