//! Texts on a page, escaped so that they are never treated as markup.

ghost use Rattle.std.specs.Prelude.{◌-◌, ◌^◌, ◌<◌};
ghost use Rattle.sheet.specs.Lines.{plain, plain_byte};
ghost use Rattle.sheet.specs.Writing.{Puts, Writes};

use streams::{Broken, Sink, put_all};

/// Writes a byte of a text to a page, as an entity if it could be markup.
fn put_plain_byte<W: Sink>(sink: &mut W, byte: u8) -> Result<(), Broken>
    requires { W.failed sink.old < 2 ^ 64 - 1 }
    ensures { Puts W.taken W.failed sink.old sink.new (plain_byte byte) result }
{
    match byte {
        b'&' => put_all(sink, b"&amp;"),
        b'<' => put_all(sink, b"&lt;"),
        b'>' => put_all(sink, b"&gt;"),
        b'"' => put_all(sink, b"&quot;"),
        b'\'' => put_all(sink, b"&#39;"),
        _ => put_all(sink, &[byte]),
    }
}

/// Writes the bytes of a text to a page.
fn put_plain<W: Sink>(sink: &mut W, bytes: &[u8]) -> Result<(), Broken>
    requires { W.failed sink.old < 2 ^ 64 - 1 }
    ensures { Puts W.taken W.failed sink.old sink.new (plain bytes.now) result }
{
    for byte in bytes {
        put_plain_byte(sink, *byte)?;
    }
    Ok(())
}

/// Writes a text to a page, escaped so that it is never treated as markup, whatever its bytes.
pub fn write_escaped<W: Sink>(sink: &mut W, text: &str) -> Result<(), Broken>
    requires { W.failed sink.old < 2 ^ 64 - 1 }
    ensures { Writes W.taken W.failed sink.old sink.new (plain text.now) result }
{
    put_plain(sink, text.as_bytes())
}
