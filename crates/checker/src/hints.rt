//! Invisible differences in a text.

ghost use Rattle.std.specs.Prelude.{◌≡◌};
ghost use Rattle.checker.specs.Reports.{hint_of, hint_text, is_marked, is_unended};

/// An invisible reason why a text may differ.
#[derive(Clone, Copy)]
pub enum Hint {
    /// The text begins with a byte order mark.
    ByteOrderMark,
    /// The text contains carriage returns.
    CarriageReturns,
    /// The last line isn't terminated.
    NoLineEnd,
}

/// Returns the invisible reason why a text may differ, if there is one.
pub(crate) fn hint_of(text: &[u8]) -> Option<Hint>
    ensures { result ≡ hint_of text.now }
{
    if is_marked(text) {
        return Some(Hint::ByteOrderMark);
    }
    if text.contains(&b'\r') {
        return Some(Hint::CarriageReturns);
    }
    if is_unended(text) {
        return Some(Hint::NoLineEnd);
    }
    None
}

/// Returns whether the text is nonempty and doesn't end with a line feed.
fn is_unended(text: &[u8]) -> bool
    ensures { result ≡ is_unended text.now }
{
    match text.last() {
        Some(byte) => *byte != b'\n',
        None => false,
    }
}

/// Returns whether the text begins with a byte order mark.
fn is_marked(text: &[u8]) -> bool
    ensures { result ≡ is_marked text.now }
{
    match text {
        [0xef, 0xbb, 0xbf, ..] => true,
        _ => false,
    }
}

/// Returns the text of a hint.
pub(crate) fn hint_text(hint: Option<Hint>) -> &'static str
    ensures { result.now ≡ hint_text hint }
{
    match hint {
        None => "",
        Some(Hint::ByteOrderMark) => {
            "(it begins with a byte order mark, as another program writes it; a sheet doesn't)\n"
        }
        Some(Hint::CarriageReturns) => {
            "(its lines end with carriage returns, as another system writes them; a sheet's don't)\n"
        }
        Some(Hint::NoLineEnd) => "(its last line has no line end)\n",
    }
}
