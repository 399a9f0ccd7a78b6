//! An origin in the form that browsers send.

ghost use Rattle.std.specs.Prelude.{◌≡◌, ◌≤◌, length, option_map};
ghost use Rattle.std.specs.Char.{is_ascii_digit};
ghost use Rattle.std.specs.List.{list_all, prefix_len};
ghost use Rattle.origins.specs.Origins.{authority_of, is_authority, is_host_byte, is_origin, is_port_or_none, is_with_port, origin_in, origin_text};

/// The maximum number of digits in a port.
const MOST_DIGITS: usize = 5;

/// The origin of pages that reach the office through a proxy in front of it, in the form that browsers send.
#[derive(Clone, Copy, Debug)]
pub struct Origin<'a> {
    text: &'a str,
}

/// Returns true if all bytes are digits.
fn all_digits(text: &[u8]) -> bool
    ensures { result ≡ list_all is_ascii_digit text.now }
{
    text.iter().all(|b| b.is_ascii_digit())
}

/// Returns true if a text is empty or consists of a colon and a port number, as may follow a host.
fn is_port_or_none(text: &[u8]) -> bool
    ensures { result ≡ is_port_or_none text.now }
{
    match text.split_first() {
        Some((first, digits)) => {
            *first == b':'
                && digits.len() <= MOST_DIGITS
                && !digits.is_empty()
                && all_digits(digits)
        }
        None => true,
    }
}

/// Returns true if a text is the given host, with or without a port after it.
pub fn is_with_port(front: &[u8], text: &[u8]) -> bool
    ensures { result ≡ is_with_port front.now text.now }
{
    text.starts_with(front) && is_port_or_none(&text[front.len()..])
}

/// Returns true if a byte may appear in a host.
fn is_host_byte(byte: u8) -> bool
    ensures { result ≡ is_host_byte byte }
{
    byte.is_ascii_lowercase() || byte.is_ascii_digit() || matches!(byte, b'-' | b'.' | b'_')
}

/// Returns the length of the host at the beginning of a text.
fn host_length(text: &[u8]) -> usize
    ensures bound { result ≤ length text.now }
    ensures is { result ≡ prefix_len is_host_byte text.now }
{
    let mut length = 0;
    for byte in text {
        if !is_host_byte(*byte) {
            return length;
        }
        length += 1;
    }
    length
}

/// Returns true if a text is a host, with or without a port after it. The default port of the scheme must be left out.
fn is_authority(own_port: &[u8], text: &[u8]) -> bool
    ensures { result ≡ is_authority own_port.now text.now }
{
    let length = host_length(text);
    let port = &text[length..];
    length > 0 && is_port_or_none(port) && port != own_port
}

/// Returns true if a text is an origin.
fn is_origin(text: &[u8]) -> bool
    ensures { result ≡ is_origin text.now }
{
    if text.starts_with(b"https://") {
        return is_authority(b":443", &text[8..]);
    }
    text.starts_with(b"http://") && is_authority(b":80", &text[7..])
}

impl<'a> Origin<'a> {
    /// Parses an origin: `http://` or `https://`, a host in lower case, and its port unless that is the scheme's default. Returns
    /// `None` if the text isn't an origin in the form that browsers send.
    pub fn parse(text: &'a str) -> Option<Origin<'a>>
        ensures { option_map origin_text result ≡ origin_in text.now }
    {
        if is_origin(text.as_bytes()) {
            Some(Origin { text })
        } else {
            None
        }
    }

    /// Returns the text of the origin.
    pub fn text(self) -> &'a str
        ensures { result.now ≡ origin_text self.entry }
    {
        self.text
    }

    /// Returns the host, with its port if it has one.
    pub fn authority(self) -> &'a [u8]
        ensures { result.now ≡ authority_of (origin_text self.entry) }
    {
        let text = self.text.as_bytes();
        if text.starts_with(b"https://") {
            &text[8..]
        } else {
            &text[text.len().min(7)..]
        }
    }
}
