//! An output that a person may read on a terminal, where control characters are masked.
//!
//! The names of wards and candidates may come from anyone. They contain no ASCII control characters, but they may contain other
//! control characters, such as U+009B, which can make a terminal move or rename things, and characters that change the
//! direction of text.

ghost use Rattle.std.specs.Prelude.{◌≡◌, ◌≤◌, ◌<◌, ◌+◌, ◌-◌, ◌^◌, length, take, IfOk, None, OnErr, OnOk};
ghost use Rattle.std.specs.Io.KnownBytes.{Appends};
ghost use Rattle.count_office.specs.Screens.{controls, ends_steering, last_two, masked, shown_byte};

use streams::{Broken, Sink};

/// The maximum number of bytes to write at once.
const MAX_PIECE: usize = 512;

/// The byte that a terminal shows in place of a control byte.
const MASK: u8 = b'?';

/// An output, and the last two bytes written to it.
///
/// If the output is a terminal, the last byte of any character that controls the terminal or the direction of text is replaced
/// with a question mark, so that the bytes are no longer a valid character. Otherwise each byte is written unchanged.
#[derive(Drop)]
pub struct Screen<S> {
    stream: S,
    is_terminal: bool,
    first: u8,
    second: u8,
}

/// Returns whether a byte is an ASCII control character other than a line feed or a tab.
fn controls(byte: u8) -> bool
    ensures { result ≡ controls byte }
{
    matches!(byte, 0..=8 | 11..=31 | 127)
}

/// Returns whether a byte ends a character that controls a terminal or the direction of text, given the two bytes before it.
fn ends_steering(first: u8, second: u8, byte: u8) -> bool
    ensures { result ≡ ends_steering first second byte }
{
    match (first, second) {
        (_, 0xc2) => matches!(byte, 0x80..=0x9f),
        (_, 0xd8) => byte == 0x9c,
        (0xe2, 0x80) => matches!(byte, 0x8e..=0x8f | 0xaa..=0xae),
        (0xe2, 0x81) => matches!(byte, 0xa6..=0xa9),
        _ => false,
    }
}

/// Returns the byte that is shown on a terminal, given the two bytes before it.
fn shown_byte(first: u8, second: u8, byte: u8) -> u8
    ensures { result ≡ shown_byte first second byte }
{
    if controls(byte) || ends_steering(first, second, byte) {
        MASK
    } else {
        byte
    }
}

/// Returns bytes as they are shown on a terminal, given the two bytes before them, at the start of an array.
fn mask(first: u8, second: u8, bytes: &[u8]) -> [u8; MAX_PIECE]
    requires { length bytes.now ≤ 512 }
    ensures { take (length bytes.now) result ≡ masked first second bytes.now }
{
    let mut room = [0; MAX_PIECE];
    let mut before = first;
    let mut last = second;
    for i in 0..bytes.len() {
        room[i] = shown_byte(before, last, bytes[i]);
        before = last;
        last = bytes[i];
    }
    room
}

/// Returns the last two bytes after the given bytes are appended to the given two.
fn last_two(first: u8, second: u8, bytes: &[u8]) -> (u8, u8)
    ensures { result ≡ last_two first second bytes.now }
{
    let mut before = first;
    let mut last = second;
    for i in 0..bytes.len() {
        before = last;
        last = bytes[i];
    }
    (before, last)
}

impl<S: Sink> Screen<S> {
    /// Returns a screen that nothing has been written to yet.
    pub fn new(stream: S, is_terminal: bool) -> Screen<S>
        ensures stream { result.stream ≡ stream }
        ensures terminal { result.is_terminal ≡ is_terminal }
    {
        Screen {
            stream,
            is_terminal,
            first: 0,
            second: 0,
        }
    }

    /// Writes bytes as they are shown on a terminal, and returns how many were written.
    fn put_masked(&mut self, bytes: &[u8]) -> Result<usize, Broken>
        requires { S.failed self.old.stream < 2 ^ 64 - 1 }
        ensures within { IfOk result (λ n. n ≤ length bytes.now) }
        ensures some { IfOk result (λ n. 0 < length bytes.now → 0 < n) }
        ensures shown { IfOk result (λ n. Appends (S.taken self.old.stream) (S.taken self.new.stream) (masked self.old.first self.old.second (take n bytes.now))) }
        ensures next { IfOk result (λ n. last_two self.old.first self.old.second (take n bytes.now) ≡ (self.new.first, self.new.second)) }
        ensures ok { OnOk result (S.failed self.new.stream ≡ S.failed self.old.stream) }
        ensures err { OnErr result (S.failed self.new.stream ≡ S.failed self.old.stream + 1) }
    {
        let bytes = &bytes[..bytes.len().min(MAX_PIECE)];
        let room = mask(self.first, self.second, bytes);
        let count = self.stream.put(&room[..bytes.len()])?;
        let (first, second) = last_two(self.first, self.second, &bytes[..count]);
        self.first = first;
        self.second = second;
        Ok(count)
    }
}

impl<S: Sink> Sink for Screen<S> {
    ghost taken = { λ _. None };

    ghost failed = { λ s. S.failed s.stream };

    fn put(&mut self, bytes: &[u8]) -> Result<usize, Broken> {
        if self.is_terminal {
            self.put_masked(bytes)
        } else {
            self.stream.put(bytes)
        }
    }

    fn failures(&self) -> u64 {
        self.stream.failures()
    }
}
