//! Whether a request is complete.

/// Whether the bytes received so far make a complete request.
#[derive(Clone, Copy, PartialEq, Eq)]
pub enum Completeness {
    /// They do: what they ask for doesn't depend on what follows.
    Complete,
    /// They don't; at least this many bytes are needed in total.
    AtLeast(usize),
}
