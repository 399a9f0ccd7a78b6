//! Why serving ended early.

/// Why serving ended early.
#[derive(Clone, Copy, Debug, PartialEq, Eq, Drop)]
pub enum ServeError {
    /// The network or its clock failed.
    Network,
    /// The table of connections couldn't be allocated.
    Memory,
    /// The number of rounds reached the maximum of a 64-bit counter.
    Rounds,
    /// A new office took the place of the one that is served, and the responses of the old one have been sent.
    Moved,
}
