//! The account whose code a request needs.

/// The account whose code a request needs: a clerk's, or the office's.
#[derive(Clone, Copy, Debug, PartialEq, Eq)]
pub enum Account {
    /// The clerk with the given number.
    Clerk(u32),
    /// The returning officer, at the console.
    Office,
}
