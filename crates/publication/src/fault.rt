//! Why the files of a folder weren't made.

/// Why the files of a folder weren't made.
#[derive(Clone, Copy, Debug, PartialEq, Eq)]
pub enum PublishFault {
    /// An allocation failed.
    Memory,
    /// A page doesn't end as pages do, so there is no place for its links.
    NotAPage,
    /// The wards aren't in ascending order of their numbers, or one appears twice.
    WardOrder,
}
