//! A ward, as shown in its texts.

/// The papers of a contested ward.
#[derive(Clone, Copy, PartialEq, Eq)]
pub struct Poll {
    /// The number of valid papers, at most [`votes::MAX_PAPERS`].
    pub valid: u32,
    /// The number of rejected papers for each code, 1 to 5.
    pub rejected: [u32; 5],
}

/// A ward: its number and name, 1 to [`votes::MAX_SEATS`] seats, and the number and name of each candidate, in ascending order of
/// the numbers, which are 1 to [`paper::MAX_CANDIDATES`].
#[derive(Clone, Copy)]
pub struct Ward<'a> {
    pub number: u8,
    pub name: &'a str,
    pub seats: u8,
    pub candidates: &'a [(u8, String)],
    /// The papers; `None` if the ward is uncontested.
    pub poll: Option<Poll>,
}
