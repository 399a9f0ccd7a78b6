//! What cast-vote records don't say about their ward.

ghost use Rattle.std.specs.Prelude.{◌≤◌, length};
ghost use Rattle.paper.specs.Columns.{max_candidates};
ghost use Rattle.votes.specs.Units.{max_seats};

/// The seats and the name of a ward, and the names of its candidates if each column is for a rank.
#[derive(Drop)]
pub struct RecordsWard<'a> {
    /// The number of seats, 1 to [`votes::MAX_SEATS`].
    pub seats: u8,
    pub name: &'a str,
    /// The candidates, numbered from 1, that the fields of the rank columns name. Empty if each column is for a candidate: the
    /// first line of the records then names them.
    pub candidates: Vec<&'a str>,
    ghost some: { 1 ≤ seats },
    ghost few: { seats ≤ max_seats },
    ghost few_candidates: { length candidates.items ≤ max_candidates },
}
