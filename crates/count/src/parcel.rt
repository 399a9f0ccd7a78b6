//! Papers in parcels, by holder.

ghost use Rattle.std.specs.Prelude.{◌≤◌};
ghost use Rattle.votes.specs.Units.{one_vote};

use votes::Votes;

/// Papers received at one value: for each, its preferences starting with the one for its holder.
#[derive(Drop)]
pub struct Parcel<'a> {
    pub value: Votes,
    pub papers: Vec<&'a [u8]>,
    ghost small: { value ≤ one_vote },
}

/// The parcels that a candidate received at one stage, or that no one holds if the number is 0.
#[derive(Drop)]
pub struct Holding<'a> {
    pub holder: u8,
    pub parcels: Vec<Parcel<'a>>,
}

/// The rule for the value of a paper that is passed on ("Transfer values").
#[derive(Clone, Copy)]
pub enum TransferRule {
    /// The paper keeps the value at which it was received.
    AsReceived,
    /// The value is multiplied by the ratio of the surplus to the votes credited, and rounded down.
    Share { surplus: Votes, credited: Votes },
}
