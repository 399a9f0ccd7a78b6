//! Votes in units, the quota, the transfer value, and votes as text.

ghost use Rattle.std.specs.Prelude.{◌≡◌, ℕ, ◌+◌, ◌-◌, ◌*◌, ◌^◌, ◌<◌, ◌≤◌, OnOk, OnErr, Some};
ghost use Rattle.std.specs.Io.KnownBytes.{Appends};
ghost use Rattle.streams.specs.Streams.{AppendsBeginning};
ghost use Rattle.votes.specs.Units.{one_vote, max_papers, max_units, max_seats, IsQuota, quota_of, IsCut, cut, GivesWithin};
ghost use Rattle.votes.specs.Text.{TellsUnits, fraction_text, votes_text};

use itoa::Buffer;
use std::fmt;
use std::marker::Model;
use streams::{Broken, Sink, put_all};

/// One vote, in units.
pub const ONE_VOTE: u64 = 100000;

/// The maximum number of valid ballot papers in a ward: 9999 batches of 500 papers.
pub const MAX_PAPERS: u32 = 4999500;

/// The maximum number of seats in a ward.
pub const MAX_SEATS: u8 = 15;

/// A number of votes, in units; one vote is `ONE_VOTE` units.
#[derive(Clone, Copy, Debug, PartialEq, Eq, PartialOrd, Ord)]
pub struct Votes(u64);

impl Model for Votes {
    ghost Value = { ℕ };

    ghost view = { λ a. a.0 };

    ghost inverse = { λ n. record { 0 = n } };
}

impl Votes {
    /// Returns the votes equal to the given number of units.
    pub fn from_units(units: u64) -> Votes
        ensures { result ≡ units }
    {
        Votes(units)
    }

    /// Returns the number of units.
    pub fn units(self) -> u64
        ensures { result ≡ self }
    {
        self.0
    }

    /// Writes the whole votes without leading zeros, then a decimal point and five digits.
    ///
    /// Allocates nothing. Returns `Broken` only if the sink does; the sink has then accepted a prefix of the text, and its count
    /// of failures is one higher.
    #[tactic(auto, using(streams::proofs::Beginnings::beginnings))]
    pub fn write<W: Sink>(self, sink: &mut W) -> Result<(), Broken>
        requires { W.failed sink.old < 2 ^ 64 - 1 }
        ensures written { OnOk result (Appends (W.taken sink.old) (W.taken sink.new) (votes_text self)) }
        ensures exact { TellsUnits self }
        ensures ok { OnOk result (W.failed sink.new ≡ W.failed sink.old) }
        ensures cut_off { OnErr result (AppendsBeginning (W.taken sink.old) (W.taken sink.new) (votes_text self)) }
        ensures err { OnErr result (W.failed sink.new ≡ W.failed sink.old + 1) }
    {
        let units = self.units();
        let mut buffer = Buffer::new();
        put_all(sink, buffer.format(units / ONE_VOTE).as_bytes())?;
        put_all(sink, &fraction(units))?;
        Ok(())
    }
}

/// Returns the decimal point and the five digits after it, for the given number of units.
fn fraction(units: u64) -> [u8; 6]
    ensures { result ≡ fraction_text units }
{
    [
        b'.',
        b'0' + (units / 10000 % 10) as u8,
        b'0' + (units / 1000 % 10) as u8,
        b'0' + (units / 100 % 10) as u8,
        b'0' + (units / 10 % 10) as u8,
        b'0' + (units % 10) as u8,
    ]
}

impl fmt::Display for Votes {
    ghost output = { λ v. Some (votes_text v) };

    fn fmt<W: fmt::Write>(&self, f: &mut fmt::Formatter<W>) -> fmt::Result {
        let whole = self.0 / ONE_VOTE;
        let tenths = self.0 / 10000 % 10;
        let hundredths = self.0 / 1000 % 10;
        let thousandths = self.0 / 100 % 10;
        let ten_thousandths = self.0 / 10 % 10;
        let hundred_thousandths = self.0 % 10;
        write!(
            f,
            "{whole}.{tenths}{hundredths}{thousandths}{ten_thousandths}{hundred_thousandths}"
        )
    }
}

/// Returns the quota ("Quota"): the smallest whole number of votes that more candidates than there are seats can't all reach.
///
/// `valid` is the number of valid ballot papers, at most `MAX_PAPERS`, and `seats` is from 1 to `MAX_SEATS`.
pub fn quota(valid: u32, seats: u8) -> Votes
    requires few { valid ≤ max_papers }
    requires some_seats { 1 ≤ seats }
    requires few_seats { seats ≤ max_seats }
    ensures least { IsQuota valid seats result }
    ensures is { result ≡ quota_of valid seats }
{
    let whole = u64::from(valid) / (u64::from(seats) + 1) + 1;
    Votes(whole * ONE_VOTE)
}

/// Returns the value at which a paper is transferred with a surplus ("Transfer values"): the surplus multiplied by the value at
/// which the paper was received, divided by the votes credited to its holder, rounded down to whole units.
///
/// `received` is at most one vote, `credited` is at most one vote for each of `MAX_PAPERS` papers, and `surplus` is more than 0
/// and less than `credited`.
pub fn transfer_value(surplus: Votes, received: Votes, credited: Votes) -> Votes
    requires some { 0 < surplus }
    requires part { surplus < credited }
    requires few { credited ≤ max_units }
    requires one { received ≤ one_vote }
    ensures greatest { IsCut surplus received credited result }
    ensures is { result ≡ cut surplus received credited }
    // rounding down creates no votes
    ensures within { GivesWithin surplus credited }
{
    Votes(surplus.0 * received.0 / credited.0)
}
