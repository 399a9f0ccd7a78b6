//! What is published of an election.

ghost use Rattle.std.specs.Prelude.{◌≡◌, map};
ghost use Rattle.publication.specs.Election.{are_in_order, ward_entry};

/// The texts of a sealed ward, as the office prints them.
#[derive(Clone, Copy)]
pub struct WardTexts<'a> {
    pub number: u8,
    pub name: &'a str,
    pub page: &'a str,
    pub sheet: &'a str,
    /// The declaration; `None` if the ward isn't declared yet.
    pub declaration: Option<&'a str>,
    pub table: &'a str,
    /// The result as JSON.
    pub results: &'a str,
    /// The ballots; `None` if they aren't published.
    pub ballots: Option<&'a str>,
}

/// What is published: the title of the election, the page of all wards, and the texts of each sealed ward.
#[derive(Clone, Copy)]
pub struct PublishedElection<'a> {
    pub title: &'a str,
    pub index: &'a str,
    pub wards: &'a [WardTexts<'a>],
}

/// Returns true if wards are in ascending order of their numbers, and none appears twice.
pub fn are_in_order(wards: &[WardTexts]) -> bool
    ensures { result ≡ are_in_order (map ward_entry wards.now) }
{
    let mut least: u16 = 0;
    for ward in wards {
        let number = u16::from(ward.number);
        if number < least {
            return false;
        }
        least = number + 1;
    }
    true
}
