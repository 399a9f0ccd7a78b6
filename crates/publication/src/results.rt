//! The results of all wards as JSON.

ghost use Rattle.std.specs.Prelude.{◌≡◌, ◌++◌, codes, map, IfOk, OnOk, string_bytes};
ghost use Rattle.std.specs.List.{flat_map, join_by};
ghost use Rattle.publication.specs.Election.{election_entry, ward_entry};
ghost use Rattle.publication.specs.Results.{all_results, ward_results};

use crate::election::{PublishedElection, WardTexts};
use crate::escaping::json_text;
use crate::joining::joined;
use std::alloc::{AllocError, Global};

/// Appends the results of wards, each after a comma.
fn push_later_results(text: &mut String, wards: &[WardTexts]) -> Result<(), AllocError>
    ensures { OnOk result (string_bytes text.new ≡ string_bytes text.old ++ flat_map (λ ward. codes "," ++ ward.results) (map ward_entry wards.now)) }
{
    for ward in wards {
        text.push_str(",")?;
        text.push_str(ward.results)?;
    }
    Ok(())
}

/// Returns the results of wards, separated by commas.
fn ward_results(alloc: Global, wards: &[WardTexts]) -> Result<String, AllocError>
    ensures { IfOk result (λ text. string_bytes text ≡ ward_results (map ward_entry wards.now)) }
{
    let mut text = String::new(alloc);
    if let [first, later @ ..] = wards {
        text.push_str(first.results)?;
        push_later_results(&mut text, later)?;
    }
    Ok(text)
}

/// Returns the results of all wards as JSON, with the title of the election.
pub fn all_results(alloc: Global, election: &PublishedElection) -> Result<String, AllocError>
    ensures { IfOk result (λ text. string_bytes text ≡ all_results (election_entry election.now)) }
{
    let title = json_text(alloc, election.title)?;
    let results = ward_results(alloc, election.wards)?;
    let parts = [
        "{\"title\":",
        title.as_str(),
        ",\"wards\":[\n",
        results.as_str(),
        "]}\n",
    ];
    joined(alloc, &parts)
}
