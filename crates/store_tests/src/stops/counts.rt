//! Orders in a count, each stopped at each call on the store.

use super::super::begun::{
    AFTER_A_SURPLUS, EQUAL_SURPLUSES, FIRST_OF_FOURTEEN, FOURTEEN, OPENED as WARD,
    OPENED_FOR_FIVE as FIVE, PAPERS as NINE_PAPERS, POLLING, SEAL, SEALED, TWO_STAGES,
    WAITING_FOR_A_LOT,
};
use super::super::disks::Disks;
use super::super::test_host::{Act, File, TestHost};
use super::stop_orders;
use std::process::Abort;
use std::test::Fail;

/// Seals a ward without batches.
const TO_SEAL: &str = "$ seal 7 --id s1
ward 7 sealed: 0 valid, 0 rejected, quota 1.00000
";

/// The first stage of a ward with papers: all its bundles are added to their table.
const FIRST_STAGE: &str = "$ advance 7 --id n1
ward 7 stage 1 first preferences
";

/// The next stage: the bundles of a surplus move.
const SECOND_STAGE: &str = "$ advance 7 --id n2
ward 7 stage 2 surplus of 1
";

/// The last stage, and the ward's declaration.
const LAST_STAGE: &str = "$ advance 7 --id n3
ward 7 stage 3 exclusion of 2, last vacancies
";

const DECLARATION: &str = "$ declare 7 --id d1
ward 7 declared: 1, 3
";

/// The lot that the count waits for, between two surpluses. The next stage also transfers a surplus.
const LOT: &str = "$ lot 7 2 1 --id l2
lot at ward 7 stage 2: candidate 1
";

/// The stage that transfers a surplus including papers transferred in an earlier surplus.
const SECOND_SURPLUS: &str = "$ advance 7 --id n3
ward 7 stage 3 surplus of 2
";

/// States of a count, and the orders stopped in each.
const COUNTS: [(&[Act], &str); 7] = [
    (&[Act::Typed(POLLING)], TO_SEAL),
    (SEALED, FIRST_STAGE),
    (
        &[WARD, NINE_PAPERS, SEAL, Act::Typed(FIRST_STAGE)],
        SECOND_STAGE,
    ),
    (
        &[WARD, NINE_PAPERS, SEAL, TWO_STAGES, Act::Typed(LAST_STAGE)],
        DECLARATION,
    ),
    (WAITING_FOR_A_LOT, LOT),
    (
        &[
            FIVE,
            FOURTEEN,
            EQUAL_SURPLUSES,
            FIRST_OF_FOURTEEN,
            Act::Typed(LOT),
        ],
        SECOND_STAGE,
    ),
    (AFTER_A_SURPLUS, SECOND_SURPLUS),
];

/// Stops the orders of the given counts, each at each call on one file.
fn stop_counts<M: TestHost + Drop>(
    rt: &(impl Abort + AllocGlobal),
    counts: &[(&[Act], &str)],
    file: File,
) -> Result<(), Fail> {
    for (before, orders) in counts {
        stop_orders::<M>(rt, before, orders, file)?;
    }
    Ok(())
}

#[test]
fn a_count_is_begun_whole_at_its_log(rt: HostRuntime) -> Result<(), Fail> {
    stop_counts::<Disks>(&rt, &COUNTS[..2], File::Log)
}

#[test]
fn a_surplus_stops_whole_at_its_log(rt: HostRuntime) -> Result<(), Fail> {
    stop_counts::<Disks>(&rt, &COUNTS[2..3], File::Log)
}

#[test]
fn a_declaration_stops_whole_at_its_log(rt: HostRuntime) -> Result<(), Fail> {
    stop_counts::<Disks>(&rt, &COUNTS[3..4], File::Log)
}

#[test]
fn a_lot_stops_whole_at_its_log(rt: HostRuntime) -> Result<(), Fail> {
    stop_counts::<Disks>(&rt, &COUNTS[4..5], File::Log)
}

#[test]
fn a_stage_behind_a_lot_stops_whole_at_its_log(rt: HostRuntime) -> Result<(), Fail> {
    stop_counts::<Disks>(&rt, &COUNTS[5..6], File::Log)
}

#[test]
fn a_second_surplus_stops_whole_at_its_log(rt: HostRuntime) -> Result<(), Fail> {
    stop_counts::<Disks>(&rt, &COUNTS[6..], File::Log)
}

#[test]
fn a_count_is_begun_whole_at_its_database(rt: HostRuntime) -> Result<(), Fail> {
    stop_counts::<Disks>(&rt, &COUNTS[..3], File::Database)
}

#[test]
fn a_count_goes_on_whole_at_its_database(rt: HostRuntime) -> Result<(), Fail> {
    stop_counts::<Disks>(&rt, &COUNTS[3..5], File::Database)
}

#[test]
fn a_count_ends_whole_at_its_database(rt: HostRuntime) -> Result<(), Fail> {
    stop_counts::<Disks>(&rt, &COUNTS[5..], File::Database)
}
