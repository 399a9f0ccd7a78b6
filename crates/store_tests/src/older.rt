//! The migration of an office made by an earlier program, on files that stop. (Which offices are migrated, and which
//! aren't, is covered by examples/transcripts/older.txt.)

mod rows;

use super::disks::Disks;
use super::stops::stop_orders;
use super::test_host::{Act, File};
use rows::{OLDER_ROWS, OLDER_TABLES, ROWS_OF_ONE_WARD};
use std::test::Fail;

const MIGRATED: &str = "$ migrate
office migrated
";

const OLDER: [Act; 2] = [Act::Typed(OLDER_TABLES), Act::Typed(OLDER_ROWS)];

#[test]
fn a_migration_stops_whole_at_its_log(rt: HostRuntime) -> Result<(), Fail> {
    let one_ward = [Act::Typed(OLDER_TABLES), Act::Typed(ROWS_OF_ONE_WARD)];
    stop_orders::<Disks>(&rt, &one_ward, MIGRATED, File::Log)
}

#[test]
fn a_migration_stops_whole_at_its_database(rt: HostRuntime) -> Result<(), Fail> {
    stop_orders::<Disks>(&rt, &OLDER, MIGRATED, File::Database)
}
