//! Copies an office into another database.

ghost use Rattle.std.specs.Prelude.{◌≡◌, ⊤, false, map, filter, length};
ghost use Rattle.sqlite.specs.Held.{state};
ghost use Rattle.register.specs.Offices.{keyed_entry};
ghost use Rattle.rowcheck.specs.States.{state_of, tabulated};
ghost use Rattle.tables.specs.Presence.{has_some_table};
ghost use Rattle.store.specs.Copies.{is_first_paper, holdings_of, CopiesTo};
ghost use Rattle.store.specs.StateTables.{tables_with, Commits};
ghost use Rattle.store.specs.Openings.{IsBlank};

use crate::opening::checked_rows;
use crate::writing::copies::write_whole_office;
use register::KeyedPaper;
use rowcheck::Rows;
use sqlite::{Alter, Connection};
use std::alloc::Global;
use tables::Fault;
use tables::presence::has_some_table;

/// How much an office contains, for comparison with a copy.
#[derive(Clone, Copy)]
pub struct OfficeCounts {
    pub wards: usize,
    pub batches: usize,
    /// The number of keyings, each by one clerk of one batch in one round; those from earlier rounds are included.
    pub keyings: usize,
    pub receipts: usize,
}

/// Why an office couldn't be copied.
#[derive(Clone, Copy)]
pub enum CopyFault {
    /// The fault that opening the office returns, or `Store` if its connection is inside a transaction.
    Office(Fault),
    /// The database for the copy has a table with the name of one of ours, or its connection is inside a transaction;
    /// nothing was written.
    Taken,
    /// The copy couldn't be completed because an allocation or its store failed; its database contains either nothing
    /// or the whole copy.
    Copy(Fault),
}

/// Returns the number of keyings to which the given papers belong: each keying has exactly one first paper.
fn keyings_among(papers: &[KeyedPaper]) -> usize
    ensures { result ≡ length (filter is_first_paper (map keyed_entry papers.now)) }
{
    let mut keyings = 0;
    for keyed in papers {
        if keyed.paper == 1 {
            keyings += 1;
        }
    }
    keyings
}

/// Returns how much the office with the given rows contains.
fn holdings_of(rows: &Rows) -> OfficeCounts
    ensures { result ≡ holdings_of (state_of rows.now) }
{
    OfficeCounts {
        wards: rows.wards.len(),
        batches: rows.batches.len(),
        keyings: keyings_among(&rows.keyings),
        receipts: rows.receipts.len(),
    }
}

/// Creates an office with the given rows in one transaction.
fn commit_copy<T: Alter>(alloc: Global, copy: &mut Connection<T>, rows: &Rows) -> Result<(), Fault>
    requires { copy.old.in_transaction ≡ false }
    ensures { Commits (state T.Store copy.old) (state T.Store copy.new) result (λ (x : ⊤). IsBlank) (λ x. tables_with (state_of rows.now) (tabulated rows.now)) }
{
    let mut tx = copy.transaction();
    write_whole_office(alloc, &mut tx, rows)?;
    tx.commit()?;
    Ok(())
}

/// Copies the office in one connection's database into that of another, which must be empty, in one transaction, and
/// returns how much the copy contains. No office is open afterwards.
///
/// The rows are first checked as in `Store::open_from`, whose fault is returned as `Office`; the office is only read,
/// whatever the outcome. Returns `Taken` if the other database already has a table with the name of one of ours, or if
/// the other connection is inside a transaction. In these cases the other database is unchanged. After `Copy` it is
/// either unchanged or contains the whole copy.
pub fn copy<S: Alter, T: Alter>(
    alloc: Global,
    conn: &mut Connection<S>,
    copy: &mut Connection<T>,
) -> Result<OfficeCounts, CopyFault>
    ensures { CopiesTo S.Store T.Store conn.old conn.new copy.old copy.new result }
{
    if !conn.is_autocommit() {
        return Err(CopyFault::Office(Fault::Store));
    }
    if !copy.is_autocommit() || has_some_table(copy) {
        return Err(CopyFault::Taken);
    }
    match checked_rows(alloc, conn) {
        Ok(rows) => match commit_copy(alloc, copy, &rows) {
            Ok(()) => Ok(holdings_of(&rows)),
            Err(fault) => Err(CopyFault::Copy(fault)),
        },
        Err(fault) => Err(CopyFault::Office(fault)),
    }
}
