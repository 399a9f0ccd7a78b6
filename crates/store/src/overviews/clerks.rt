//! The clerks of a batch, and which of them have keyed it, read from the tables.

ghost use Rattle.std.specs.Prelude.{◌≡◌, map, IfOk};
ghost use Rattle.register.specs.Offices.{batch_entry};
ghost use Rattle.register.specs.Agreement.{clerk_list};
ghost use Rattle.store.specs.Loads.{Loads, IsOpen};
ghost use Rattle.store.specs.Overviews.{clerk_view, clerk_view_of};

use crate::storage::Store;
use register::Batch;
use register::agreement::Clerks;
use sqlite::Alter;
use std::alloc::{AllocError, Global};
use tables::Fault;

/// A clerk (1 to 999) of a batch, and whether that clerk has keyed the batch's current round.
#[derive(Clone, Copy, PartialEq, Eq)]
pub struct ClerkOverview {
    pub clerk: u32,
    pub keyed: bool,
}

/// Returns the numbers of a batch's clerks, as a list.
pub(crate) fn clerk_list(alloc: Global, clerks: Clerks) -> Result<Vec<u32>, AllocError>
    ensures { IfOk result (λ numbers. numbers.items ≡ clerk_list clerks) }
{
    let mut numbers = Vec::new(alloc);
    numbers.push(clerks.first)?;
    numbers.push(clerks.second)?;
    if let Some(third) = clerks.third {
        numbers.push(third)?;
    }
    Ok(numbers)
}

impl<S: Alter> Store<S> {
    /// Returns one of a batch's clerks, and whether that clerk has keyed the batch's current round.
    fn clerk_overview(&mut self, batch: &Batch, clerk: u32) -> Result<ClerkOverview, Fault>
        ensures { Loads S.Store self.old self.new result (λ s found. clerk_view found ≡ clerk_view_of s (batch_entry batch.now) clerk) }
    {
        let keyed = self.has_keyed(batch.number, batch.round, clerk)?;
        Ok(ClerkOverview { clerk, keyed })
    }

    /// Returns the overviews of the given clerks, in order.
    pub(crate) fn clerk_overviews(
        &mut self,
        batch: &Batch,
        clerks: &[u32],
    ) -> Result<Vec<ClerkOverview>, Fault>
        requires { IsOpen S.Store self.old }
        ensures { Loads S.Store self.old self.new result (λ s found. map clerk_view found.items ≡ map (clerk_view_of s (batch_entry batch.now)) clerks.now) }
    {
        let mut found = Vec::new(self.allocator());
        for clerk in clerks {
            let overview = self.clerk_overview(batch, *clerk)?;
            if found.push(overview).is_err() {
                return Err(Fault::Memory);
            }
        }
        Ok(found)
    }
}
