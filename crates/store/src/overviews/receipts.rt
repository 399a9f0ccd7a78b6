//! The receipts of one actor, or of all actors, read from the tables.

ghost use Rattle.std.specs.Prelude.{◌≡◌, map};
ghost use Rattle.register.specs.Offices.{receipt_entry};
ghost use Rattle.store.specs.Overviews.{receipts_of};
ghost use Rattle.store.specs.Loads.{Loads};

use crate::storage::Store;
use register::Receipt;
use sqlite::Alter;
use tables::Fault;

impl<S: Alter> Store<S> {
    /// Returns the receipts of an actor (0 is the office, 1 to 999 are the clerks), ordered by id; or, if no actor is
    /// given, all receipts, ordered by actor and id. Changes nothing, and doesn't add to the states that a stop may
    /// leave behind. Returns `Memory` or `Store` if a row can't be read.
    pub fn load_receipts(&mut self, actor: Option<u32>) -> Result<Vec<Receipt>, Fault>
        ensures { Loads S.Store self.old self.new result (λ s found. map receipt_entry found.items ≡ receipts_of s actor) }
    {
        match actor {
            Some(actor) => self.list_receipts(actor),
            None => self.all_receipts(),
        }
    }
}
