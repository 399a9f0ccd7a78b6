//! Receipts, read for a request.

ghost use Rattle.std.specs.Prelude.{◌≡◌, map, Some, option_map};
ghost use Rattle.register.specs.Offices.{receipt_entry, receipt_at};
ghost use Rattle.store.specs.Overviews.{receipts_of};
ghost use Rattle.store.specs.Loads.{Loads};

use crate::entries::receipts::Receipts;
use crate::storage::Store;
use register::Receipt;
use sqlite::Alter;
use tables::Fault;
use tables::finding::{entries_beginning, find_entry};
use tables::value_conversion::{number, text};

impl<S: Alter> Store<S> {
    /// Returns the receipt with the given actor and id, if there is one.
    pub(crate) fn find_receipt(&mut self, actor: u32, id: &str) -> Result<Option<Receipt>, Fault>
        ensures { Loads S.Store self.old self.new result (λ s found. option_map receipt_entry found ≡ receipt_at s actor id.now) }
    {
        find_entry::<Receipts, S>(&mut self.conn, &[number(actor), text(id)])
    }

    /// Returns all receipts, ordered by actor and id.
    pub(crate) fn all_receipts(&mut self) -> Result<Vec<Receipt>, Fault>
        ensures { Loads S.Store self.old self.new result (λ s found. map receipt_entry found.items ≡ s.receipts) }
    {
        entries_beginning::<Receipts, S>(self.alloc, &mut self.conn, &[])
    }

    /// Returns the receipts of an actor, ordered by id.
    pub(crate) fn list_receipts(&mut self, actor: u32) -> Result<Vec<Receipt>, Fault>
        ensures { Loads S.Store self.old self.new result (λ s found. map receipt_entry found.items ≡ receipts_of s (Some actor)) }
    {
        entries_beginning::<Receipts, S>(self.alloc, &mut self.conn, &[number(actor)])
    }
}
