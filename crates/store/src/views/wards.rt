//! Wards, read for a request.

ghost use Rattle.std.specs.Prelude.{◌≡◌, map, option_map};
ghost use Rattle.register.specs.Offices.{ward_entry, ward_at};
ghost use Rattle.register.specs.CommandInputs.{empty_input, input_entries};
ghost use Rattle.store.specs.Loads.{Loads};

use crate::entries::wards::Wards;
use crate::storage::Store;
use register::{CommandInput, Ward};
use sqlite::Alter;
use tables::Fault;
use tables::finding::{entries_beginning, find_entry};
use tables::value_conversion::number;

impl<S: Alter> Store<S> {
    /// Returns the ward with the given number, if there is one.
    pub(crate) fn find_ward(&mut self, ward: u32) -> Result<Option<Ward>, Fault>
        ensures { Loads S.Store self.old self.new result (λ s found. option_map ward_entry found ≡ ward_at s ward) }
    {
        find_entry::<Wards, S>(&mut self.conn, &[number(ward)])
    }

    /// Returns all wards, ordered by number.
    pub(crate) fn all_wards(&mut self) -> Result<Vec<Ward>, Fault>
        ensures { Loads S.Store self.old self.new result (λ s found. map ward_entry found.items ≡ s.wards) }
    {
        entries_beginning::<Wards, S>(self.alloc, &mut self.conn, &[])
    }

    /// Returns the input for a command that needs a ward.
    pub(crate) fn ward_part(&mut self, ward: u32) -> Result<CommandInput, Fault>
        ensures { Loads S.Store self.old self.new result (λ s part. input_entries part ≡ record empty_input { ward = ward_at s ward }) }
    {
        let ward = self.find_ward(ward)?;
        Ok(CommandInput {
            ward,
            ..CommandInput::empty(self.allocator())
        })
    }
}
