//! Serving a connection without settings for clients: neither an origin nor codes.

ghost use Rattle.std.specs.Prelude.{◌≡◌, ◌+◌, ◌-◌, ◌^◌, ◌<◌, true, false};
ghost use Rattle.sqlite.specs.State.{HasCleanDisk};
ghost use Rattle.sqlite.specs.Held.{state};
ghost use Rattle.register.specs.Offices.{OfficeState};
ghost use Rattle.store.specs.StateTables.{IsAt};
ghost use Rattle.wire.specs.Requests.{HasRead, IsIncomplete};
ghost use Rattle.wire.specs.Gates.{no_settings};
ghost use Rattle.wire.specs.Serving.{OnAnswered, OnReadFailed, OnWriteFailed, Serves, ServesClosed};

use crate::serving::Served;
use crate::settings::HttpSettings;
use office::Office;
use sqlite::Alter;
use std::alloc::Global;
use streams::{Sink, Source};

/// Serves one connection: reads a request, processes it in the office, and writes the response. This is
/// [`serve_one`](crate::serve_one) without settings: requests from pages on other machines are rejected, and a clerk is
/// identified by number alone.
pub fn serve_one<R: Source, W: Sink, S: Alter>(
    alloc: Global,
    reader: &mut R,
    writer: &mut W,
    office: &mut Office<S>,
) -> Served
    requires reads { R.failed reader.old < 2 ^ 64 - 1 }
    requires writes { W.failed writer.old < 2 ^ 64 - 1 }
    ensures served { HasCleanDisk (state S.Store office.new.held) → office.old.closed ≡ false → (s : OfficeState) → IsAt s (state S.Store office.old.held)
        → Serves no_settings (R.held reader.old) (W.taken writer.old) (W.taken writer.new) s result office.new.closed (state S.Store office.new.held) }
    ensures read_failed { OnReadFailed result ((R.failed reader.new ≡ R.failed reader.old + 1) × (writer.new ≡ writer.old) × (office.new ≡ office.old)) }
    ensures wanting { OnReadFailed result (HasRead (R.held reader.old) (R.held reader.new) (IsIncomplete no_settings)) }
    ensures answered { OnAnswered result ((R.failed reader.new ≡ R.failed reader.old) × (W.failed writer.new ≡ W.failed writer.old)) }
    ensures write_failed { OnWriteFailed result ((R.failed reader.new ≡ R.failed reader.old) × (W.failed writer.new ≡ W.failed writer.old + 1)) }
    ensures closed { office.old.closed ≡ true → office.new ≡ office.old }
    ensures closed_served { office.old.closed ≡ true → ServesClosed no_settings (R.held reader.old) (W.taken writer.old) (W.taken writer.new) result }
    ensures clean { HasCleanDisk (state S.Store office.new.held) → HasCleanDisk (state S.Store office.old.held) }
{
    let settings = HttpSettings {
        origin: None,
        gate: None,
        public: None,
    };
    crate::serving::serve_one(alloc, settings, reader, writer, office)
}
