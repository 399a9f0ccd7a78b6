//! The machine's decision on a request, based on the contents of the store.

ghost use Rattle.std.specs.Prelude.{◌≡◌, IfOk, IfErr, OnOk, IsTrue};
ghost use Rattle.sqlite.specs.State.{HasCleanDisk};
ghost use Rattle.sqlite.specs.Held.{state};
ghost use Rattle.register.specs.Offices.{OfficeState};
ghost use Rattle.register.specs.StateConditions.{IsState};
ghost use Rattle.register.specs.Machine.{step, state_after, RepeatGetsSameReply};
ghost use Rattle.register.specs.Views.{IsViewOf, outcome_of};
ghost use Rattle.register.specs.Tabulated.{AddsWhatIsCounted};
ghost use Rattle.tables.specs.Reading.{OnlyReads, FailsBy};
ghost use Rattle.store.specs.StateTables.{IsAt};
ghost use Rattle.office.specs.Decisions.{LeadsToState};

use register::{Command, Decision, View, decide};
use sqlite::Alter;
use std::alloc::Global;
use store::{CachedStore, Fault};

/// Returns the decision for a view, or `Memory` if an allocation fails.
fn decide_on_view(alloc: Global, view: &View<'_>, command: &Command) -> Result<Decision, Fault>
    ensures decides { IfOk result (λ decision. (s : OfficeState) → IsViewOf s command.now view.now → outcome_of s decision ≡ step s view.now.actor view.now.id.now command.now) }
    ensures stays { (s : OfficeState) → IsState s → IsState (state_after s (step s view.now.actor view.now.id.now command.now)) }
    ensures tabulates { IfOk result (λ decision. (s : OfficeState) → IsState s → IsViewOf s command.now view.now → AddsWhatIsCounted s decision) }
    ensures again { (s : OfficeState) → RepeatGetsSameReply view.now.actor view.now.id.now command.now (step s view.now.actor view.now.id.now command.now) }
    ensures memory { IfErr result (λ f. f ≡ Fault.Memory) }
{
    match decide(alloc, view, command) {
        Ok(decision) => Ok(decision),
        Err(_) => Err(Fault::Memory),
    }
}

/// Returns the machine's decision on a request in the state that the store contains. Changes nothing.
pub(crate) fn decision_of<S: Alter>(
    alloc: Global,
    store: &mut CachedStore<S>,
    actor: u32,
    id: &str,
    command: &Command,
) -> Result<Decision, Fault>
    ensures decides { HasCleanDisk (state S.Store store.new) → (s : OfficeState) → IsAt s (state S.Store store.old)
        → IfOk result (λ decision. outcome_of s decision ≡ step s actor id.now command.now) }
    ensures stays { OnOk result ((s : OfficeState) → IsState s → IsState (state_after s (step s actor id.now command.now))) }
    ensures tabulates { HasCleanDisk (state S.Store store.new) → (s : OfficeState) → IsAt s (state S.Store store.old) → IfOk result (AddsWhatIsCounted s) }
    ensures leads { HasCleanDisk (state S.Store store.new) → IsTrue (state S.Store store.new).is_open → (s : OfficeState) → IsAt s (state S.Store store.new) → IfOk result (LeadsToState s) }
    ensures again { OnOk result ((s : OfficeState) → RepeatGetsSameReply actor id.now command.now (step s actor id.now command.now)) }
    ensures cause { HasCleanDisk (state S.Store store.new) → (s : OfficeState) → IsAt s (state S.Store store.old) → IfErr result (FailsBy (state S.Store store.old) (state S.Store store.new)) }
    ensures opens { HasCleanDisk (state S.Store store.new) → OnOk result (IsTrue (state S.Store store.new).is_open) }
    ensures keeps { HasCleanDisk (state S.Store store.new) → (s : OfficeState) → IsAt s (state S.Store store.old) → IsAt s (state S.Store store.new) }
    ensures reads { OnlyReads (state S.Store store.old) (state S.Store store.new) }
{
    let view = store.load_view(actor, id, command)?;
    let decision = decide_on_view(alloc, &view, command)?;
    Ok(decision)
}
