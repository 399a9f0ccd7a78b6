//! An office, which is either open or closed.

ghost use Rattle.std.specs.Prelude.{◌≡◌, ◌⊎◌, ◌==◌, ◌+◌, ℕ, map, ◌<◌, ◌≤◌, ◌++◌, ◌∷◌, [], List, true, false, Some, None, Err};
ghost use Rattle.std.specs.Prelude.{take, length, vec_len, vec_capacity, IfOk, IfErr, OnOk, IfNone, IfSome, IsTrue};
ghost use Rattle.sqlite.specs.Tree.{Trees};
ghost use Rattle.sqlite.specs.Effect.{Database};
ghost use Rattle.sqlite.specs.State.{HasCleanDisk};
ghost use Rattle.sqlite.specs.Held.{state};
ghost use Rattle.register.specs.Offices.{OfficeState, empty_office};
ghost use Rattle.register.specs.StateConditions.{IsState};
ghost use Rattle.register.specs.Ranges.{is_office};
ghost use Rattle.register.specs.Seen.{seen_by};
ghost use Rattle.register.specs.Machine.{step, state_after, is_accepted, after, RepeatGetsSameReply};
ghost use Rattle.tables.specs.Contents.{RestsAt, SameContents, Stores};
ghost use Rattle.tables.specs.Presence.{has_some_table, has_every_table, IsOurs};
ghost use Rattle.tables.specs.Reading.{OnlyReads, FailsToList, FailsBy};
ghost use Rattle.store.specs.StateTables.{tables_of, HoldsState, IsAt, LeavesState, KeepsConnection};
ghost use Rattle.store.specs.Openings.{IsBlank, IsFaultOf, IsLeftAt};
ghost use Rattle.register.specs.declared.command.Request.{Request};
ghost use Rattle.office.specs.Answers.{WhenOpenAt, told, told_of, IsMemoryOrStore, IsOpenAt, Handled, HandledAgain};
ghost use Rattle.office.specs.Clerks.{none_is_the_office, own_requests, own_answers};
ghost use Rattle.office.specs.Runs.{outcomes, AnswersFirst, Keeps, StopsAfter};

use crate::answers::{Answer, RunOutcome};
use crate::deciding::decision_of;
use register::{Command, Decision, Request};
use sqlite::{Alter, Connection};
use std::alloc::Global;
use std::marker::Model;
use store::{CachedStore, Fault};

/// An office in a store. A fault inside a transaction closes it, and so does any other fault except `Memory`. A closed
/// office returns `Closed` from every call except `into_connection`, until it is reopened.
pub struct Office<S: Alter> {
    pub(crate) store: CachedStore<S>,
    pub(crate) closed: bool,
    pub(crate) alloc: Global,
}

impl<S: Alter> Model for Office<S> {
    ghost use Rattle.office.specs.Values.{OfficeValue, office_code};

    ghost Value = { OfficeValue S };

    ghost coded = { office_code S.code };

    ghost view = { λ o. record { held = o.store; closed = o.closed } };
}

impl<S: Alter> Office<S> {
    /// Creates an empty office in the connection's database.
    ///
    /// Fails with `WrongDatabase` if the database already has a table with one of our names; in that case nothing is
    /// changed. After any other fault, the database has either all tables or none. The connection is returned along
    /// with the fault.
    pub fn create(alloc: Global, conn: Connection<S>) -> Result<Self, (Fault, Connection<S>)>
        ensures made { IfOk result (λ o. HasCleanDisk (state S.Store o.held) → IsBlank (state S.Store conn) → IsOpenAt empty_office o.closed (state S.Store o.held)) }
        ensures stops { IfErr result (λ e. HasCleanDisk (state S.Store e.1) → IsBlank (state S.Store conn)
            → (trees : Trees) → (state S.Store e.1).may_leave trees → (state S.Store conn).may_leave trees ⊎ Stores (tables_of empty_office) trees) }
        ensures is_open { IfOk result (λ o. o.closed ≡ false) }
        ensures inside { conn.in_transaction ≡ true → result ≡ Err (Fault.Store, conn) }
        ensures keeps_connection { IfOk result (λ o. KeepsConnection (state S.Store conn) (state S.Store o.held)) }
        ensures connection_too { IfErr result (λ e. KeepsConnection (state S.Store conn) (state S.Store e.1)) }
        ensures whole { IfOk result (λ o. has_every_table (state S.Store o.held).now.schema ≡ true) }
        ensures taken { has_some_table (state S.Store conn).now.schema ≡ true → IfOk result (λ _. ⊥) }
        ensures wrong { has_some_table (state S.Store conn).now.schema ≡ true → conn.in_transaction ≡ false → IfErr result (λ e. e.0 ≡ Fault.WrongDatabase) }
        ensures told { IfErr result (λ e. (e.0 ≡ Fault.Memory) ⊎ ((e.0 ≡ Fault.Store) ⊎ ((e.0 ≡ Fault.WrongDatabase) × (has_some_table (state S.Store conn).now.schema ≡ true) × (e.1 ≡ conn)))) }
    {
        match CachedStore::create(alloc, conn) {
            Ok(store) => Ok(Office {
                store,
                closed: false,
                alloc,
            }),
            Err(handed_back) => Err(handed_back),
        }
    }

    /// Opens the office in the connection's database. Changes nothing.
    ///
    /// Fails with `WrongDatabase` if there is no office table or the table has no row. Fails with `NewerSchema` if the
    /// office was created by a later version of the program, and with `OlderSchema` if it was created by an earlier
    /// one. Fails with `Damaged` if no state has these rows. Fails with `Store` if the store failed,
    /// if rowids aren't distinct integers, or if the connection is inside a transaction. The connection is returned
    /// along with the fault, with its database unchanged.
    pub fn open_from(alloc: Global, conn: Connection<S>) -> Result<Self, (Fault, Connection<S>)>
        ensures opened { IfOk result (λ o. HasCleanDisk (state S.Store o.held) → (db : Database) → IsOurs db.schema → RestsAt db (state S.Store conn)
            → (s : OfficeState) × HoldsState db s × IsOpenAt s o.closed (state S.Store o.held)) }
        ensures told { IfErr result (λ e. HasCleanDisk (state S.Store e.1) → (db : Database) → IsOurs db.schema → RestsAt db (state S.Store conn) → IsFaultOf db e.0) }
        ensures reopens { IfOk result (λ o. HasCleanDisk (state S.Store o.held) → (db : Database) → RestsAt db (state S.Store conn) → (s : OfficeState) → IsLeftAt s db
            → IsOpenAt s o.closed (state S.Store o.held)) }
        ensures refuses { IfErr result (λ e. HasCleanDisk (state S.Store e.1) → (db : Database) → RestsAt db (state S.Store conn) → (s : OfficeState) → IsLeftAt s db → IsMemoryOrStore e.0) }
        ensures fails { IfErr result (λ e. HasCleanDisk (state S.Store e.1) → (db : Database) → IsOurs db.schema → RestsAt db (state S.Store conn)
            → FailsToList db (state S.Store conn) (state S.Store e.1) e.0) }
        ensures cause { IfErr result (λ e. HasCleanDisk (state S.Store e.1) → (db : Database) → RestsAt db (state S.Store conn) → (s : OfficeState) → IsLeftAt s db
            → FailsBy (state S.Store conn) (state S.Store e.1) e.0) }
        ensures reads { IfOk result (λ o. OnlyReads (state S.Store conn) (state S.Store o.held)) }
        ensures reads_too { IfErr result (λ e. OnlyReads (state S.Store conn) (state S.Store e.1)) }
        ensures is_open { IfOk result (λ o. o.closed ≡ false) }
        ensures inside { conn.in_transaction ≡ true → result ≡ Err (Fault.Store, conn) }
        ensures alone { (db : Database) → (s t : OfficeState) → HoldsState db s → HoldsState db t → s ≡ t }
        ensures equal { (s t : OfficeState) → IsState s → IsState t → SameContents (tables_of s) (tables_of t) → s ≡ t }
    {
        match CachedStore::open_from(alloc, conn) {
            Ok(store) => Ok(Office {
                store,
                closed: false,
                alloc,
            }),
            Err(handed_back) => Err(handed_back),
        }
    }

    /// Returns true if the office is closed.
    pub fn is_closed(&self) -> bool
        ensures { result ≡ self.now.closed }
    {
        self.closed
    }

    /// Consumes the office, whether it is open or closed, and returns its connection unchanged.
    pub fn into_connection(self) -> Connection<S>
        ensures { result ≡ self.held }
    {
        let Office {
            store,
            closed: _,
            alloc: _,
        } = self;
        store.into_connection()
    }

    /// Answers one request. `Done` is returned only once the change is stored.
    ///
    /// `Memory` before the transaction leaves the tables and the office unchanged, and the office open. Any other fault
    /// closes the office, and leaves the tables as they were before the request or, if it was accepted, possibly as
    /// they are after it. A closed office returns `Closed`. If the office stays open after a fault, no row was written,
    /// not even in a transaction that was rolled back.
    ///
    /// After a fault, the request may be repeated once the office is reopened. It is `Done` if the old tables were
    /// found and `Kept` if the new ones were, with the same reply and the same resulting state in both cases.
    ///
    /// The answer to a clerk depends only on what the clerk can see of the state: the wards and their phases, the
    /// candidates, the batches, and the clerk's own keyings and receipts. A clerk's request changes nothing that
    /// another clerk can see.
    pub fn handle(&mut self, actor: u32, id: &str, command: &Command) -> Result<Answer, Fault>
        ensures handled { WhenOpenAt (state S.Store) self.old self.new
            (λ s. Handled s (step s actor id.now command.now) result self.new.closed (state S.Store self.new.held)) }
        ensures sent_again { HasCleanDisk (state S.Store self.new.held) → self.old.closed ≡ false → (s : OfficeState) → is_accepted (step s actor id.now command.now) ≡ true
            → IsAt (state_after s (step s actor id.now command.now)) (state S.Store self.old.held)
            → HandledAgain s (step s actor id.now command.now) result self.new.closed (state S.Store self.new.held) }
        ensures blind { WhenOpenAt (state S.Store) self.old self.new
            (λ s. is_office actor ≡ false → IfOk result (λ answer. told answer ≡ told_of (step (seen_by actor s) actor id.now command.now))) }
        ensures unseen { WhenOpenAt (state S.Store) self.old self.new
            (λ s. is_office actor ≡ false → (clerk : ℕ) → (actor == clerk) ≡ false → LeavesState (state S.Store self.new.held) (λ x. seen_by clerk x ≡ seen_by clerk s)) }
        ensures closes { IfErr result (λ f. (f ≡ Fault.Memory) ⊎ (self.new.closed ≡ true)) }
        ensures unwritten { IfErr result (λ f. self.new.closed ≡ false → OnlyReads (state S.Store self.old.held) (state S.Store self.new.held)) }
        ensures cause { WhenOpenAt (state S.Store) self.old self.new
            (λ s. IfErr result (λ f. FailsBy (state S.Store self.old.held) (state S.Store self.new.held) f ⊎ (is_accepted (step s actor id.now command.now) ≡ true))) }
        ensures keeps_connection { KeepsConnection (state S.Store self.old.held) (state S.Store self.new.held) }
        ensures closed { self.old.closed ≡ true → (result ≡ Err Fault.Closed) × (self.new ≡ self.old) }
        ensures clean { HasCleanDisk (state S.Store self.new.held) → HasCleanDisk (state S.Store self.old.held) }
    {
        self.decide_and_commit(actor, id, command)
    }

    /// Answers one request: decides it based on the contents of the store, and commits the change.
    fn decide_and_commit(
        &mut self,
        actor: u32,
        id: &str,
        command: &Command,
    ) -> Result<Answer, Fault>
        ensures clean { HasCleanDisk (state S.Store self.new.held) → HasCleanDisk (state S.Store self.old.held) }
        ensures keeps_connection { KeepsConnection (state S.Store self.old.held) (state S.Store self.new.held) }
        ensures closed { self.old.closed ≡ true → (result ≡ Err Fault.Closed) × (self.new ≡ self.old) }
        ensures handled { WhenOpenAt (state S.Store) self.old self.new
            (λ s. Handled s (step s actor id.now command.now) result self.new.closed (state S.Store self.new.held)) }
        ensures again { OnOk result ((s : OfficeState) → RepeatGetsSameReply actor id.now command.now (step s actor id.now command.now)) }
        ensures closes { IfErr result (λ f. (f ≡ Fault.Memory) ⊎ (self.new.closed ≡ true)) }
        ensures unwritten { IfErr result (λ f. self.new.closed ≡ false → OnlyReads (state S.Store self.old.held) (state S.Store self.new.held)) }
        ensures cause { WhenOpenAt (state S.Store) self.old self.new
            (λ s. IfErr result (λ f. FailsBy (state S.Store self.old.held) (state S.Store self.new.held) f ⊎ (is_accepted (step s actor id.now command.now) ≡ true))) }
    {
        if self.closed {
            return Err(Fault::Closed);
        }
        match decision_of(self.alloc, &mut self.store, actor, id, command) {
            Ok(Decision::Kept(reply)) => Ok(Answer::Kept(reply)),
            Ok(Decision::Refused(refusal)) => Ok(Answer::Refused(refusal)),
            Ok(Decision::Accepted(change, reply)) => match self.store.commit(&change) {
                Ok(()) => Ok(Answer::Done(reply)),
                Err(fault) => {
                    self.closed = true;
                    Err(fault)
                }
            },
            Err(Fault::Memory) => Err(Fault::Memory),
            Err(fault) => {
                self.closed = true;
                Err(fault)
            }
        }
    }

    /// Answers a list of requests in order, up to the first fault.
    ///
    /// Space for all answers is allocated first. If that allocation fails, no request is handled, and the fault is
    /// `Memory`. A closed office returns `Closed`, whatever the list contains.
    ///
    /// In a list of clerks' requests, each clerk gets the answers that this clerk's requests alone would get based on
    /// what the clerk can see, regardless of what others keyed before or in between.
    pub fn run(&mut self, requests: &[Request]) -> RunOutcome
        ensures answers { WhenOpenAt (state S.Store) self.old self.new (λ s. AnswersFirst s requests.now result.answers.items) }
        ensures all_answered { WhenOpenAt (state S.Store) self.old self.new
            (λ s. IfNone result.fault ((vec_len result.answers ≡ length requests.now) × IsOpenAt (after s requests.now) self.new.closed (state S.Store self.new.held))) }
        ensures fault { WhenOpenAt (state S.Store) self.old self.new
            (λ s. IfSome result.fault (StopsAfter s requests.now (vec_len result.answers) self.new.closed (state S.Store self.new.held))) }
        ensures headline { HasCleanDisk (state S.Store self.new.held) → self.old.closed ≡ false → (earlier : List Request) → IsAt (after empty_office earlier) (state S.Store self.old.held)
            → Keeps earlier requests.now (vec_len result.answers) (state S.Store self.new.held) }
        ensures blind { WhenOpenAt (state S.Store) self.old self.new
            (λ s. none_is_the_office requests.now ≡ true → (clerk : ℕ)
            → map told (own_answers clerk requests.now result.answers.items) ≡ map told_of (outcomes (seen_by clerk s) (own_requests clerk (take (vec_len result.answers) requests.now)))) }
        ensures closes { IfSome result.fault (λ f. (f ≡ Fault.Memory) ⊎ (self.new.closed ≡ true)) }
        ensures keeps_connection { KeepsConnection (state S.Store self.old.held) (state S.Store self.new.held) }
        ensures closed { self.old.closed ≡ true → (result.fault ≡ Some Fault.Closed) × (vec_len result.answers ≡ 0) × (self.new ≡ self.old) }
        ensures clean { HasCleanDisk (state S.Store self.new.held) → HasCleanDisk (state S.Store self.old.held) }
    {
        if self.closed {
            return RunOutcome::stopped(Vec::new(self.alloc), Fault::Closed);
        }
        let Ok(mut answers) = Vec::with_capacity(self.alloc, requests.len()) else {
            return RunOutcome::stopped(Vec::new(self.alloc), Fault::Memory);
        };
        for request in requests {
            match self.handle(request.actor, request.id.as_str(), &request.command) {
                Ok(answer) => put_answer(&mut answers, answer),
                Err(fault) => return RunOutcome::stopped(answers, fault),
            }
        }
        RunOutcome {
            answers,
            fault: None,
        }
    }
}

/// Appends an answer to a vector that has capacity for it.
fn put_answer(answers: &mut Vec<Answer>, answer: Answer)
    requires { vec_len answers.old < vec_capacity answers.old }
    ensures items { answers.new.items ≡ answers.old.items ++ answer ∷ [] }
    ensures count { vec_len answers.new ≡ vec_len answers.old + 1 }
    ensures room { vec_capacity answers.old ≤ vec_capacity answers.new }
{
    let _ = answers.push(answer);
}
