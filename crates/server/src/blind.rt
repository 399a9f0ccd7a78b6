//! Blind keying, as a property of the server.

ghost use Rattle.sqlite.specs.Held.{state};
ghost use Rattle.connections.specs.Streams.{stream_of};
ghost use Rattle.server.specs.Blind.{ClerksAreAnsweredAsSeen, ClerksAskNoOrder, ClerksCannotTell, RecordedServersAnswerAsSeen, ServersAnswerAsSeen, KeptAreAnsweredAsSeen};
ghost use Rattle.server.specs.RecordChanges.{served_view};

use connections::Network;
use desk::Recorder;
use laws::clerks_are_blind;
use register::lists_make_states;
use sqlite::Alter;

/// The law of blind keying, for a server. What a clerk sees determines the response to each request under that clerk's number:
/// the wards and their phases, the candidates, the batches, and the clerk's own keyings and receipts. Nothing that another
/// clerk sends changes it. An order may change it, because orders come from the office; no request under a clerk's number is an
/// order. So consider two services whose offices look alike to a clerk, and that receive no orders, neither handed over nor
/// from the console. If both receive the same bytes under the clerk's number, in the same order, both send the clerk the same
/// responses, whatever other clerks keyed.
///
/// The law doesn't cover faults, nor the responses saying that the client must wait (429) or that the file is gone (113). It
/// says nothing about how long a response takes, nor about public reads: stage sheets and declarations.
pub fn clerks_are_answered_as_seen<S: Alter>()
    ensures own { ClerksAreAnsweredAsSeen (state S.Store) }
    ensures kept { KeptAreAnsweredAsSeen (state S.Store) }
    ensures alike { ClerksCannotTell (state S.Store) }
    ensures apart { ClerksAskNoOrder }
{
    // called for their laws
    clerks_are_blind();
    lists_make_states();
}

/// The law of blind keying, applied to what [`serve_connections`](crate::serve_connections) promises. In an office that was
/// open and in the state after any earlier requests, what each clerk sees of that state determines the responses to that clerk.
pub fn servers_answer_as_seen<D: Network, S: Alter>()
    ensures { ServersAnswerAsSeen (stream_of D.Stream.held D.Stream.taken D.Stream.failed) (state S.Store) }
{
    // called for its law
    clerks_are_answered_as_seen::<S>();
}

/// The same law for a server whose office has a second record. The responses saying that the record failed (112) aren't covered
/// either.
pub fn recorded_servers_answer_as_seen<D: Network, S: Alter, R: Recorder>()
    ensures { RecordedServersAnswerAsSeen (stream_of D.Stream.held D.Stream.taken D.Stream.failed) (served_view (state S.Store) R.found R.failed) }
{
    // called for its law
    clerks_are_answered_as_seen::<S>();
}
