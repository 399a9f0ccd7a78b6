//! The order to serve: opens an office and serves it on a host, with the order's settings and the codes that were read.

ghost use Rattle.std.specs.Prelude.{◌≡◌, ◌-◌, ◌^◌, ◌<◌, IfOk, IfSome, option_map};
ghost use Rattle.sqlite.specs.Held.{state};
ghost use Rattle.desk.specs.Pages.{IsErrorTold};
ghost use Rattle.connections.specs.Streams.{stream_of};
ghost use Rattle.wire.specs.Origins.{origin_setting};
ghost use Rattle.server.specs.RecordChanges.{served_view};
ghost use Rattle.count_office.specs.Serving.{MayServe, MendedIsKept, ServesAtNetwork, ServesOrder, TellsOutcome, gate_at, outcome_by, public_at, public_in};
ghost use Rattle.count_office.specs.Serving.{public_with, server_settings_of, settings_with};

use crate::codes_file::tell_untaken;
use crate::gate::{GateFiles, gate_of, read_gate_files};
use crate::host::{Host, Opened};
use crate::public::{PublicTexts, make_public_texts, public_of};
use connections::Network;
use desk::{Failure, Recorder, tell_failure};
use office::Office;
use server::{FileNumbers, ServeError, ServedFile, ServerSettings, serve_recorded};
use sqlite::{Alter, Connection};
use std::alloc::Global;
use store::Fault;
use streams::Sink;
use wire::{HttpSettings, Origin, Public};

/// The words of `serve`: its port; if given, the number of clients after which it ends, the origin of a proxy, and the path of
/// a file of clerks' codes; and, if the count is shown in public, its title.
#[derive(Clone, Copy)]
pub struct Serving<'a> {
    pub port: u32,
    pub connections: Option<u32>,
    pub origin: Option<Origin<'a>>,
    pub codes: Option<&'a str>,
    pub public: Option<&'a str>,
}

/// What is given for serving an office: the words of `serve`, and the codes and the pages of the gate, if there is one.
#[derive(Clone, Copy)]
struct GivenSettings<'a> {
    serving: Serving<'a>,
    gate_files: &'a Option<GateFiles>,
}

/// The settings for serving an office: the words of `serve`; the codes and the pages of the gate, if there is one; what is
/// shown in public; and the office's file.
#[derive(Clone, Copy)]
pub struct ServeSettings<'a> {
    pub serving: Serving<'a>,
    pub gate_files: &'a Option<GateFiles>,
    pub public: Option<Public<'a>>,
    pub file: FileNumbers,
}

/// Returns the failure to print if serving ended early. There is none if a new office took the place of the one that was served.
fn outcome_of(ended: Result<(), ServeError>) -> Result<(), Failure>
    ensures { result ≡ outcome_by ended }
{
    match ended {
        Ok(()) | Err(ServeError::Moved) => Ok(()),
        Err(ServeError::Memory) => Err(Failure::Office(Fault::Memory)),
        Err(ServeError::Network | ServeError::Rounds) => Err(Failure::Output),
    }
}

/// Returns the number of clients after which serving ends, as a 64-bit number.
fn most_of(connections: Option<u32>) -> Option<u64>
    ensures { result ≡ connections }
{
    match connections {
        Some(connections) => Some(u64::from(connections)),
        None => None,
    }
}

/// Serves an open office on a network, with the given settings, and returns the recorder.
fn serve_through<D: Network, A: ServedFile, S: Alter, R: Recorder>(
    alloc: Global,
    network: &mut D,
    settings: ServeSettings<'_>,
    served_file: &A,
    office: &mut Office<S>,
    recorder: R,
) -> (Result<(), ServeError>, R)
    ensures { ServesAtNetwork (server_settings_of settings.entry (A.whole served_file.now) (R.records recorder)) (stream_of D.Stream.held D.Stream.taken D.Stream.failed)
        (served_view (state S.Store) R.found R.failed) (D.known network.old) (D.known network.new) settings.entry.serving.connections office.old office.new recorder result.0 result.1 }
{
    let server_settings = ServerSettings {
        http: HttpSettings {
            origin: settings.serving.origin,
            gate: gate_of(settings.gate_files),
            public: settings.public,
        },
        file: settings.file,
        served_file,
    };
    let most = most_of(settings.serving.connections);
    serve_recorded(alloc, network, server_settings, most, office, recorder)
}

/// Builds the texts that are shown in public, if there is a title. The only failure is a failed allocation.
fn public_texts<'a>(
    alloc: Global,
    title: Option<&'a str>,
) -> Result<Option<PublicTexts<'a>>, Failure>
    ensures { IfOk result (λ texts. option_map public_at texts ≡ option_map (λ its. public_with its.now) title.entry) }
{
    match make_public_texts(alloc, title) {
        Ok(texts) => Ok(texts),
        Err(_) => Err(Failure::Office(Fault::Memory)),
    }
}

/// Opens the network of a host, serves an open office there, and closes the network. Returns an error if the network can't be
/// opened, if an allocation fails before that, or if serving ended early; and the recorder.
fn serve_at<H: Host, S: Alter, R: Recorder>(
    alloc: Global,
    host: &mut H,
    given: GivenSettings<'_>,
    office: &mut Office<S>,
    recorder: R,
) -> (Result<(), Failure>, R)
    ensures { MayServe (λ its. (its ≡ settings_with (origin_setting given.entry.serving.origin) (option_map gate_at given.entry.gate_files.now) (public_in given.entry.serving) its.file its.whole
        (R.records recorder)) × IfSome (H.file host.old) (λ numbers. its.file ≡ numbers))
        (stream_of H.Sockets.Stream.held H.Sockets.Stream.taken H.Sockets.Stream.failed) (served_view (state S.Store) R.found R.failed)
        given.entry.serving.port (H.known host.old) (H.known host.new) given.entry.serving.connections office.old office.new recorder result.0 result.1 }
{
    let GivenSettings {
        serving,
        gate_files,
    } = given;
    let texts = match public_texts(alloc, serving.public) {
        Ok(texts) => texts,
        Err(failure) => return (Err(failure), recorder),
    };
    let opened = match host.open(serving.port) {
        Ok(opened) => opened,
        Err(failure) => return (Err(failure), recorder),
    };
    let Opened {
        mut network,
        served_file,
        file,
    } = opened;
    let settings = ServeSettings {
        serving,
        gate_files,
        public: public_of(&texts),
        file,
    };
    let (ended, recorder) = serve_through(
        alloc,
        &mut network,
        settings,
        &served_file,
        office,
        recorder,
    );
    host.close(
        serving.port,
        Opened {
            network,
            served_file,
            file,
        },
    );
    (outcome_of(ended), recorder)
}

/// Prints the failure, if there is one, and returns the status.
fn tell_outcome<E: Sink>(outcome: Result<(), Failure>, err: &mut E) -> u8
    requires { E.failed err.old < 2 ^ 64 - 1 }
    ensures { TellsOutcome (IsErrorTold E.taken E.failed err.old err.new) (err.new ≡ err.old) result outcome }
{
    match outcome {
        Ok(()) => 0,
        Err(failure) => tell_failure(failure, err),
    }
}

/// Opens the office on a connection, serves it on a host, and returns the status, the connection, and the recorder.
///
/// If the settings name a file of clerks' codes, that file is read first, and every client is served at a gate with exactly
/// those codes. Otherwise there is no gate. If the settings have a title, the count is shown in public under that title. If the
/// codes can't be read, or the office or the network can't be opened, no client is served and nothing changes. Any failure is
/// printed.
///
/// Each request that the office accepts is recorded before it is acknowledged, unless there is no second record.
pub fn serve<H: Host, S: Alter, R: Recorder, E: Sink>(
    alloc: Global,
    host: &mut H,
    serving: Serving<'_>,
    conn: Connection<S>,
    recorder: R,
    err: &mut E,
) -> (u8, Connection<S>, R)
    requires { E.failed err.old < 2 ^ 64 - 1 }
    ensures { ServesOrder (IsErrorTold E.taken E.failed err.old err.new) (err.new ≡ err.old) result.0 serving.entry (H.codes_at host.old) (H.file host.old) (R.records recorder)
        (stream_of H.Sockets.Stream.held H.Sockets.Stream.taken H.Sockets.Stream.failed) (served_view (state S.Store) R.found R.failed) (H.known host.old) (H.known host.new) conn result.1
        recorder result.2 }
{
    let gate_files = match read_gate_files(alloc, &*host, serving.codes) {
        Ok(gate_files) => gate_files,
        Err(why) => return (tell_untaken(why, err), conn, recorder),
    };
    let mut office = match Office::open_from(alloc, conn) {
        Ok(office) => office,
        Err((fault, conn)) => return (tell_failure(Failure::Office(fault), err), conn, recorder),
    };
    let given = GivenSettings {
        serving,
        gate_files: &gate_files,
    };
    let (outcome, recorder) = serve_at(alloc, host, given, &mut office, recorder);
    let status = tell_outcome(outcome, err);
    (status, office.into_connection(), recorder)
}

/// The law of an office that takes the place of another. What the old one keeps is its list of requests up to the switch, as [`serve`]
/// says of the old one. What the new one keeps is the list that `mend` made of the old one's, followed by what the new one accepts, if it
/// opens at the state that `mend` made. No contract says that of the file in which it was made.
pub fn mended_list_is_kept<D: Network, S: Alter, R: Recorder>()
    ensures { MendedIsKept (stream_of D.Stream.held D.Stream.taken D.Stream.failed) (served_view (state S.Store) R.found R.failed) }
{}
