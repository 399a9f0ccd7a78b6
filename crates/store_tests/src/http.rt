//! Clients that connect at the same time: requests arrive in parts, connections break, clients stay silent, or too many
//! connect. There are also requests for the work of clerks whose numbers no client can send.

use super::begun::{BAD_REQUEST, BEGUN, KEYED, KEYING};
use super::clients::{Evening, TestClient, TestClients};
use super::disks::Disks;
use super::steps::Step;
use super::test_host::{TestHost, expect, expect_unchanged, run_parts};
use office::texts_are_there;
use register::elections::elections_are_fair;
use std::alloc::{AllocError, Global};
use std::process::Abort;
use std::test::Fail;

/// Clerk 4's work after keying.
const FOUR_KEYED: &str = "batch 12 ward 7 [1, 2, 3] size 2 round 1: keyed\n";

/// The output for a number that isn't a clerk's.
const NO_CLERK: &str = "refused 3: number out of range\n";

/// Requests for the work of clerk 4 and of clerk 9, and for a sheet that doesn't exist yet.
const FOUR: &[u8] = b"GET /clerks/4/work HTTP/1.1\r\n\r\n";

const NINE: &[u8] = b"GET /clerks/9/work HTTP/1.1\r\n\r\n";

const SHEET: &[u8] = b"GET /wards/7/sheet HTTP/1.1\r\n\r\n";

/// The responses with their work.
const FOUR_TO_KEY: &str =
    "HTTP/1.1 200 OK\r\nContent-Type: application/json\r\nContent-Length: 93\r\nConnection: close\r\n\r\n{\"clerk\":4,\"work\":[{\"batch\":12,\"columns\":[1,2,3],\"keyed\":false,\"round\":1,\"size\":2,\"ward\":7}]}";

const FOUR_HAS_KEYED: &str =
    "HTTP/1.1 200 OK\r\nContent-Type: application/json\r\nContent-Length: 92\r\nConnection: close\r\n\r\n{\"clerk\":4,\"work\":[{\"batch\":12,\"columns\":[1,2,3],\"keyed\":true,\"round\":1,\"size\":2,\"ward\":7}]}";

const NINE_TO_KEY: &str =
    "HTTP/1.1 200 OK\r\nContent-Type: application/json\r\nContent-Length: 93\r\nConnection: close\r\n\r\n{\"clerk\":9,\"work\":[{\"batch\":12,\"columns\":[1,2,3],\"keyed\":false,\"round\":1,\"size\":2,\"ward\":7}]}";

const WRONG_PHASE: &str =
    "HTTP/1.1 409 Conflict\r\nContent-Type: application/json\r\nContent-Length: 34\r\nConnection: close\r\n\r\n{\"refusal\":9,\"text\":\"wrong phase\"}";

/// The clients, the response each must get, and how serving must end.
#[derive(Clone, Copy)]
struct Case<'a> {
    evening: Evening<'a>,
    texts: &'a [&'a str],
    end: &'a str,
}

/// Returns the responses that clients get, separated by line feeds.
fn taken(alloc: Global, texts: &[&str]) -> Result<String, Fail> {
    let mut all = String::new(alloc);
    for (place, text) in texts.iter().enumerate() {
        if place > 0 {
            all.push('\n')?;
        }
        all.push_str(text)?;
    }
    Ok(all)
}

/// Serves clients, and checks the responses that they get.
fn serve<M: TestHost + Drop>(
    rt: &(impl Abort + AllocGlobal),
    host: M,
    case: Case<'_>,
) -> Result<M, Fail> {
    let out = taken(rt.alloc(), case.texts)?;
    let told = (0, out.as_str(), case.end);
    expect(rt, host, &[(Step::Serve(case.evening), told)])
}

/// Serves an evening; all its clients connect and are disconnected.
fn serve_all<M: TestHost + Drop>(
    rt: &(impl Abort + AllocGlobal),
    host: M,
    evening: Evening<'_>,
    texts: &[&str],
) -> Result<M, Fail> {
    let end = "Ok(())";
    serve(
        rt,
        host,
        Case {
            evening,
            texts,
            end,
        },
    )
}

/// Clients that connect at the same time send their requests in parts. Each request is processed once it is complete:
/// one request for clerk 4's work before that clerk's keying is complete, and another afterwards.
fn have_their_turns<M: TestHost + Drop>(
    rt: &(impl Abort + AllocGlobal),
    host: M,
) -> Result<M, Fail> {
    let clients = [
        Some(TestClient::slow(FOUR, 7)),
        Some(TestClient::slow(KEYING.as_bytes(), 40)),
        Some(TestClient::slow(b"X\r\n\r\n", 1)),
        Some(TestClient::whole(FOUR)),
        Some(TestClient::slow(NINE, 1)),
        Some(TestClient::slow(SHEET, 5)),
        Some(TestClient {
            bytes_per_write: 3,
            closes_after_sending: false,
            ..TestClient::whole(NINE)
        }),
    ];
    let texts = [
        FOUR_HAS_KEYED,
        KEYED,
        BAD_REQUEST,
        FOUR_TO_KEY,
        NINE_TO_KEY,
        WRONG_PHASE,
        NINE_TO_KEY,
    ];
    serve_all(rt, host, Evening::of(&clients), &texts)
}

/// Connections break at each byte of the request, and none of it is stored. They then break at each byte of the
/// response: to the keying for the first of those clients, and to its repetition for the others.
fn break_at_each_byte<M: TestHost + Drop>(
    rt: &(impl Abort + AllocGlobal),
    host: M,
) -> Result<M, Fail> {
    let keying = TestClient::whole(KEYING.as_bytes());
    let mut unheard = Vec::new(rt.alloc());
    let mut nothing = String::new(rt.alloc());
    for heard in 0..KEYING.len() {
        unheard.push(Some(TestClient { heard, ..keying }))?;
        if heard > 0 {
            nothing.push('\n')?;
        }
    }
    let mut untold = Vec::new(rt.alloc());
    let mut fronts = Vec::new(rt.alloc());
    for takes in 0..KEYED.len() {
        untold.push(Some(TestClient { takes, ..keying }))?;
        fronts.push(KEYED.get(..takes).unwrap_or(""))?;
    }
    let unheard = Step::Serve(Evening::of(&unheard));
    let host = expect_unchanged(rt, host, &[(unheard, (0, nothing.as_str(), "Ok(())"))])?;
    serve_all(rt, host, Evening::of(&untold), &fronts)
}

/// A silent client, one that sends a byte now and then, and one that accepts none of its response are closed when the
/// clock jumps by ten seconds. The others get their responses meanwhile.
fn are_let_go<M: TestHost + Drop>(rt: &(impl Abort + AllocGlobal), host: M) -> Result<M, Fail> {
    let clients = [
        Some(TestClient::silent()),
        Some(TestClient::slow(FOUR, 1)),
        Some(TestClient {
            bytes_per_write: 0,
            ..TestClient::whole(FOUR)
        }),
        Some(TestClient::whole(NINE)),
    ];
    let evening = Evening {
        seconds: 10,
        ..Evening::of(&clients)
    };
    serve_all(rt, host, evening, &["", "", "", NINE_TO_KEY])
}

/// Returns a case: the clients, the number of clients after which serving ends, and how it must end.
fn wanted<'a>(
    clients: TestClients<'a>,
    connections: Option<u64>,
    texts: &'a [&'a str],
    end: &'a str,
) -> Case<'a> {
    let evening = Evening {
        connections,
        waits: 9,
        ..Evening::of(clients)
    };
    Case {
        evening,
        texts,
        end,
    }
}

/// Connections that fail while being accepted don't count. If the network fails, serving ends, and responses already
/// sent remain valid.
fn are_not_let_in<M: TestHost + Drop>(rt: &(impl Abort + AllocGlobal), host: M) -> Result<M, Fail> {
    let work = Some(TestClient::whole(FOUR));
    let (one, late, between) = ([work], [None, work], [work, None, work]);
    let mut host = host;
    for case in [
        wanted(&one, Some(0), &[""], "Ok(())"),
        wanted(&one, Some(2), &[FOUR_TO_KEY], "Err(Network)"),
        wanted(&one, None, &[FOUR_TO_KEY], "Err(Network)"),
        wanted(&late, Some(1), &["", FOUR_TO_KEY], "Ok(())"),
        wanted(&between, Some(1), &[FOUR_TO_KEY, "", ""], "Ok(())"),
        wanted(&between, Some(2), &[FOUR_TO_KEY, "", FOUR_TO_KEY], "Ok(())"),
    ] {
        host = serve(rt, host, case)?;
    }
    Ok(host)
}

/// The number of clients that connect at the same time, and the most that may be connected at once.
const CROWD: usize = 600;

const MOST: usize = 512;

/// The clients in the crowd that request a clerk's work. They send three bytes at a time, and the network reports only
/// them as ready.
const ASKING: &[usize] = &[0, CROWD - MOST - 1, CROWD - MOST, MOST, CROWD - 1];

/// Returns a crowd of clients, all silent except those in `ASKING`.
fn crowd<'a>(alloc: Global) -> Result<Vec<Option<TestClient<'a>>>, Fail> {
    let mut clients = Vec::new(alloc);
    for place in 0..CROWD {
        clients.push(Some(if ASKING.contains(&place) {
            TestClient {
                bytes_per_read: 3,
                ..TestClient::whole(FOUR)
            }
        } else {
            TestClient::silent()
        }))?;
    }
    Ok(clients)
}

/// Returns the responses to a crowd in which only the clients at the given indices get one.
fn crowds_texts(alloc: Global, answered: &[usize]) -> Result<Vec<&'static str>, Fail> {
    let mut texts = Vec::new(alloc);
    for place in 0..CROWD {
        let text = if answered.contains(&place) {
            FOUR_TO_KEY
        } else {
            ""
        };
        texts.push(text)?;
    }
    Ok(texts)
}

/// If more clients connect than are allowed at once, those that have waited longest are closed: the first 88 of a crowd
/// of 600. No client is closed for that reason before it has waited a second: if no time passes, a new connection waits
/// until another is closed.
fn are_too_many<M: TestHost + Drop>(rt: &(impl Abort + AllocGlobal), host: M) -> Result<M, Fail> {
    let alloc = rt.alloc();
    let clients = crowd(alloc)?;
    let texts = crowds_texts(alloc, &[CROWD - MOST, MOST, CROWD - 1])?;
    let evening = Evening {
        told: Some(ASKING),
        seconds: 1,
        ..Evening::of(&clients)
    };
    let host = serve_all(rt, host, evening, &texts)?;
    let texts = crowds_texts(alloc, &[0, CROWD - MOST - 1, CROWD - MOST, MOST])?;
    let evening = Evening {
        told: Some(ASKING),
        waits: 40,
        ..Evening::of(&clients)
    };
    let end = "Err(Network)";
    serve(
        rt,
        host,
        Case {
            evening,
            texts: &texts,
            end,
        },
    )
}

/// A file of codes; and requests for clerk 4's work with that clerk's code, with a wrong code, and with no code.
const CODES: &str = "4 kf7m-2wxt\n9 w3hd-4psn\n";

const BY_HIS_CODE: &[u8] =
    b"GET /clerks/4/work HTTP/1.1\r\nAuthorization: Basic NDprZjdtLTJ3eHQ=\r\n\r\n";

const BY_A_WRONG_ONE: &[u8] =
    b"GET /clerks/4/work HTTP/1.1\r\nAuthorization: Basic OTp3M2hkLTRwc24=\r\n\r\n";

/// The response to the last two requests.
const UNAUTHORIZED: &str =
    "HTTP/1.1 401 Unauthorized\r\nContent-Type: application/json\r\nContent-Length: 24\r\nWWW-Authenticate: Basic realm=\"clerk 4\", charset=\"UTF-8\"\r\nConnection: close\r\n\r\n{\"error\":\"unauthorized\"}";

/// Requests and their responses. Clerk 4's work is returned only for that clerk's code, even if the response was
/// cached, and even after wrong codes have been sent. A sheet is public.
const AT_THE_GATE: [(&[u8], &str); 18] = [
    (BY_HIS_CODE, FOUR_TO_KEY),
    (BY_HIS_CODE, FOUR_TO_KEY),
    (FOUR, UNAUTHORIZED),
    (BY_HIS_CODE, FOUR_TO_KEY),
    (SHEET, WRONG_PHASE),
    (BY_A_WRONG_ONE, UNAUTHORIZED),
    (BY_A_WRONG_ONE, UNAUTHORIZED),
    (BY_A_WRONG_ONE, UNAUTHORIZED),
    (BY_A_WRONG_ONE, UNAUTHORIZED),
    (BY_A_WRONG_ONE, UNAUTHORIZED),
    (BY_A_WRONG_ONE, UNAUTHORIZED),
    (BY_A_WRONG_ONE, UNAUTHORIZED),
    (BY_A_WRONG_ONE, UNAUTHORIZED),
    (BY_A_WRONG_ONE, UNAUTHORIZED),
    (BY_A_WRONG_ONE, UNAUTHORIZED),
    (BY_HIS_CODE, FOUR_TO_KEY),
    (FOUR, UNAUTHORIZED),
    (SHEET, WRONG_PHASE),
];

/// Returns the clients of an office with codes.
fn clients_with_codes<'a>(alloc: Global) -> Result<Vec<Option<TestClient<'a>>>, AllocError> {
    let mut clients = Vec::new(alloc);
    for (sends, _) in &AT_THE_GATE {
        clients.push(Some(TestClient::whole(*sends)))?;
    }
    Ok(clients)
}

/// Returns the responses to those clients.
fn responses_at_gate(alloc: Global) -> Result<Vec<&'static str>, AllocError> {
    let mut texts = Vec::new(alloc);
    for (_, told) in &AT_THE_GATE {
        texts.push(*told)?;
    }
    Ok(texts)
}

/// Serves an office with codes: only a clerk's own code gets that clerk's work.
fn come_with_codes<M: TestHost + Drop>(
    rt: &(impl Abort + AllocGlobal),
    host: M,
) -> Result<M, Fail> {
    let clients = clients_with_codes(rt.alloc())?;
    let texts = responses_at_gate(rt.alloc())?;
    let evening = Evening {
        codes: Some(CODES),
        ..Evening::of(&clients)
    };
    serve_all(rt, host, evening, &texts)
}

/// If bodies are a megabyte each, 63 of them may be in memory at once. When another arrives, the client that has waited
/// longest is closed, and no other.
fn hold_too_much<M: TestHost + Drop>(rt: &(impl Abort + AllocGlobal), host: M) -> Result<M, Fail> {
    let alloc = rt.alloc();
    let head = b"POST /clerks/4/batches/12/keying HTTP/1.1\r\nContent-Length: 1048576\r\n\r\n";
    let mut body = Vec::from_slice(alloc, head)?;
    body.resize(body.len() + (1 << 20), 0xff)?;
    let all_but_one = body.len().saturating_sub(1);
    let slow_client = TestClient::slow(body.as_slice(), all_but_one);
    // Most clients never send their last byte.
    let waits = TestClient {
        sends: body.get(..all_but_one).unwrap_or(&[]),
        closes_after_sending: false,
        ..slow_client
    };
    let mut clients = [Some(waits); 64];
    let mut texts = [""; 64];
    clients[0] = Some(slow_client);
    clients[1] = Some(slow_client);
    clients[63] = Some(slow_client);
    texts[1] = BAD_REQUEST;
    texts[63] = BAD_REQUEST;
    serve(rt, host, wanted(&clients, None, &texts, "Err(Network)"))
}

/// Requests work under numbers that no client can send.
fn works<M: TestHost + Drop>(rt: &(impl Abort + AllocGlobal), host: M) -> Result<M, Fail> {
    expect(
        rt,
        host,
        &[
            (Step::Work(4), (0, FOUR_KEYED, "")),
            (Step::Work(0), (0, NO_CLERK, "")),
            (Step::Work(u32::MAX), (0, NO_CLERK, "")),
        ],
    )
}

fn come_at_once<M: TestHost + Drop>(rt: &(impl Abort + AllocGlobal)) -> Result<(), Fail> {
    let host: M = run_parts(rt, BEGUN)?;
    let host = are_let_go(rt, host)?;
    let host = are_not_let_in(rt, host)?;
    let host = are_too_many(rt, host)?;
    let host = hold_too_much(rt, host)?;
    let host = come_with_codes(rt, host)?;
    have_their_turns(rt, host)?;
    let host: M = run_parts(rt, BEGUN)?;
    let host = break_at_each_byte(rt, host)?;
    works(rt, host)?;
    Ok(())
}

#[test]
fn clients_come_at_once(rt: HostRuntime) -> Result<(), Fail> {
    texts_are_there();
    elections_are_fair();
    come_at_once::<Disks>(&rt)
}
