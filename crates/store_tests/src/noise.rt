//! Clients that send the output of a seeded generator: random bytes, requests with changed bytes, and the beginning of one
//! request joined to the end of another.

use super::begun::{BEGUN, KEYED, KEYING};
use super::clients::{Evening, TestClient};
use super::disks::Disks;
use super::steps::{SERVER_SETTINGS, Step, StepPrinted};
use super::test_host::{TestHost, expect, rows, run_parts};
use rand_core::utils::NextWord;
use rand_pcg::Pcg32;
use std::alloc::{AllocError, Global};
use std::process::Abort;
use std::test::Fail;
use streams::Counted;
use wire::{HttpRequest, RequestError, read_request};

const CLIENTS: usize = 10_000;

/// The requests from which the others are made.
const REQUESTS: [&str; 5] = [
    KEYING,
    "GET /clerks/4/work HTTP/1.1\r\nHost: localhost\r\n\r\n",
    "GET /wards/7/sheet HTTP/1.1\r\n\r\n",
    "GET /wards/7/result HTTP/1.0\r\n\r\n",
    "PUT /clerks/9/batches/12/keying HTTP/1.1\r\nContent-Length: 2\r\n\r\n{}",
];

/// Clerk 9's keying of the batch, with the same papers as clerk 4's keying.
const NINE: &str =
    "POST /clerks/9/batches/12/keying HTTP/1.1\r\nContent-Length: 43\r\n\r\n{\"id\":\"h1\",\"round\":1,\"papers\":[\"1,2,\",\"D\"]}";

/// Both clerks key the batch, so it accepts no further keying.
fn keyed_by_both<M: TestHost + Drop>(rt: &(impl Abort + AllocGlobal)) -> Result<M, Fail> {
    let mut host: M = run_parts(rt, BEGUN)?;
    for keying in [KEYING, NINE] {
        let client = [Some(TestClient::whole(keying.as_bytes()))];
        host = expect(
            rt,
            host,
            &[(Step::Serve(Evening::of(&client)), (0, KEYED, "Ok(())"))],
        )?;
    }
    Ok(host)
}

/// Returns a random number below a bound, or 0 if the bound is 0.
fn below(numbers: &mut Pcg32, bound: usize) -> usize {
    (numbers.next_word() as usize)
        .checked_rem(bound)
        .unwrap_or(0)
}

/// Returns a random byte.
fn byte(numbers: &mut Pcg32) -> u8 {
    let [byte, ..] = numbers.next_word().to_le_bytes();
    byte
}

/// Returns one of the requests, chosen at random.
fn request(numbers: &mut Pcg32) -> &'static [u8] {
    match REQUESTS.get(below(numbers, REQUESTS.len())) {
        Some(request) => request.as_bytes(),
        None => &[],
    }
}

/// Returns up to two hundred random bytes.
fn noise(alloc: Global, numbers: &mut Pcg32) -> Result<Vec<u8>, AllocError> {
    let mut bytes = Vec::new(alloc);
    for _ in 0..below(numbers, 200) {
        bytes.push(byte(numbers))?;
    }
    Ok(bytes)
}

/// Returns a request with one to four bytes changed.
fn changed(alloc: Global, numbers: &mut Pcg32) -> Result<Vec<u8>, AllocError> {
    let mut bytes = Vec::from_slice(alloc, request(numbers))?;
    for _ in 0..=below(numbers, 4) {
        let at = below(numbers, bytes.len());
        if let Some(old) = bytes.get_mut(at) {
            *old = byte(numbers);
        }
    }
    Ok(bytes)
}

/// Returns the beginning of one request, followed by the end of another.
fn spliced(alloc: Global, numbers: &mut Pcg32) -> Result<Vec<u8>, AllocError> {
    let (first, second) = (request(numbers), request(numbers));
    let (begin, end) = (below(numbers, first.len()), below(numbers, second.len()));
    let mut bytes = Vec::from_slice(alloc, first.get(..begin).unwrap_or(first))?;
    bytes.extend_from_slice(second.get(end..).unwrap_or(second))?;
    Ok(bytes)
}

/// Returns what a client sends.
fn sent(alloc: Global, numbers: &mut Pcg32) -> Result<Vec<u8>, AllocError> {
    match below(numbers, 4) {
        0 => noise(alloc, numbers),
        1 => spliced(alloc, numbers),
        _ => changed(alloc, numbers),
    }
}

/// Returns whether a client that sends the given bytes may get the given status.
fn may_be_told(alloc: Global, bytes: &[u8], status: &str) -> bool {
    match read_request(alloc, SERVER_SETTINGS.http, &mut Counted::new(bytes)) {
        Ok(HttpRequest::Denied(RequestError::BadRequest)) => status == "400",
        Ok(HttpRequest::Denied(RequestError::Forbidden)) => status == "403",
        Ok(HttpRequest::Denied(RequestError::NotFound)) => status == "404",
        Ok(HttpRequest::Denied(RequestError::MethodNotAllowed { .. })) => status == "405",
        Ok(HttpRequest::Denied(RequestError::TooLarge)) => status == "413",
        Ok(_) => status == "200" || status == "409",
        Err(_) => false,
    }
}

/// Returns the status of the first response, and the text after it, without the line feed that separates them.
fn first_answer(page: &str) -> Option<(&str, &str)> {
    let (head, behind) = page.split_once("\r\n\r\n")?;
    let status = head.strip_prefix("HTTP/1.1 ")?.get(..3)?;
    let (_, lengths) = head.split_once("Content-Length: ")?;
    let (length, _) = lengths.split_once("\r\n")?;
    let behind = behind.get(length.parse().ok()?..)?;
    Some((status, behind.strip_prefix('\n').unwrap_or(behind)))
}

/// Serves clients that connect at the same time, and returns the responses that they get.
fn served<'a, M: TestHost + Drop>(
    alloc: Global,
    host: M,
    clients: &'a [Option<TestClient<'a>>],
) -> Result<(Vec<StepPrinted>, M), Fail> {
    let evening = Evening::of(clients);
    host.play(alloc, &[Step::Serve(evening)])
}

fn clients_are_answered_as_they_ask<M: TestHost + Drop>(
    rt: &(impl Abort + AllocGlobal),
) -> Result<(), Fail> {
    let alloc = rt.alloc();
    let mut numbers = Pcg32::new(7, 1);
    let mut all = Vec::new(alloc);
    for _ in 0..CLIENTS {
        all.push(sent(alloc, &mut numbers)?)?;
    }
    let clients: Vec<Option<TestClient<'_>>> = all
        .iter()
        .map(|bytes| Some(TestClient::whole(bytes)))
        .collect(alloc)?;
    let (before, host): (String, M) = rows(alloc, keyed_by_both(rt)?)?;
    let (said, host) = served(alloc, host, &clients)?;
    let mut page = said.first().ok_or("nothing was said")?.told().1;
    for bytes in &all {
        let (status, behind) = first_answer(page).ok_or("an answer is missing")?;
        assert!(rt; may_be_told(alloc, bytes, status), "{bytes:?}: {status}");
        page = behind;
    }
    let (after, _) = rows(alloc, host)?;
    assert!(rt; page.is_empty() && before == after, "{page} {after}");
    Ok(())
}

#[test]
fn ten_thousand_clients_are_answered_as_they_ask(rt: HostRuntime) -> Result<(), Fail> {
    clients_are_answered_as_they_ask::<Disks>(&rt)
}
