//! The resources named by the targets of the officer's console.

use crate::wire_requests::asks_of;
use std::process::Abort;
use std::test::Fail;
use wire::HttpSettings;

/// The resource at each target.
const READS: [(&str, &str); 9] = [
    ("/office/wards", "Office(Wards)"),
    ("/office/wards/7", "Office(Ward { ward: 7 })"),
    (
        "/office/wards/99999/batches",
        "Office(Batches { ward: 99999 })",
    ),
    ("/office/wards/7/doubtful", "Office(Doubtful { ward: 7 })"),
    (
        "/office/batches/13/differences",
        "Office(Differences { batch: 13 })",
    ),
    ("/office/batches/12/papers", "Office(Papers { batch: 12 })"),
    ("/office/receipts", "Office(Receipts { actor: None })"),
    (
        "/office/receipts?actor=0",
        "Office(Receipts { actor: Some(0) })",
    ),
    (
        "/office/receipts?actor=12",
        "Office(Receipts { actor: Some(12) })",
    ),
];

/// Targets without a resource.
const NOTHING: [&str; 15] = [
    "/office/wards/",
    "/office/wards/0",
    "/office/wards/07",
    "/office/wards/7/",
    "/office/wards/7x",
    "/office/wards/100000",
    "/office/wards/7/batches/",
    "/office/wards/7/papers",
    "/office/batches/12",
    "/office/batches/12/doubtful",
    "/office/receipts?",
    "/office/receipts?actor=",
    "/office/receipts?actor=00",
    "/office/receipts?actor=four",
    "/office/wards?actor=0",
];

/// Checks what a request for the given target, with the given value of `Authorization`, asks for.
fn asks_target(
    rt: &(impl Abort + AllocGlobal),
    given: HttpSettings<'_>,
    target: &str,
    code: &str,
    asked: &str,
) -> Result<(), Fail> {
    let request = format!(in rt.alloc(); "GET {target} HTTP/1.1\r\nAuthorization: {code}\r\n\r\n")?;
    asks_of(rt, given, request.as_bytes(), asked)
}

/// Checks what is read with the office's code.
pub fn asks_reads(
    rt: &(impl Abort + AllocGlobal),
    given: HttpSettings<'_>,
    code: &str,
) -> Result<(), Fail> {
    for (target, asked) in &READS {
        asks_target(rt, given, *target, code, *asked)?;
    }
    for target in &NOTHING {
        asks_target(rt, given, *target, code, "NotFound")?;
    }
    Ok(())
}
