//! What the public targets name if the office shows its count publicly.

use crate::wire_requests::{NOTHING, asks_of};
use std::process::Abort;
use std::test::Fail;
use wire::{HttpSettings, Page, Public};

/// The settings of an office that shows its count.
const SHOWN: HttpSettings<'static> = HttpSettings {
    origin: None,
    gate: None,
    public: Some(Public {
        title: "Election of 6 May 2027",
        screen: Page {
            text: "the screen",
            policy: "default-src 'self'",
        },
    }),
};

/// What is shown at each target.
const TARGETS: [(&str, &str); 5] = [
    ("/", "Index"),
    ("/screen", "Screen"),
    ("/screen/wards", "Wards"),
    ("/wards/7/page", "Page { ward: 7 }"),
    ("/wards/99999/page", "Page { ward: 99999 }"),
];

/// Targets at which nothing is shown.
const ELSEWHERE: [&str; 10] = [
    "//",
    "/?",
    "/index",
    "/screen/",
    "/screen/wards/",
    "/wards/0/page",
    "/wards/07/page",
    "/wards/7/page/",
    "/wards/100000/page",
    "/wards//page",
];

/// Checks what a request for the given target asks for.
fn asks_target(
    rt: &(impl Abort + AllocGlobal),
    given: HttpSettings<'_>,
    target: &str,
    asked: &str,
) -> Result<(), Fail> {
    let request = format!(in rt.alloc(); "GET {target} HTTP/1.1\r\n\r\n")?;
    asks_of(rt, given, request.as_bytes(), asked)
}

#[test]
fn shown_in_public(rt: HostRuntime) -> Result<(), Fail> {
    for (target, asked) in &TARGETS {
        asks_target(&rt, SHOWN, *target, *asked)?;
        asks_target(&rt, NOTHING, *target, "NotFound")?;
    }
    for target in &ELSEWHERE {
        asks_target(&rt, SHOWN, *target, "NotFound")?;
    }
    asks_target(&rt, SHOWN, "/wards/7/sheet", "Sheet { ward: 7 }")
}
