//! The codes of clerks and of the office: their file, which requests are authenticated, how many wrong codes it takes
//! to reach the limit, and how codes are generated.

ghost use Rattle.std.specs.Prelude.{Some, take};

use super::console_targets::asks_reads;
use super::wire_requests::asks_of;
use crate::sheet_outputs::is_text;
use codes::{
    ClerkRange, Codes, CodesError, CodesFault, DrawFailed, RandomSource, RateLimit, make,
    make_with_office,
};
use std::alloc::{AllocError, Global};
use std::process::Abort;
use std::test::Fail;
use wire::{Gate, HttpSettings, Page, Routes, parse};

/// A file of codes; one of its lines has a Windows line ending.
const FILE: &str = "4 kf7m-2wxt\r\n\n9 w3hd-4psn\n";

/// The credentials that clerk 4 sends, and those of clerk 9.
const FOUR: &str = "Basic NDprZjdtLTJ3eHQ=";

const NINE: &str = "Basic OTp3M2hkLTRwc24=";

/// A file that includes a code for the office.
const WITH_OFFICE: &str = "4 kf7m-2wxt\noffice abcd-efgh-jkmn-prst\r\n9 w3hd-4psn\n";

/// The credentials that the office sends with that code.
const OFFICE: &str = "Basic b2ZmaWNlOmFiY2QtZWZnaC1qa21uLXByc3Q=";

/// Values that may be sent to the office, and whether it accepts them. First its own. Then those of two clerks, an
/// empty value, the office's code under clerk 4's name, and clerk 4's code under the office's name. Last, the office's
/// name with a capital letter, its code cut short, and a different scheme.
const TO_OFFICE: [(&str, bool); 9] = [
    (OFFICE, true),
    (FOUR, false),
    (NINE, false),
    ("", false),
    ("Basic NDphYmNkLWVmZ2gtamttbi1wcnN0", false),
    ("Basic b2ZmaWNlOmtmN20tMnd4dA==", false),
    ("Basic T2ZmaWNlOmFiY2QtZWZnaC1qa21uLXByc3Q=", false),
    ("Basic b2ZmaWNlOmFiY2QtZWZnaC1qa21uLXByc3", false),
    ("Bearer b2ZmaWNlOmFiY2QtZWZnaC1qa21uLXByc3Q=", false),
];

/// Texts that aren't valid files of codes, and the fault in each.
const FAULTS: [(&str, &str); 24] = [
    ("4", "2 at 1"),
    ("kf7m-2wxt\n", "1 at 1"),
    ("0 kf7m-2wxt\n", "1 at 1"),
    ("04 kf7m-2wxt\n", "1 at 1"),
    ("1000 kf7m-2wxt\n", "1 at 1"),
    ("+4 kf7m-2wxt\n", "1 at 1"),
    (" 4 kf7m-2wxt\n", "1 at 1"),
    ("4\tkf7m-2wxt\n", "1 at 1"),
    ("4 kf7m-2wxt\n9 kf7m-2wa\n5 kf7m2wxb\n7 kf7m-2w\n", "2 at 4"),
    ("4  kf7m-2wxt\n", "2 at 1"),
    ("4 kf7m 2wxt\n", "2 at 1"),
    ("4 kf7m-2wxt \n", "2 at 1"),
    ("4 kf7m-2wx\u{e4}\n", "2 at 1"),
    ("4 kf7m-2wxt\n\n4 w3hd-4psn\n", "3 at 3"),
    ("4 kf7m-2wxt\n9 kf7m-2wxt\n", "4 at 2"),
    ("# codes\n4 kf7m-2wxt\n", "1 at 1"),
    ("Office abcd-efgh-jkmn-prst\n", "1 at 1"),
    (" office abcd-efgh-jkmn-prst\n", "1 at 1"),
    ("office\n", "2 at 1"),
    ("4 kf7m-2wxt\noffice kf7m-2wxt-h4dn\n", "12 at 2"),
    ("office abcd-efgh-jkmn-prs\n", "12 at 1"),
    (
        "office abcd-efgh-jkmn-prst\n\noffice jkmn-prst-abcd-efgh\n",
        "11 at 3",
    ),
    (
        "4 abcd-efgh-jkmn-prst\noffice abcd-efgh-jkmn-prst\n",
        "4 at 2",
    ),
    (
        "office abcd-efgh-jkmn-prst\n4 abcd-efgh-jkmn-prst\n",
        "4 at 2",
    ),
];

/// Requests under a clerk's number, with their values of `Authorization`.
const SENT: [(&str, &str, &str); 20] = [
    ("GET /clerks/4/work", FOUR, "Work { clerk: 4 }"),
    ("GET /clerks/9/work", NINE, "Work { clerk: 9 }"),
    (
        "GET /clerks/4/batches/12/candidates",
        FOUR,
        "Candidates { clerk: 4, batch: 12 }",
    ),
    (
        "GET /clerks/4/batches/12/keyed",
        FOUR,
        "Keyed { clerk: 4, batch: 12 }",
    ),
    (
        "GET /clerks/4/",
        FOUR,
        "4 sees <p>keying</p> by default-src 'none'",
    ),
    ("GET /clerks/4/leave", FOUR, "4 leaves"),
    ("POST /clerks/4/", FOUR, "only Get"),
    ("GET /clerks/4/nothing", FOUR, "NotFound"),
    ("GET /clerks/4/work", "", "Unauthorized(Clerk(4))"),
    ("PUT /clerks/4/work", "", "Unauthorized(Clerk(4))"),
    ("GET /clerks/4/nothing", "", "Unauthorized(Clerk(4))"),
    ("GET /clerks/4/work", NINE, "WrongCode(Clerk(4))"),
    ("GET /clerks/9/work", FOUR, "WrongCode(Clerk(9))"),
    ("GET /clerks/5/work", FOUR, "WrongCode(Clerk(5))"),
    // In capitals, cut short, with clerk 9's name, with clerk 9's code, with a different number, and under a different
    // scheme.
    (
        "GET /clerks/4/work",
        "Basic NDpLRjdNLTJXWFQ=",
        "WrongCode(Clerk(4))",
    ),
    (
        "GET /clerks/4/work",
        "Basic NDprZjdtLTJ3eA==",
        "WrongCode(Clerk(4))",
    ),
    (
        "GET /clerks/4/work",
        "Basic OTprZjdtLTJ3eHQ=",
        "WrongCode(Clerk(4))",
    ),
    (
        "GET /clerks/4/work",
        "Basic NDp3M2hkLTRwc24=",
        "WrongCode(Clerk(4))",
    ),
    (
        "GET /clerks/4/work",
        "Basic MDQ6a2Y3bS0yd3h0",
        "WrongCode(Clerk(4))",
    ),
    (
        "GET /clerks/4/work",
        "Bearer NDprZjdtLTJ3eHQ=",
        "WrongCode(Clerk(4))",
    ),
];

/// Requests under no clerk's number, with two codes, and from a foreign page.
const OTHER_REQUESTS: [(&str, &str, &str); 5] = [
    ("GET /wards/7/sheet", "", "Sheet { ward: 7 }"),
    ("GET /clerks//work", "", "NotFound"),
    ("GET /clerks/04/work", "", "NotFound"),
    (
        "GET /clerks/4/work",
        "Authorization: Basic NDprZjdtLTJ3eHQ=\r\nAuthorization: Basic NDprZjdtLTJ3eHQ=\r\n",
        "WrongCode(Clerk(4))",
    ),
    (
        "GET /clerks/4/work",
        "Authorization: Basic NDprZjdtLTJ3eHQ=\r\nSec-Fetch-Site: cross-site\r\n",
        "Forbidden",
    ),
];

/// Codes sent under clerk 4's number, how many times, and when; and whether the limit has then been reached.
const CODES_SENT: [(&str, u32, u64, bool); 9] = [
    (FOUR, 6_001, 0, false),
    (NINE, 5_999, 100_000, false),
    (NINE, 1, 159_999, true),
    (FOUR, 1, 159_999, true),
    (NINE, 0, 90_000, true),
    (NINE, 0, 160_000, false),
    (NINE, 5_999, 160_000, false),
    (NINE, 2, 160_000, true),
    (NINE, 1, 220_000, false),
];

/// Bytes that generate the codes of clerks 4 and 5; the seventh and the eleventh generate no letter.
const DRAWN: [u8; 26] = [
    0, 1, 2, 3, 24, 239, 240, 5, 6, 20, 255, 21, 22, 23, 8, 9, 10, 11, 12, 13, 14, 15, 16, 17, 18,
    19,
];

/// The codes generated from `DRAWN`.
const MADE: &str = "4 abcd-a7fg-2347\n5 jkmn-prst-uwxy\n";

/// Bytes that generate the office's code, one letter each.
const DRAWN_FOR_OFFICE: [u8; 16] = [0, 1, 2, 3, 4, 5, 6, 7, 8, 9, 10, 11, 12, 13, 14, 15];

/// The codes generated from the clerks' bytes followed by the office's.
const MADE_WITH_OFFICE: &str = "4 abcd-a7fg-2347\n5 jkmn-prst-uwxy\noffice abcd-efgh-jkmn-prst\n";

/// Returns the report on a text read as a file of codes.
fn fault_in(alloc: Global, text: &str) -> Result<String, AllocError> {
    match Codes::read(alloc, text.as_bytes()) {
        Ok(_) => String::from_str(alloc, "none"),
        Err(CodesError::Memory) => String::from_str(alloc, "memory"),
        Err(CodesError::Fault(fault)) => {
            let line = fault.line().unwrap_or(0);
            format!(in alloc; "{} at {line}", fault.number())
        }
    }
}

/// Sends a request with the given header lines.
fn asks_at(
    rt: &(impl Abort + AllocGlobal),
    given: HttpSettings<'_>,
    line: &str,
    headers: &str,
    asked: &str,
) -> Result<(), Fail> {
    let request = format!(in rt.alloc(); "{line} HTTP/1.1\r\n{headers}\r\n")?;
    asks_of(rt, given, request.as_bytes(), asked)
}

/// Sends the given number of requests under clerk 4's number at the given time, with the given value of
/// `Authorization`. Returns whether the limit has then been reached.
fn is_reached_after(
    alloc: Global,
    given: HttpSettings<'_>,
    limit: &mut RateLimit,
    value: &str,
    times: u32,
    now: u64,
) -> Result<bool, AllocError> {
    let request = format!(in alloc; "PUT /clerks/4/x HTTP/1.1\r\nauthorization: {value}\r\n\r\n")?;
    let routes = Routes::new(alloc)?;
    let is_wrong = match parse(given, &routes, request.as_bytes()).authentication() {
        Some(authentication) => authentication.is_wrong,
        None => false,
    };
    if is_wrong {
        for _ in 0..times {
            limit.count_wrong(now);
        }
    }
    Ok(limit.is_reached(now))
}

/// A random source that returns its bytes in turn, and then fails.
#[derive(Drop)]
struct Known<'a> {
    bytes: &'a [u8],
    at: usize,
    failures: u64,
}

impl RandomSource for Known<'_> {
    ghost drawn = { λ known. Some (take known.at known.bytes.now) };

    ghost failed = { λ known. known.failures };

    fn draw(&mut self) -> Result<u8, DrawFailed> {
        if self.at < self.bytes.len() {
            let byte = self.bytes[self.at];
            self.at += 1;
            Ok(byte)
        } else {
            self.failures += 1;
            Err(DrawFailed)
        }
    }
}

/// Returns settings with nothing but a gate, which has the given codes.
fn gate_of(codes: &Codes) -> HttpSettings<'_> {
    let page = Page {
        text: "<p>keying</p>",
        policy: "default-src 'none'",
    };
    HttpSettings {
        origin: None,
        gate: Some(Gate {
            codes,
            page,
            console: Page {
                text: "<p>console</p>",
                policy: "default-src 'self'",
            },
        }),
        public: None,
    }
}

/// Checks the reports on texts that aren't valid files of codes.
fn faults_are_told(rt: &(impl Abort + AllocGlobal)) -> Result<(), Fail> {
    for (text, told) in &FAULTS {
        is_text(rt, fault_in(rt.alloc(), *text)?.as_str(), *told);
    }
    Ok(())
}

/// Checks what a request with the given value of `Authorization` asks for, or one without that header if the value is
/// empty.
fn asks_sent(
    rt: &(impl Abort + AllocGlobal),
    given: HttpSettings<'_>,
    line: &str,
    value: &str,
    asked: &str,
) -> Result<(), Fail> {
    if value.is_empty() {
        return asks_at(rt, given, line, "", asked);
    }
    let headers = format!(in rt.alloc(); "aUTHORIZATION:\t{value} \r\n")?;
    asks_at(rt, given, line, headers.as_str(), asked)
}

/// Sends each of the values in `SENT`.
fn asks_all(rt: &(impl Abort + AllocGlobal), given: HttpSettings<'_>) -> Result<(), Fail> {
    for (line, value, asked) in &SENT {
        asks_sent(rt, given, *line, *value, *asked)?;
    }
    Ok(())
}

/// Checks that exactly one code is required, only under a clerk's number, and that a request from a foreign page is
/// rejected before its code is checked.
fn asks_other(rt: &(impl Abort + AllocGlobal), given: HttpSettings<'_>) -> Result<(), Fail> {
    for (line, headers, asked) in &OTHER_REQUESTS {
        asks_at(rt, given, *line, *headers, *asked)?;
    }
    Ok(())
}

/// Requests to the console, each with a value of `Authorization`, or without that header if the value is empty.
const OF_CONSOLE: [(&str, &str, &str); 13] = [
    (
        "GET /office/",
        OFFICE,
        "office sees <p>console</p> by default-src 'self'",
    ),
    ("GET /office/leave", OFFICE, "office leaves"),
    ("POST /office/", OFFICE, "only Get"),
    ("GET /office/orders", OFFICE, "only Post"),
    ("GET /office/nothing", OFFICE, "NotFound"),
    ("GET /office", OFFICE, "NotFound"),
    ("POST /office/wards", OFFICE, "only Get"),
    ("GET /office/wards", "", "Unauthorized(Office)"),
    ("GET /office/wards", FOUR, "WrongCode(Office)"),
    ("GET /office/", "", "Unauthorized(Office)"),
    ("GET /office/nothing", "", "Unauthorized(Office)"),
    ("GET /office/", FOUR, "WrongCode(Office)"),
    ("GET /clerks/4/work", OFFICE, "WrongCode(Clerk(4))"),
];

/// The bodies of orders, and what they ask for.
const ORDERS: [(&str, &str); 12] = [
    (r#"{"files":{},"words":["wards"]}"#, "office: wards"),
    (
        r#"{"words":["import-candidates","n.csv","--id","c1"],"files":{"n.csv":"a,b\n"}}"#,
        "office: import-candidates n.csv --id c1 n.csv=a,b\n",
    ),
    (r#"{"words":["wards"]}"#, "BadRequest"),
    (r#"{"files":{},"words":[]}"#, "BadRequest"),
    (r#"{"files":[],"words":["wards"]}"#, "BadRequest"),
    (r#"{"files":{},"words":"wards"}"#, "BadRequest"),
    (r#"{"files":{},"words":["wards",7]}"#, "BadRequest"),
    (r#"{"files":{"a":1},"words":["wards"]}"#, "BadRequest"),
    (r#"{"files":{},"id":"x","words":["wards"]}"#, "BadRequest"),
    (r#"{"files":{},"words":["wards"],"xords":[]}"#, "BadRequest"),
    (
        r#"{"files":{"0":"","1":"","2":"","3":"","4":"","5":"","6":"","7":"","8":"","9":"","a":"","b":"","c":"","d":"","e":"","f":"","g":""},"words":["wards"]}"#,
        "BadRequest",
    ),
    ("wards", "BadRequest"),
];

/// Checks what requests to the console ask for if the office has a code.
fn asks_console(rt: &(impl Abort + AllocGlobal), given: HttpSettings<'_>) -> Result<(), Fail> {
    for (line, value, asked) in &OF_CONSOLE {
        asks_sent(rt, given, *line, *value, *asked)?;
    }
    for (body, asked) in &ORDERS {
        let length = body.len();
        let request = format!(in rt.alloc();
            "POST /office/orders HTTP/1.1\r\nAuthorization: {OFFICE}\r\nContent-Length: {length}\r\n\r\n{body}"
        )?;
        asks_of(rt, given, request.as_bytes(), *asked)?;
    }
    Ok(())
}

/// Checks when the limit on wrong codes is reached, and for how long it applies.
fn limits_wrong_codes(
    rt: &(impl Abort + AllocGlobal),
    given: HttpSettings<'_>,
) -> Result<(), Fail> {
    let alloc = rt.alloc();
    let mut limit = RateLimit::new();
    for (value, times, now, is_reached) in &CODES_SENT {
        assert!(rt;
            is_reached_after(alloc, given, &mut limit, *value, *times, *now)? == *is_reached
        );
    }
    Ok(())
}

/// Checks which requests are authenticated if the file has a code for the office.
fn office_is_let_in(rt: &(impl Abort + AllocGlobal), held: &Codes) -> Result<(), Fail> {
    assert!(rt; held.has_office());
    for (sent, is_its) in &TO_OFFICE {
        assert!(rt; held.admits_office(sent.as_bytes()) == *is_its);
    }
    assert!(rt; held.admits(4, FOUR.as_bytes()));
    assert!(rt; !held.admits(4, OFFICE.as_bytes()));
    assert!(rt; !held.admits(9, OFFICE.as_bytes()));
    assert_eq!(rt; held.weak_clerks(), [4, 9].as_slice());
    Ok(())
}

/// Returns the codes in a file's text.
fn codes_of(alloc: Global, text: &str) -> Result<Codes, Fail> {
    match Codes::read(alloc, text.as_bytes()) {
        Ok(held) => Ok(held),
        Err(_) => Err(Fail::from("no codes are read")),
    }
}

#[test]
fn codes_of_clerks(rt: HostRuntime) -> Result<(), Fail> {
    faults_are_told(&rt)?;
    let held = codes_of(rt.alloc(), FILE)?;
    asks_all(&rt, gate_of(&held))?;
    asks_other(&rt, gate_of(&held))?;
    assert_eq!(rt; held.weak_clerks(), [4, 9].as_slice());
    limits_wrong_codes(&rt, gate_of(&held))?;
    // If the file has no line for the office, no code is accepted as the office's.
    assert!(rt; !held.has_office());
    assert!(rt; !held.admits_office(OFFICE.as_bytes()));
    asks_sent(&rt, gate_of(&held), "GET /office/", OFFICE, "NotFound")?;
    asks_sent(&rt, gate_of(&held), "GET /office/", "", "NotFound")?;
    asks_sent(&rt, gate_of(&held), "GET /office/wards", OFFICE, "NotFound")?;
    let with_office = codes_of(rt.alloc(), WITH_OFFICE)?;
    asks_console(&rt, gate_of(&with_office))?;
    asks_reads(&rt, gate_of(&with_office), OFFICE)?;
    office_is_let_in(&rt, &with_office)
}

/// Returns the codes for clerks 4 and 5, and for the office if `office` is true, generated from the given bytes: their
/// text, or the reason there are none.
fn made_of(alloc: Global, bytes: &[u8], office: bool) -> Result<String, AllocError> {
    let clerks = ClerkRange { first: 4, last: 5 };
    let mut known = Known {
        bytes,
        at: 0,
        failures: 0,
    };
    let made = if office {
        make_with_office(alloc, &mut known, clerks)
    } else {
        make(alloc, &mut known, clerks)
    };
    match made {
        Ok(text) => Ok(text),
        Err(CodesError::Fault(CodesFault::NoRandom)) => format!(in alloc; "fails at {}", known.at),
        Err(CodesError::Fault(fault)) => format!(in alloc; "{} at {}", fault.number(), known.at),
        Err(CodesError::Memory) => Err(AllocError),
    }
}

/// Checks that codes are generated from the drawn bytes alone, and that no file with two equal codes is made.
fn makes_codes(rt: &(impl Abort + AllocGlobal)) -> Result<(), Fail> {
    let alloc = rt.alloc();
    is_text(rt, made_of(alloc, &DRAWN, false)?.as_str(), MADE);
    let mut twice = vec![in alloc; 0; 24]?;
    twice.extend_from_slice(&DRAWN)?;
    is_text(rt, made_of(alloc, twice.as_slice(), false)?.as_str(), MADE);
    is_text(
        rt,
        made_of(alloc, &DRAWN[..25], false)?.as_str(),
        "fails at 25",
    );
    is_text(rt, made_of(alloc, &[], false)?.as_str(), "fails at 0");
    let none = vec![in alloc; 255; 4_000]?;
    is_text(
        rt,
        made_of(alloc, none.as_slice(), false)?.as_str(),
        "10 at 2400",
    );
    is_text(
        rt,
        made_of(alloc, none.as_slice(), true)?.as_str(),
        "10 at 4000",
    );
    Ok(())
}

/// Checks that the office's code is generated from the bytes that follow those of the clerks' codes.
fn makes_with_office(rt: &(impl Abort + AllocGlobal)) -> Result<(), Fail> {
    let alloc = rt.alloc();
    let mut bytes = vec![in alloc; 0; 40]?;
    bytes.extend_from_slice(&DRAWN)?;
    is_text(
        rt,
        made_of(alloc, &bytes.as_slice()[40..], true)?.as_str(),
        "fails at 26",
    );
    bytes.extend_from_slice(&DRAWN_FOR_OFFICE)?;
    is_text(
        rt,
        made_of(alloc, bytes.as_slice(), true)?.as_str(),
        MADE_WITH_OFFICE,
    );
    is_text(
        rt,
        made_of(alloc, &bytes.as_slice()[40..], true)?.as_str(),
        MADE_WITH_OFFICE,
    );
    Ok(())
}

#[test]
fn codes_are_made(rt: HostRuntime) -> Result<(), Fail> {
    makes_codes(&rt)?;
    makes_with_office(&rt)?;
    let Some(clerks) = ClerkRange::parse("1-40") else {
        return Err(Fail::from("no clerks"));
    };
    assert!(rt; clerks.count() == 40);
    for text in &["40-1", "0-4", "1-1000", "4", "1-", "-4", "1-4-5", "1 - 4"] {
        assert!(rt; ClerkRange::parse(*text).is_none());
    }
    Ok(())
}
