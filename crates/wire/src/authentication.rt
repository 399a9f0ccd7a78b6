//! Authentication of a request at the gate, by the code it carries.

ghost use Rattle.std.specs.Prelude.{◌≡◌, List, length, map, option_map};
ghost use Rattle.std.specs.List.{All};
ghost use Rattle.httparse.specs.Spans.{IsHeaderWithin, header_bytes};
ghost use Rattle.wire.specs.Gates.{account_at, authentication_by, authentication_entry, clerk_under, gate_entry, has_code, is_wrong_code};
ghost use Rattle.wire.specs.Gates.{authentication_failure, authentication_failure_by, sent_codes};
ghost use Rattle.wire.specs.Lengths.{NamedValue};

use crate::account::Account;
use crate::digits::{digits_length, number_in};
use crate::length::value_of;
use crate::request_error::RequestError;
use crate::settings::Gate;
use httparse::spans::HeaderSpan;
use std::str;

/// The prefix of every target that belongs to a clerk.
const CLERKS: &[u8] = b"/clerks/";

/// The prefix of every target that belongs to the officer's console.
const OFFICE: &[u8] = b"/office/";

/// The account whose code a request needs, and whether the request has the wrong code.
#[derive(Clone, Copy)]
pub struct Authentication {
    pub account: Account,
    pub is_wrong: bool,
}

/// Returns the clerk whose number a target contains, whether or not anything is served at that target.
fn clerk_under(target: &[u8]) -> Option<u32>
    ensures { result ≡ clerk_under target.now }
{
    if !target.starts_with(CLERKS) {
        return None;
    }
    let behind = &target[CLERKS.len()..];
    let length = digits_length(behind);
    if length == behind.len() || behind[length] != b'/' {
        return None;
    }
    match str::from_utf8(&behind[..length]) {
        Ok(number) => number_in(number),
        Err(_) => None,
    }
}

/// Returns the account whose code a target requires at a gate, whether or not anything is served there; `None` if it requires
/// none.
pub(crate) fn account_at(gate: Option<Gate<'_>>, target: &[u8]) -> Option<Account>
    ensures { result ≡ account_at (option_map gate_entry gate.entry) target.now }
{
    let gate = gate?;
    if !target.starts_with(OFFICE) {
        return Some(Account::Clerk(clerk_under(target)?));
    }
    if gate.codes.has_office() {
        Some(Account::Office)
    } else {
        None
    }
}

/// Returns whether an `Authorization` value matches an account's.
fn has_code(gate: Gate<'_>, account: Account, value: &[u8]) -> bool
    ensures { result ≡ has_code (gate_entry gate.entry) account value.now }
{
    match account {
        Account::Clerk(clerk) => gate.codes.admits(clerk, value),
        Account::Office => gate.codes.admits_office(value),
    }
}

/// Returns why authentication failed, given the header fields, which refer to a buffer; `None` if it succeeded.
fn authentication_failure_by(
    gate: Gate<'_>,
    account: Account,
    buffer: &[u8],
    headers: &[HeaderSpan],
) -> Option<RequestError>
    requires { All (IsHeaderWithin (length buffer.now)) headers.now }
    ensures { result ≡ authentication_failure_by (gate_entry gate.entry) account (sent_codes (map (header_bytes buffer.now) headers.now)) }
{
    match value_of(buffer, headers, b"authorization") {
        Ok(Some(value)) => {
            if has_code(gate, account, value) {
                None
            } else {
                Some(RequestError::WrongCode(account))
            }
        }
        Ok(None) => Some(RequestError::Unauthorized(account)),
        Err(_) => Some(RequestError::WrongCode(account)),
    }
}

/// Returns why authentication failed at the gate, given the account whose code the target needs, if any.
pub(crate) fn authentication_failure(
    gate: Option<Gate<'_>>,
    account: Option<Account>,
    buffer: &[u8],
    headers: &[HeaderSpan],
) -> Option<RequestError>
    requires { All (IsHeaderWithin (length buffer.now)) headers.now }
    ensures { result ≡ authentication_failure (option_map gate_entry gate.entry) account (map (header_bytes buffer.now) headers.now) }
{
    match gate {
        Some(gate) => match account {
            Some(account) => authentication_failure_by(gate, account, buffer, headers),
            None => None,
        },
        None => None,
    }
}

/// Returns whether a code was sent and is wrong.
fn is_wrong_code(why: Option<RequestError>) -> bool
    ensures { result ≡ is_wrong_code why }
{
    match why {
        Some(RequestError::WrongCode(_)) => true,
        Some(_) => false,
        None => false,
    }
}

/// Returns the authentication of a request at a gate, given the account whose code its target needs and the reason why
/// authentication failed, if it did.
pub(crate) fn authentication_by(
    gate: Option<Gate<'_>>,
    account: Option<Account>,
    why: Option<RequestError>,
) -> Option<Authentication>
    ensures { (fields : List NamedValue) → why ≡ authentication_failure (option_map gate_entry gate.entry) account fields
        → option_map authentication_entry result ≡ authentication_by (option_map gate_entry gate.entry) account fields }
{
    match (gate, account) {
        (Some(_), Some(account)) => Some(Authentication {
            account,
            is_wrong: is_wrong_code(why),
        }),
        _ => None,
    }
}
