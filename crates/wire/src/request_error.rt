//! Why a request is rejected before the office is asked.

use crate::account::Account;

/// The methods that are served.
#[derive(Clone, Copy, Debug, PartialEq, Eq)]
pub enum Verb {
    Get,
    Post,
}

/// Why a request is rejected before the office is asked.
#[derive(Clone, Copy, Debug, PartialEq, Eq)]
pub enum RequestError {
    /// Its head can't be parsed, the length of its body isn't known, or the body isn't a keying or an order.
    BadRequest,
    /// A page from another site sent it, or it was addressed to a foreign host name.
    Forbidden,
    /// Its target names nothing that is served.
    NotFound,
    /// Its target is served only with another method.
    MethodNotAllowed { allowed: Verb },
    /// Its body exceeds the size limit.
    TooLarge,
    /// It needs this account's code, but carries none.
    Unauthorized(Account),
    /// It needs this account's code, but carries a different one, or several.
    WrongCode(Account),
}
