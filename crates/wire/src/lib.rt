//! Keying and reading over HTTP, one request per connection.
//!
//! Eight routes are served: `POST /clerks/{c}/batches/{b}/keying`, `GET /clerks/{c}/work`, `GET /wards/{w}/sheet` and
//! `GET /wards/{w}/result`; and, if there are codes, also `GET /clerks/{c}/`, `GET /clerks/{c}/leave`,
//! `GET /clerks/{c}/batches/{b}/candidates` and `GET /clerks/{c}/batches/{b}/keyed`. [`Routes`] holds these eight; a server
//! builds it once. If the office has a code, `GET /office/`, `GET /office/leave`, `POST /office/orders` and the reads of the
//! console, [`OfficeRead`], are served too. If anything is shown in public, so are `GET /`, `GET /screen`, `GET /screen/wards`
//! and `GET /wards/{w}/page`; see [`PublicTarget`].
//!
//! [`parse`] parses the head of a request once. The result, [`Parsed`], says whether more bytes are needed ([`Completeness`])
//! and whose code the request needs ([`Authentication`]). Given the bytes, it also says what is requested ([`HttpRequest`]), or
//! why the request is rejected before the office is asked ([`RequestError`]). [`respond`] asks the office and writes the
//! response. A server that has a keying hands it to [`handle_keying`] and writes the response with [`write_response`]; it learns
//! which request was accepted, if any. It carries out an order of the console itself ([`ConsoleOrder`]) and responds with
//! `Response::of_order`. [`serve_one`] serves one connection from any reader; it reads the request ([`read_request`]) through
//! the same `Head`.
//!
//! [`HttpSettings`] are the HTTP settings: the [`Origin`] of pages that come through a proxy, the [`Gate`], and what is shown
//! in public ([`Public`]), if any. [`without_settings`] serves a connection without any of them. A request is rejected if a
//! header shows that a page from another site sent it. At a gate, everything under a clerk's number requires that clerk's code,
//! and everything under `/office/` requires the office's. [`write_wait_response`] writes the response to a rate-limited client.
//!
//! `specs/Requests.antt` defines what a client's bytes ask for, `specs/Completeness.antt` when the request is complete, and
//! `specs/Parsing.antt` what a parsed head says about it. `specs/Gates.antt` defines authentication, and `specs/Origins.antt`
//! which headers show that a page from another site sent the request. `specs/Targets.antt`, `specs/OfficeTargets.antt` and
//! `specs/PublicTargets.antt` define what a target names, and `specs/Responses.antt` the bytes of a response.
//! `specs/Serving.antt` defines the response in each state of the office, and what each outcome of a connection leaves;
//! `specs/OfficeReplies.antt` the JSON of the console's reads, and `specs/PublicReplies.antt` what is shown in public.
//!
//! ```text
//! let parsed = parse(settings, &routes, got);
//! match parsed.completeness_of(got.len()) {
//!     Completeness::AtLeast(wanted) => ..,     // more bytes are needed
//!     Completeness::Complete => respond(alloc, parsed.asked(alloc, settings, got)?, &mut writer, &mut office),
//! }
//! ```
#![tactic(auto)]

pub mod account;
pub mod request_error;
// requests: the head, what its target names, and the body
mod authentication;
mod body;
mod completeness;
pub mod console_order;
mod digits;
mod head;
mod length;
mod office_read;
mod origin;
pub mod parsed;
pub mod public_target;
mod read_failure;
pub mod request;
pub mod settings;
pub mod target;
pub mod without_settings;
// responses
mod bodies;
mod candidates;
mod earlier_keying;
mod office_responses;
mod public;
mod read_responses;
mod response;
mod work;
// one connection
mod answering;
mod serving;

pub use account::Account;
pub use answering::{HandledKeying, answer_keying, handle_keying};
pub use authentication::Authentication;
pub use completeness::Completeness;
pub use console_order::{ConsoleFile, ConsoleOrder};
pub use head::MAX_HEAD_BYTES;
pub use office_read::OfficeRead;
pub use origins::Origin;
pub use parsed::{Head, Parsed, parse};
pub use public::unsealed_wards_show_nothing;
pub use public_target::PublicTarget;
pub use read_failure::ReadFailure;
pub use request::{HttpRequest, Keying, read_request};
pub use request_error::{RequestError, Verb};
pub use response::Response;
pub use serving::{
    Served, respond, serve_one, write_gone_response, write_no_memory_response, write_response,
    write_unrecorded_response, write_wait_response,
};
pub use settings::{FixedPage, Gate, HttpSettings, Page, Public};
pub use target::{Resource, Routes};
/// The original name of [`without_settings`].
pub use without_settings as plain;
