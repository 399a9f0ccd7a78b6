//! The server: it services the connections of clients, over HTTP, and of orders that are handed over. All connections are
//! serviced concurrently, and their requests are processed one at a time.
//!
//! [`serve_connections`] accepts connections from a [`Network`](connections::Network), at most 512 at once. [`service`]
//! receives as much of a request as has arrived. Once the request is complete, it is processed in the one open office: a
//! client's request from its parsed head and the bytes received, an order from its message. So no connection waits for the
//! stream of another, and the office does one thing at a time.
//!
//! A keying passes from [`serve_recorded`] to the office through `serve_rounds`, `service_ready`, `service_one`, [`service`],
//! `answer_client`, `answer_request` and [`wire::handle_keying`]. `end_round` does the rest of a round. An order from the console
//! takes the same path; `answer_console` then carries it out like an order that is handed over, and its output is returned in one
//! response.
//!
//! [`serve_recorded`] also records each request that the office accepts, before it is acknowledged, through a
//! [`Recorder`](desk::Recorder). `specs/RecordChanges.antt` defines what is known of the record.
//!
//! Whenever more of a client's request has arrived, [`wire::parse`] parses its head, using routes that are built once. From the
//! result the server knows whether the request is complete, whose code it carries, whether it must wait, what it reads, and
//! what to ask the office. The cache of responses to reads is keyed by what is requested, not by the bytes of the request. A
//! cached response is reused until a keying or an order empties the cache. If the office has a gate, a request under a clerk's
//! number requires that clerk's code, and a request for the console requires the office's. Once 6,000 wrong codes have been
//! sent within a minute, the response to a wrong code is 429.
//!
//! `specs/Exchanges.antt` defines what is recorded about the requests, and `specs/ServedOrders.antt` what an order asks for and
//! what it prints; `specs/ConsoleOrders.antt` does the same for an order from the console. `specs/Reads.antt` defines the cache
//! and the rate limit, and `specs/Servicing.antt` what servicing a connection does. `specs/ServedConnections.antt` defines what
//! happened to each connection, and `specs/Servers.antt` what is promised about all of them. `specs/Blind.antt` states that
//! what a clerk is sent depends only on what that clerk sees.
//!
//! ```text
//! serve_connections(alloc, &mut network, server_settings, connections, &mut office)?    // or why it ended early (`ServeError`)
//! ```
#![tactic(auto)]

// orders: what they ask for, and their responses
mod console_order;
mod frame_sink;
mod order_arrival;
mod order_response;
mod read_cache;
pub mod served_file;
mod served_order;
pub mod server_settings;
mod server_state;
// one connection
pub mod servicing;
// all connections
pub mod serve_error;
mod serving;
// what a clerk is sent
mod blind;

pub use blind::{
    clerks_are_answered_as_seen, recorded_servers_answer_as_seen, servers_answer_as_seen,
};
pub use serve_error::ServeError;
pub use served_file::{Destination, ServedFile};
pub use server_settings::{FileNumbers, ServerSettings};
pub use servicing::{Serviced, service};
pub use serving::{serve_connections, serve_recorded};
