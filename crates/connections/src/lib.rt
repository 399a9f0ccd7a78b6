//! Connections whose streams are read and written concurrently, without blocking.
//!
//! A [`Stream`](stream) carries the bytes of one connection, in both directions. A [`Client`](client) is an open connection:
//! what has been received of its request, and how much of its response has been sent. The [`ConnectionTable`](connection_table)
//! holds the open connections, and knows which one has been waiting longest; [`closing`](closing) has the rules for closing
//! them early. A [`Network`](network) accepts connections, and reports which ones are ready. Nothing here knows about sockets,
//! clocks or the office: the crates above decide when a request is complete, and what the response is. They read the request
//! through a [`SliceSource`](slice_source), and write the response to a [`VecSink`](vec_sink).
#![tactic(auto)]

pub mod client;
pub mod closing;
pub mod connection_table;
pub mod network;
pub mod removed;
pub mod slice_source;
pub mod stream;
pub mod vec_sink;

pub use client::{
    Accepted, Client, Listener, PendingResponse, ReadProgress, ReceiveError, deliver,
};
pub use connection_table::{ConnectionTable, MAX_BUFFERED_BYTES, MAX_CLIENTS};
pub use network::{AcceptOutcome, Network};
pub use removed::{CloseReason, Removed};
pub use slice_source::SliceSource;
pub use stream::{Received, Stream};
pub use vec_sink::VecSink;
