//! Connections of a listener, one served after the other.
//!
//! `serve_on` accepts a connection, hands its bytes to a `StreamServer`, and closes it so that its
//! client loses no reply (tested, no clause says it). What comes is read ahead, at most 8 KiB, and
//! replies are held back until they are asked for, at most 64 KiB: each is out before the next
//! read.

mod closing;
mod connection;
mod connection_io;
mod server;
mod serving;

pub use server::StreamServer;
pub use serving::{Serving, ServingEnd, serve_on};
