//! A registry over HTTP: each request of a stream is answered over the history that the registry
//! shows (RFC 9112, RFC 8259). `api` is what a request asks for, and the reply to each outcome.
#![tactic(auto)]

pub mod api;
mod dispatch;
mod handling;
mod importing;
pub mod laws;
mod stream;

pub use crate::api::Routes;
pub use laws::streams_send_their_commands;
pub use pid_http_stream::{Served, StreamEnd};
pub use pid_service_laws::RegistryQueries;
pub use stream::{serve_stream, serve_with};
