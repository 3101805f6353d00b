//! A stream of HTTP requests, answered one after another by any handler (RFC 9112, message framing
//! by Content-Length).
//!
//! `serve_stream` reads heads by `httparse`, judges them, hands each request to a `Handler` and
//! writes its reply before it reads on. It holds one buffer for the head and one for the body,
//! whatever a client sends: a head has at most 16,384 bytes and 32 fields, a body at most 4,194,304
//! bytes. A body that the handler wants as a stream is not held at all, and neither is the body of
//! a reply that the handler writes itself. `listener` accepts connections and hands their streams
//! to a server, one after the other.
#![tactic(auto)]

mod body_input;
mod body_length;
mod connection;
mod fields;
mod handler;
mod head;
mod head_parts;
mod intake;
mod judging;
pub mod laws;
mod limits;
pub mod listener;
mod one_request;
mod refusal;
mod reply;
mod reply_head;
mod sending;
mod stream;
mod turn;

pub use fields::{count_named, first_named};
pub use handler::{BodyStop, Handler, HttpReply, NoReply, ReplyBody, Wanted};
pub use head::Head;
pub use limits::LONGEST_BODY;
pub use pid_ident::Incoming;
pub use refusal::StreamFault;
pub use reply_head::{Content, ReplyHead};
pub use stream::{Served, StreamEnd, serve_stream};
