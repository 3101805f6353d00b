//! The head of a reply.
ghost use Rattle.std.specs.Prelude.{IsTrue};
ghost use Rattle.pid_http_stream.specs.HttpStatuses.{allows_body};

use http::StatusCode;

/// What a reply's body is. Only a reply that names the methods allowed has none.
#[derive(Clone, Copy)]
pub enum Content {
    Json,
    Text,
    Bytes,
    AllowGet,
    AllowPost,
    AllowBoth,
}

/// A reply without its body. Its status is none of those that never have a body: 1xx, 204 and 304
/// (RFC 9110, section 6.4.1).
#[derive(Clone, Copy)]
pub struct ReplyHead {
    pub status: StatusCode,
    pub content: Content,
    pub ghost bodied: { IsTrue (allows_body status) },
}
