//! The head of a request, over the bytes that hold it.
ghost use Rattle.httparse.specs.Spans.{IsRequestWithin};

use httparse::spans::{HeaderSpan, RequestSpans};

/// The head of a request: where its parts are in some bytes.
#[derive(Clone, Copy)]
pub struct Head<'b> {
    /// The bytes, which begin with the head.
    pub bytes: &'b [u8],
    /// Where the fields are, the first `spans.headers` of these.
    pub fields: &'b [HeaderSpan],
    /// Where the other parts are.
    pub spans: RequestSpans,
    ghost within: { IsRequestWithin bytes.now fields.now spans },
}
