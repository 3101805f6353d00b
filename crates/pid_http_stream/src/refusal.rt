//! What is refused in a stream of requests.
ghost use Rattle.std.specs.Prelude.{◌≡◌, IsTrue};

use http::StatusCode;

/// Why a stream is refused. Its reply has the number and the word of the fault.
#[derive(Clone, Copy, PartialEq, Eq)]
pub enum StreamFault {
    /// The bytes begin with no head, or with one that has too many fields or is too long, or whose
    /// Content-Length is no length.
    BadHead,
    /// The body is longer than a body may be.
    BodyTooLong,
    /// The body is sent in a transfer encoding.
    Encoding,
    /// The stream ends within the body.
    BodyShort,
}

impl StreamFault {
    ghost use Rattle.pid_http_stream.specs.StreamFaults.{fault_row};
    ghost use Rattle.pid_http_stream.specs.HttpStatuses.{allows_body};

    /// The status of the reply (RFC 9110, section 15).
    pub fn status(self) -> StatusCode
        ensures value { result ≡ (fault_row self).0 }
        ensures bodied { IsTrue (allows_body result) }
    {
        match self {
            StreamFault::BadHead | StreamFault::BodyShort => StatusCode::BAD_REQUEST,
            StreamFault::BodyTooLong => StatusCode::PAYLOAD_TOO_LARGE,
            StreamFault::Encoding => StatusCode::NOT_IMPLEMENTED,
        }
    }
}
