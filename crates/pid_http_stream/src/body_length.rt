//! The length of a request's body, as the fields of its head say it.
ghost use Rattle.std.specs.Prelude.{◌≡◌, ℕ, ◌≤◌, ◌<◌, length, map, All};
ghost use Rattle.httparse.specs.Spans.{header_bytes, IsHeaderWithin};
ghost use Rattle.pid_http_stream.specs.BodyLengths.{length_said, body_length};

use crate::fields::{count_named, first_named};
use crate::limits::LONGEST_BODY;
use httparse::spans::HeaderSpan;

/// What a head says of the body after it.
#[derive(Clone, Copy)]
pub enum BodyLength {
    /// It is sent in a transfer encoding.
    Encoded,
    /// Its length is given more than once, or is no number.
    Bad,
    /// It is longer than a body may be.
    TooLong,
    /// It has so many bytes.
    Bytes(usize),
}

// The length that the value of a Content-Length field says.
fn read_length(value: &[u8]) -> BodyLength
    ensures { result ≡ length_said value.now }
{
    if value.is_empty() {
        return BodyLength::Bad;
    }
    let mut length: usize = 0;
    for digit in value {
        if !digit.is_ascii_digit() {
            return BodyLength::Bad;
        }
        if length <= LONGEST_BODY {
            length = length * 10 + (*digit - b'0') as usize;
        }
    }
    if length <= LONGEST_BODY {
        BodyLength::Bytes(length)
    } else {
        BodyLength::TooLong
    }
}

/// What the fields of a head say of the body after it.
pub(crate) fn length_of(buf: &[u8], fields: &[HeaderSpan]) -> BodyLength
    requires { All (IsHeaderWithin (length buf.now)) fields.now }
    ensures { result ≡ body_length (map (header_bytes buf.now) fields.now) }
{
    if count_named(buf, fields, b"transfer-encoding") > 0 {
        return BodyLength::Encoded;
    }
    if count_named(buf, fields, b"content-length") > 1 {
        return BodyLength::Bad;
    }
    match first_named(buf, fields, b"content-length") {
        None => BodyLength::Bytes(0),
        Some(value) => read_length(value),
    }
}
