//! Whether a request asks that the connection be closed after its reply.
ghost use Rattle.std.specs.Prelude.{
  ◌≡◌,
  ℕ,
  ◌+◌,
  ◌<◌,
  ◌≤◌,
  List,
  All,
  length,
  map,
  reverse,
};
ghost use Rattle.httparse.specs.Grammar.{skip_ows};
ghost use Rattle.httparse.specs.Spans.{header_bytes, IsHeaderWithin};
ghost use Rattle.pid_http_stream.specs.Connections.{
  is_close as is_close_word,
  has_close,
  asks_to_close as asks,
};

use crate::fields::is_field;
use httparse::is_space_or_tab;
use httparse::spans::HeaderSpan;

// The bytes from the first that is no blank.
fn trim_start(word: &[u8]) -> &[u8]
    ensures { result.now ≡ skip_ows word.now }
{
    for (i, byte) in word.iter().enumerate() {
        if !is_space_or_tab(*byte) {
            return &word[i..];
        }
    }
    &word[word.len()..]
}

// The bytes up to the last that is no blank.
fn trim_end(word: &[u8]) -> &[u8]
    ensures { reverse result.now ≡ skip_ows (reverse word.now) }
{
    let mut end = 0;
    for (i, byte) in word.iter().enumerate() {
        if !is_space_or_tab(*byte) {
            end = i + 1;
        }
    }
    &word[..end]
}

// Whether the word is close, in any case, with blanks around it.
fn is_close(word: &[u8]) -> bool
    ensures { result ≡ is_close_word word.now }
{
    trim_end(trim_start(word)).eq_ignore_ascii_case(b"close")
}

// Whether one of the words between the commas is close.
fn names_close(value: &[u8]) -> bool
    ensures { result ≡ has_close value.now }
{
    let mut start = 0;
    for (i, byte) in value.iter().enumerate() {
        if *byte == b',' {
            if is_close(&value[start..i]) {
                return true;
            }
            start = i + 1;
        }
    }
    is_close(&value[start..])
}

/// Whether a head of this minor version with these fields asks for it.
pub(crate) fn asks_to_close(buf: &[u8], fields: &[HeaderSpan], minor: u8) -> bool
    requires { All (IsHeaderWithin (length buf.now)) fields.now }
    ensures { result ≡ asks minor (map (header_bytes buf.now) fields.now) }
{
    if minor == 0 {
        return true;
    }
    for field in fields {
        if is_field(buf, field, b"connection") && names_close(field.value.of(buf)) {
            return true;
        }
    }
    false
}
