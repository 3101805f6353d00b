//! What the bytes that came begin with.
ghost use Rattle.std.specs.Prelude.{
  ◌≡◌,
  ℕ,
  ◌≤◌,
  ◌<◌,
  false,
  List,
  length,
  take,
  drop,
  map,
  All,
};
ghost use Rattle.httparse.specs.Grammar.{HasNoRequest as HasNoHeadYet};
ghost use Rattle.httparse.specs.Spans.{header_bytes, IsRequestWithin, IsRequestOf};
ghost use Rattle.httparse.specs.declared.spans.HeaderSpan.{HeaderSpan as FieldSpan};
ghost use Rattle.pid_http_stream.specs.Steps.Intakes.{IsHeadJudged};
ghost use Rattle.pid_http_stream.specs.Steps.LineScans.{blank_after};
ghost use Rattle.pid_http_stream.specs.Unfinished.{CanBeHead};

use crate::body_length::{BodyLength, length_of};
use crate::limits::{LONGEST_HEAD, MOST_FIELDS};
use crate::refusal::StreamFault;
use httparse::Status;
use httparse::spans::{HeaderSpan, RequestSpans, parse_request};

/// A head that begins the bytes that came, and the length of the body after it.
#[derive(Clone, Copy)]
pub(crate) struct FoundHead {
    pub(crate) spans: RequestSpans,
    pub(crate) body: usize,
}

/// Whether there are line ends and nothing else, the last perhaps without its LF.
pub(crate) fn are_line_ends(bytes: &[u8]) -> bool
    ensures { result ≡ blank_after false bytes.now }
{
    let mut cr = false;
    for byte in bytes {
        if *byte == b'\n' {
            cr = false;
        } else if *byte == b'\r' && !cr {
            cr = true;
        } else {
            return false;
        }
    }
    true
}

// What a head that was found says of its body.
fn judge_length(
    held: &[u8],
    fields: &[HeaderSpan],
    spans: RequestSpans,
) -> Result<Option<FoundHead>, StreamFault>
    requires within { IsRequestWithin held.now fields.now spans }
    requires found { IsRequestOf held.now fields.now spans }
    requires short { spans.len ≤ LONGEST_HEAD }
    requires few { spans.headers ≤ MOST_FIELDS }
    ensures { IsHeadJudged held.now fields.now result }
{
    match length_of(held, &fields[..spans.headers]) {
        BodyLength::Encoded => Err(StreamFault::Encoding),
        BodyLength::Bad => Err(StreamFault::BadHead),
        BodyLength::TooLong => Err(StreamFault::BodyTooLong),
        BodyLength::Bytes(body) => Ok(Some(FoundHead { spans, body })),
    }
}

// Judges bytes in which no head has ended.
pub(crate) fn judge_unended(held: &[u8]) -> Result<Option<FoundHead>, StreamFault>
    requires none { HasNoHeadYet held.now }
    requires begins { CanBeHead held.now }
    ensures { (fields : List FieldSpan) → IsHeadJudged held.now fields result }
{
    if held.len() > LONGEST_HEAD {
        return Err(StreamFault::BadHead);
    }
    Ok(None)
}

/// The head that the bytes which came so far begin with; none if more bytes can make them one. The
/// spans of its fields go into `fields`.
pub(crate) fn judge(
    held: &[u8],
    fields: &mut [HeaderSpan; MOST_FIELDS],
) -> Result<Option<FoundHead>, StreamFault>
    ensures { IsHeadJudged held.now fields.new result }
{
    match parse_request(held, fields) {
        Ok(Status::Complete(spans)) => {
            if spans.len > LONGEST_HEAD {
                return Err(StreamFault::BadHead);
            }
            judge_length(held, fields, spans)
        }
        Ok(Status::Partial) => judge_unended(held),
        Err(_) => Err(StreamFault::BadHead),
    }
}
