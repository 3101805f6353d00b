//! The bytes of a reply.
ghost use Rattle.std.specs.Prelude.{◌≡◌, ◌++◌, [], codes, unwrap_or};
ghost use Rattle.http.specs.StatusCode.{reason_phrase};
ghost use Rattle.pid_file.specs.Writing.{use_of};
ghost use Rattle.pid_http_stream.specs.Replies.{
  type_line as line_of_type,
  allow_line as line_of_allow,
  close_line as line_of_close,
  reply_bytes,
  answer_after,
};
ghost use Rattle.pid_http_stream.specs.Steps.Loop.{SendsAll};
ghost use Rattle.pid_http_stream.specs.StreamFaults.{fault_text as text_of_fault};

use crate::refusal::StreamFault;
use crate::reply_head::{Content, ReplyHead};
use http::StatusCode;
use itoa::Buffer;
use pid_ident::{Output, WriteFault, write_parts};

// The phrase of a status; none if it has none.
fn phrase_of(status: StatusCode) -> &'static [u8]
    ensures { result.now ≡ unwrap_or (reason_phrase status) [] }
{
    match status.canonical_reason() {
        Some(phrase) => phrase.as_bytes(),
        None => b"",
    }
}

fn type_line(content: Content) -> &'static [u8]
    ensures { result.now ≡ line_of_type content }
{
    match content {
        Content::Json => b"Content-Type: application/json\r\n",
        Content::Text => b"Content-Type: text/plain; charset=utf-8\r\n",
        Content::Bytes => b"Content-Type: text/plain\r\n",
        Content::AllowGet | Content::AllowPost | Content::AllowBoth => b"",
    }
}

fn allow_line(content: Content) -> &'static [u8]
    ensures { result.now ≡ line_of_allow content }
{
    match content {
        Content::Json | Content::Text | Content::Bytes => b"",
        Content::AllowGet => b"Allow: GET\r\n",
        Content::AllowPost => b"Allow: POST\r\n",
        Content::AllowBoth => b"Allow: GET, POST\r\n",
    }
}

fn close_line(closes: bool) -> &'static [u8]
    ensures { result.now ≡ line_of_close closes }
{
    if closes {
        b"Connection: close\r\n"
    } else {
        b""
    }
}

fn write_lines<'x, W: Output>(
    out: &mut W,
    status: &'x [u8],
    phrase: &'x [u8],
    content: &'x [u8],
    length: &'x [u8],
    allow: &'x [u8],
    close: &'x [u8],
    body: &'x [u8],
) -> Result<(), WriteFault>
    ensures { SendsAll (use_of W.Output out.old out.new)
        (codes "HTTP/1.1 " ++ status.now ++ codes " " ++ phrase.now ++ codes "\r\n"
        ++ content.now ++ codes "Content-Length: " ++ length.now ++ codes "\r\n"
        ++ allow.now ++ close.now ++ codes "\r\n" ++ body.now) result }
{
    write_parts(
        out,
        &[
            b"HTTP/1.1 ",
            status,
            b" ",
            phrase,
            b"\r\n",
            content,
            b"Content-Length: ",
            length,
            b"\r\n",
            allow,
            close,
            b"\r\n",
            body,
        ],
    )
}

/// Writes the head of a reply whose body has so many bytes, and then the bytes.
pub(crate) fn write_reply<W: Output>(
    head: ReplyHead,
    content_length: u64,
    body: &[u8],
    closes: bool,
    out: &mut W,
) -> Result<(), WriteFault>
    ensures { SendsAll (use_of W.Output out.old out.new)
        (reply_bytes (answer_after head content_length body.now) closes) result }
{
    let mut digits = Buffer::new();
    let length = digits.format(content_length).as_bytes();
    let status = head.status.as_str().as_bytes();
    let phrase = phrase_of(head.status);
    let content = type_line(head.content);
    let allow = allow_line(head.content);
    let close = close_line(closes);
    write_lines(out, status, phrase, content, length, allow, close, body)
}

/// The body of the reply to a fault: the compact JSON of its refusal, as `serde_json` writes it. It
/// takes no memory, so that each fault is replied to.
pub(crate) fn fault_text(fault: StreamFault) -> &'static [u8]
    ensures { result.now ≡ text_of_fault fault }
{
    match fault {
        StreamFault::BadHead => br#"{"ok":false,"refused":20,"word":"BadHead"}"#,
        StreamFault::Encoding => br#"{"ok":false,"refused":22,"word":"Encoding"}"#,
        StreamFault::BodyTooLong => br#"{"ok":false,"refused":21,"word":"BodyTooLong"}"#,
        StreamFault::BodyShort => br#"{"ok":false,"refused":23,"word":"BodyShort"}"#,
    }
}
