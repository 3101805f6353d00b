//! A reply, written to its end.
ghost use Rattle.pid_http_stream.specs.Handling.{MayReply};
ghost use Rattle.pid_file.specs.Writing.{use_of};
ghost use Rattle.pid_http_stream.specs.OneStream.{answering};
ghost use Rattle.pid_http_stream.specs.Replies.{answer_with, reply_bytes};
ghost use Rattle.pid_http_stream.specs.Steps.Loop.{SendStops, SendsReply, SendsText};

use crate::handler::{BodyStop, Handler, HttpReply, ReplyBody};
use crate::reply::write_reply;
use crate::reply_head::ReplyHead;
use pid_ident::Output;

// Writes a reply with these bytes.
fn send_bytes<W: Output>(
    head: ReplyHead,
    body: &[u8],
    closes: bool,
    out: &mut W,
) -> Result<(), BodyStop>
    ensures sent { SendsText result (W.taken out.old) (W.taken out.new)
        (reply_bytes (answer_with head.status head.content body.now) closes) }
    ensures stops { SendStops result (W.write_fault out.new) ⊥ }
{
    match write_reply(head, body.len() as u64, body, closes, out) {
        Ok(()) => Ok(()),
        Err(_) => Err(BodyStop::Writer),
    }
}

// Writes the head of a reply, and lets the handler write the body that it promised.
fn send_written<H: Handler, W: Output>(
    handler: &mut H,
    head: ReplyHead,
    content_length: u64,
    closes: bool,
    out: &mut W,
) -> Result<(), BodyStop>
    ensures { SendsReply (answering H.Handler)
        (λ a request v. (H.conduct).promises a request head content_length v) closes
        (use_of W.Output out.old out.new) handler.old handler.new result }
{
    let Ok(()) = write_reply(head, content_length, b"", closes, out) else {
        return Err(BodyStop::Writer);
    };
    match handler.write_body(out) {
        Ok(()) => Ok(()),
        Err(BodyStop::Writer) => Err(BodyStop::Writer),
        // A writer that has failed keeps its fault, and a write of nothing fails with it too.
        Err(BodyStop::Store) => match out.write(b"") {
            Ok(_) => Err(BodyStop::Store),
            Err(_) => Err(BodyStop::Writer),
        },
    }
}

/// Writes a reply, with a body that is there or that the handler writes.
pub(crate) fn send<H: Handler, W: Output>(
    handler: &mut H,
    reply: HttpReply,
    closes: bool,
    out: &mut W,
) -> Result<(), BodyStop>
    ensures { SendsReply (answering H.Handler)
        (λ a request v. MayReply H.conduct a request reply v) closes
        (use_of W.Output out.old out.new) handler.old handler.new result }
{
    let HttpReply { head, body } = reply;
    match body {
        ReplyBody::Bytes(bytes) => send_bytes(head, &bytes, closes, out),
        ReplyBody::Written(length) => send_written(handler, head, length, closes, out),
    }
}
