//! One request over its reader: the body is read, and the handler asked.
ghost use Rattle.std.specs.Prelude.{
  ◌≡◌,
  ℕ,
  ◌+◌,
  ◌≤◌,
  List,
  [],
  length,
  take,
  drop,
  min,
  Some,
};
ghost use Rattle.httparse.specs.Grammar.{RequestHead};
ghost use Rattle.pid_http_stream.specs.Steps.Bodies.{ReadsOut, ReadsWhole};
ghost use Rattle.pid_http_stream.specs.declared.limits.TheConstants.{LONGEST_BODY};
ghost use Rattle.pid_http_stream.specs.Handling.{IsHandled};
ghost use Rattle.pid_http_stream.specs.HeadParts.{IsHeadOf};
ghost use Rattle.pid_http_stream.specs.Leading.{Leads};
ghost use Rattle.pid_http_stream.specs.OneStream.{answering};
ghost use Rattle.pid_http_stream.specs.Requests.{Request};
ghost use Rattle.pid_http_stream.specs.Steps.Loop.{AsksOver, HeadStands, asked_so, attending};
ghost use Rattle.pid_http_stream.specs.Steps.Loop.{front_head};

use crate::body_input::{BodyFault, BodyInput};
use crate::handler::{Handler, HttpReply, NoReply, Wanted};
use crate::head::Head;
use crate::limits::READ_SIZE;
use pid_ident::{Incoming, Input, Output};
use std::alloc::Global;

/// What came of asking the handler.
#[derive(Drop)]
pub(crate) enum Asked {
    Reply(HttpReply),
    /// No reply: memory was refused.
    NoMemory,
    /// The body did not come whole.
    Broken(BodyFault),
}

// Reads a body to its end, of at most so many bytes.
fn read_into<B: Input>(
    body: &mut B,
    content_length: usize,
    bytes: &mut Vec<u8>,
) -> Result<(), NoReply>
    requires { bytes.old.items ≡ [] }
    ensures { ReadsWhole B.Input (λ _. bytes.new.items) body.old body.new result }
{
    let mut buffer = [0u8; READ_SIZE];
    for _ in 0..=content_length {
        let Ok(count) = body.read(&mut buffer) else {
            return Err(NoReply);
        };
        if count == 0 {
            return Ok(());
        }
        if bytes.extend_from_slice(&buffer[..count]).is_err() {
            return Err(NoReply);
        }
    }
    Err(NoReply)
}

// Reads a body whole, into memory of its own.
fn read_whole<B: Input>(
    alloc: Global,
    content_length: usize,
    body: &mut B,
) -> Result<Vec<u8>, NoReply>
    ensures { ReadsWhole B.Input (λ bytes. bytes.items) body.old body.new result }
{
    let Ok(mut bytes) = Vec::with_capacity(alloc, content_length) else {
        return Err(NoReply);
    };
    match read_into(body, content_length, &mut bytes) {
        Ok(()) => Ok(bytes),
        Err(end) => Err(end),
    }
}

// Has a request answered, its body as the handler wants it.
fn ask<H: Handler, B: Input>(
    alloc: Global,
    handler: &mut H,
    head: &Head<'_>,
    content_length: usize,
    body: &mut B,
) -> Result<HttpReply, NoReply>
    ensures body { ReadsOut B.Input body.old body.new result }
    ensures becomes { H.becomes handler.old handler.new }
    ensures answered { Leads H.is_good H.stands handler.old handler.new
        (λ v w. (request : Request) → IsHeadOf head.now request.head
        → B.to_come body.old ≡ Some request.body → length request.body ≤ LONGEST_BODY
        → IsHandled H.conduct v request result (B.to_come body.new) w) }
{
    match handler.question(head) {
        Err(end) => Err(end),
        Ok(Wanted::Buffered(question)) => match read_whole(alloc, content_length, body) {
            Err(end) => Err(end),
            Ok(bytes) => handler.answer(question, head, &bytes),
        },
        Ok(Wanted::Streamed(upload)) => handler.answer_streamed(upload, head, body),
    }
}

// What came of a body with its head: at most so many of the bytes after that.
fn came_with<'b>(head: &Head<'b>, content_length: usize) -> &'b [u8]
    ensures front { result.now ≡ take (min content_length
        (length (drop head.now.spans.len head.now.bytes.now)))
        (drop head.now.spans.len head.now.bytes.now) }
    ensures fits { length result.now ≤ content_length }
{
    let behind = &head.bytes[head.spans.len..];
    &behind[..content_length.min(behind.len())]
}

// What came of it: the body is whole if none of it is wanted any more.
fn asked_of(reply: Result<HttpReply, NoReply>, wanted: usize, fault: Option<BodyFault>) -> Asked
    ensures { result ≡ asked_so reply wanted fault }
{
    if wanted == 0 {
        match reply {
            Ok(reply) => Asked::Reply(reply),
            Err(_) => Asked::NoMemory,
        }
    } else {
        match fault {
            Some(fault) => Asked::Broken(fault),
            None => Asked::NoMemory,
        }
    }
}

/// Has a request answered whose head begins the bytes held, and whose body has so many bytes:
/// those that came with the head, and then those of the reader.
pub(crate) fn ask_over<H: Handler, I: Incoming<W>, W: Output>(
    alloc: Global,
    handler: &mut H,
    head: &Head<'_>,
    content_length: usize,
    input: &mut I,
    turns_left: &mut u64,
    output: &W,
) -> Asked
    requires { HeadStands head.now content_length }
    ensures { AsksOver (answering H.Handler) I.Incoming W.Output
        (front_head head.now content_length)
        (attending handler.old input.old output.now turns_left.old)
        (attending handler.new input.new output.now turns_left.new) result }
{
    let mut body = BodyInput {
        held: came_with(head, content_length),
        wanted: content_length,
        input,
        output,
        left: *turns_left,
        reads: 0,
        fault: None,
    };
    let reply = ask(alloc, handler, head, content_length, &mut body);
    *turns_left = body.left;
    asked_of(reply, body.wanted, body.fault)
}
