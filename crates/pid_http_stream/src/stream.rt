//! A stream of requests, answered one after another.
ghost use Rattle.std.specs.Prelude.{
  ◌≡◌,
  None,
  ℕ,
  ◌+◌,
  ◌-◌,
  ◌*◌,
  ◌^◌,
  ◌<◌,
  ◌≤◌,
  List,
  [],
  length,
  drop,
};
ghost use Rattle.pid_file.specs.Writing.{use_of};
ghost use Rattle.pid_http_stream.specs.OneStream.{ServesStream, answering};
ghost use Rattle.pid_http_stream.specs.Steps.Loop.{BreaksOff, HeadStands, EndsRefused, ServesRequest};
ghost use Rattle.pid_http_stream.specs.Steps.Loop.{answered_so, attending, count_with, stop_end};

use crate::body_input::BodyFault;
use crate::handler::{BodyStop, Handler};
use crate::head::Head;
use crate::intake::{HeadRead, Stop, read_head};
use crate::judging::FoundHead;
use crate::limits::MOST_FIELDS;
use crate::one_request::{Asked, ask_over};
use crate::refusal::StreamFault;
use crate::reply::{fault_text, write_reply};
use crate::reply_head::{Content, ReplyHead};
use crate::sending::send;
use httparse::spans::EMPTY_HEADER_SPAN;
use pid_ident::{Incoming, Output};
use std::alloc::Global;

/// How the serving of a stream ended.
#[derive(Clone, Copy, PartialEq, Eq)]
pub enum StreamEnd {
    /// The stream ended after its last request.
    Clean,
    /// The last request asked for it.
    Closed,
    /// What came is refused for this; the refusal was written.
    Refused(StreamFault),
    /// The reader failed.
    ReadFault,
    /// The writer failed, or took no byte; a prefix of the next reply was written.
    WriteFault,
    /// The handler could not go on with a body that it wrote itself, and the writer is good; the
    /// head of the reply was written, and a prefix of the body.
    StoreFault,
    /// Memory was refused; the reader has not failed meanwhile, and nothing that came is refused.
    Memory,
    /// All reads were made that might be.
    TurnsSpent,
}

/// How many replies were written whole, and how it ended.
#[derive(Clone, Copy, PartialEq, Eq)]
pub struct Served {
    /// The count, up to the greatest of its type, with the refusal that ends a stream.
    pub answered: u64,
    pub end: StreamEnd,
}

// Drops the first bytes, so many, or all if there are fewer.
fn drop_front(held: &mut Vec<u8>, count: usize)
    ensures { held.new.items ≡ drop count held.old.items }
{
    let count = count.min(held.len());
    held.drain(..count);
}

// Writes a refusal.
fn refuse<W: Output>(fault: StreamFault, out: &mut W) -> StreamEnd
    ensures { EndsRefused fault (use_of W.Output out.old out.new) result }
{
    let head = ReplyHead {
        status: fault.status(),
        content: Content::Json,
    };
    let body = fault_text(fault);
    match write_reply(head, body.len() as u64, body, true, out) {
        Ok(()) => StreamEnd::Refused(fault),
        Err(_) => StreamEnd::WriteFault,
    }
}

// Ends a stream whose body broke off; only a short body is reported.
fn end_broken<W: Output>(fault: BodyFault, out: &mut W) -> StreamEnd
    ensures { BreaksOff fault (use_of W.Output out.old out.new) result }
{
    match fault {
        BodyFault::Short => refuse(StreamFault::BodyShort, out),
        BodyFault::ReadFault => StreamEnd::ReadFault,
        BodyFault::TurnsSpent => StreamEnd::TurnsSpent,
    }
}

// Whether the stream goes on after a request whose reply was sent so far.
fn answered_by(sent: Result<(), BodyStop>, closes: bool) -> Result<(), StreamEnd>
    ensures { result ≡ answered_so sent closes }
{
    match sent {
        Ok(()) => {
            if closes {
                Err(StreamEnd::Closed)
            } else {
                Ok(())
            }
        }
        Err(BodyStop::Writer) => Err(StreamEnd::WriteFault),
        Err(BodyStop::Store) => Err(StreamEnd::StoreFault),
    }
}

// Serves the request whose head begins the bytes held, and whose body has so many bytes. It ends
// the stream, or the stream goes on.
fn serve_request<H: Handler, I: Incoming<W>, W: Output>(
    alloc: Global,
    handler: &mut H,
    head: &Head<'_>,
    content_length: usize,
    input: &mut I,
    turns_left: &mut u64,
    out: &mut W,
) -> Result<(), StreamEnd>
    requires { HeadStands head.now content_length }
    ensures { ServesRequest (answering H.Handler) I.Incoming W.Output head.now content_length
        (attending handler.old input.old out.old turns_left.old)
        (attending handler.new input.new out.new turns_left.new) result }
{
    match ask_over(alloc, handler, head, content_length, input, turns_left, out) {
        Asked::Reply(reply) => {
            let closes = head.closes();
            answered_by(send(handler, reply, closes, out), closes)
        }
        Asked::NoMemory => Err(StreamEnd::Memory),
        Asked::Broken(fault) => Err(end_broken(fault, out)),
    }
}

fn end_of(stop: Stop) -> StreamEnd
    ensures { result ≡ stop_end stop }
{
    match stop {
        Stop::ReadFault => StreamEnd::ReadFault,
        Stop::TurnsSpent => StreamEnd::TurnsSpent,
        Stop::Memory => StreamEnd::Memory,
    }
}

// How many replies were written, with the one that ends the stream.
fn with_last(answered: u64, end: StreamEnd) -> u64
    ensures { result ≡ count_with end answered }
{
    match end {
        StreamEnd::Closed | StreamEnd::Refused(_) => answered.saturating_add(1),
        StreamEnd::Clean
        | StreamEnd::ReadFault
        | StreamEnd::WriteFault
        | StreamEnd::StoreFault
        | StreamEnd::Memory
        | StreamEnd::TurnsSpent => answered,
    }
}

// Answers the requests of a stream, which is held here as far as it has come.
fn serve_held<H: Handler, I: Incoming<W>, W: Output>(
    alloc: Global,
    handler: &mut H,
    input: &mut I,
    output: &mut W,
    turns: u64,
    held: &mut Vec<u8>,
) -> Served
    requires { held.old.items ≡ [] }
    ensures { ServesStream (answering H.Handler) I.Incoming W.Output (handler.old, handler.new)
        (input.old, input.new) (output.old, output.new) turns result }
{
    let mut fields = [EMPTY_HEADER_SPAN; MOST_FIELDS];
    let mut turns_left = turns;
    let mut answered: u64 = 0;
    'serving: loop {
        match read_head(held, &mut turns_left, input, output, &mut fields) {
            HeadRead::Nothing => return Served {
                answered,
                end: StreamEnd::Clean,
            },
            HeadRead::Faulty(fault) => {
                let end = refuse(fault, output);
                let answered = with_last(answered, end);
                return Served { answered, end };
            }
            HeadRead::Stopped(stop) => {
                let end = end_of(stop);
                return Served { answered, end };
            }
            HeadRead::Head(FoundHead { spans, body }) => {
                let head = Head {
                    bytes: held,
                    fields: &fields,
                    spans,
                };
                match serve_request(alloc, handler, &head, body, input, &mut turns_left, output) {
                    Ok(()) => {
                        answered = answered.saturating_add(1);
                        drop_front(held, spans.len + body);
                    }
                    Err(end) => {
                        let answered = with_last(answered, end);
                        return Served { answered, end };
                    }
                }
            }
        }
    }
}

/// Answers the requests of a stream, one after another, in at most so many reads.
///
/// Whenever it reads, the requests that came whole are answered, the writer has taken their
/// replies, and nothing that is refused follows them. If the writer takes all, the reader does not
/// fail, and neither memory, turns nor the store do, the bytes written are the replies to the
/// requests of the whole stream, in their order, in whatever chunks the bytes come; then the one
/// refusal, if the stream ends with a fault.
///
/// There are no more reads than bytes that came, but for a last one that finds the end or fails. Of
/// a reader that keeps account of them, each brings a byte or more, but for that one. A stream that
/// ends as `Closed`, `StoreFault`, `Memory` or `TurnsSpent` has no such last read.
pub fn serve_stream<H: Handler, I: Incoming<W>, W: Output>(
    alloc: Global,
    handler: &mut H,
    input: &mut I,
    output: &mut W,
    turns: u64,
) -> Served
    ensures { ServesStream (answering H.Handler) I.Incoming W.Output (handler.old, handler.new)
        (input.old, input.new) (output.old, output.new) turns result }
{
    let mut held = Vec::new(alloc);
    serve_held(alloc, handler, input, output, turns, &mut held)
}
