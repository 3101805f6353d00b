//! A handler with few paths.
ghost use Rattle.std.specs.Prelude.{◌≡◌, Err, IsSome, IsTrue};
ghost use Rattle.pid_http_stream.specs.Handling.{WritesBody};
ghost use Rattle.pid_http_stream.specs.HttpStatuses.{allows_body};

use http::StatusCode;
use pid_doubles::{FaultyInput, FaultyOutput};
use pid_http_stream::{
    BodyStop, Content, Handler, Head, HttpReply, LONGEST_BODY, NoReply, ReplyBody, ReplyHead,
    Served, Wanted, serve_stream,
};
use pid_ident::{Input, Output, write_all};
use pid_reader::skip_input;
use std::alloc::Global;

/// Drops the body of `/import`, writes that of `/pci.ids` itself, and knows no other path.
#[derive(Drop)]
pub struct Desk {
    pub alloc: Global,
    /// Whether the body of `/pci.ids` can't be gone on with.
    pub store_fails: bool,
}

fn reply(
    alloc: Global,
    status: StatusCode,
    content: Content,
    body: &[u8],
) -> Result<HttpReply, NoReply>
    requires { IsTrue (allows_body status) }
{
    match Vec::from_slice(alloc, body) {
        Err(_) => Err(NoReply),
        Ok(body) => Ok(HttpReply {
            head: ReplyHead { status, content },
            body: ReplyBody::Bytes(body),
        }),
    }
}

// Writes the text, and then perhaps stops.
fn write_text<W: Output>(text: &[u8], stops: bool, out: &mut W) -> Result<(), BodyStop>
    ensures written { WritesBody result (W.taken out.old) (W.taken out.new) text.now }
    ensures fault { result ≡ Err BodyStop.Writer → IsSome (W.write_fault out.new) }
{
    match write_all(out, text) {
        Err(_) => Err(BodyStop::Writer),
        Ok(()) => { if stops { Err(BodyStop::Store) } else { Ok(()) } }
    }
}

/// What is answered with its body in memory.
#[derive(Clone, Copy, Debug)]
pub enum Page {
    Text,
    Unknown,
}

/// The path whose bodies are dropped.
#[derive(Clone, Copy, Debug)]
pub struct Drain;

impl Handler for Desk {
    type Question = Page;

    type Upload = Drain;

    ghost use Rattle.std.specs.Prelude.{⊤};
    ghost use Rattle.pid_http_stream.specs.Conducts.{Conduct};

    ghost View = { Unit {0} };

    ghost stands = { λ a v. ⊤ };

    ghost is_good = { λ a. ⊤ };

    ghost becomes = { λ a b. ⊤ };

    ghost stays = { λ a. tt };

    ghost joins = { λ a b c p q. tt };

    ghost conduct = { record {
      answers = λ a request answer b. ⊤;
      leaves = λ a request b. ⊤;
      gives_up = λ a head b. ⊤;
      promises = λ a request head told b. ⊤;
    } };

    ghost writes = { λ a body b. ⊤ };

    ghost kept = { λ a request head told b body c promised written. tt };

    ghost means = { λ wanted head. ⊤ };

    fn question(&self, head: &Head<'_>) -> Result<Wanted<Page, Drain>, NoReply> {
        let target = head.target();
        if target == b"/import".as_slice() {
            Ok(Wanted::Streamed(Drain))
        } else if target == b"/pci.ids".as_slice() {
            Ok(Wanted::Buffered(Page::Text))
        } else {
            Ok(Wanted::Buffered(Page::Unknown))
        }
    }

    fn answer(&mut self, page: Page, _head: &Head<'_>, _body: &[u8]) -> Result<HttpReply, NoReply> {
        match page {
            Page::Text => Ok(HttpReply {
                head: ReplyHead {
                    status: StatusCode::OK,
                    content: Content::Text,
                },
                body: ReplyBody::Written(8),
            }),
            Page::Unknown => {
                let body = br#"{"ok":false,"refused":24,"word":"NoRoute"}"#;
                reply(self.alloc, StatusCode::NOT_FOUND, Content::Json, body)
            }
        }
    }

    fn answer_streamed<B: Input>(
        &mut self,
        _drain: Drain,
        _head: &Head<'_>,
        body: &mut B,
    ) -> Result<HttpReply, NoReply> {
        match skip_input(LONGEST_BODY, body) {
            Ok(()) => reply(self.alloc, StatusCode::OK, Content::Text, b"taken\n"),
            Err(_) => Err(NoReply),
        }
    }

    fn write_body<W: Output>(&mut self, out: &mut W) -> Result<(), BodyStop> {
        let text = if self.store_fails {
            b"8086".as_slice()
        } else {
            b"8086  I\n".as_slice()
        };
        write_text(text, self.store_fails, out)
    }
}

/// What was written for a stream, and how it ended.
#[derive(Drop)]
pub struct Outcome {
    pub written: Vec<u8>,
    pub served: Served,
}

/// Serves the stream, which comes in reads of at most so many bytes, in at most so many turns.
pub fn serve(alloc: Global, stream: &[u8], most: usize, turns: u64, store_fails: bool) -> Outcome {
    let mut desk = Desk { alloc, store_fails };
    let mut input = FaultyInput::new(stream, most);
    let mut output = FaultyOutput::new(alloc, 7);
    let served = serve_stream(alloc, &mut desk, &mut input, &mut output, turns);
    Outcome {
        written: output.taken,
        served,
    }
}
