//! What answers requests.
ghost use Rattle.std.specs.Prelude.{◌≡◌, ◌≤◌, ℕ, List, [], length, Some, Err, IfOk, IsSome};
ghost use Rattle.std.specs.Io.KnownBytes.{IsAtEnd};
ghost use Rattle.httparse.specs.Grammar.{RequestHead};
ghost use Rattle.pid_http_stream.specs.declared.limits.TheConstants.{LONGEST_BODY};
ghost use Rattle.pid_http_stream.specs.Handling.{MayReply, IsHandled, WritesBody};
ghost use Rattle.pid_http_stream.specs.HeadParts.{IsHeadOf};
ghost use Rattle.pid_http_stream.specs.Leading.{Leads};
ghost use Rattle.pid_http_stream.specs.Replies.{Answer};
ghost use Rattle.pid_http_stream.specs.Requests.{Request};

use crate::head::Head;
use crate::reply_head::ReplyHead;
use pid_ident::{Input, Output};

/// What a head asks for, as a handler understands it, by how it wants the body after the head.
#[derive(Drop)]
pub enum Wanted<Q, U> {
    /// Whole, in memory.
    Buffered(Q),
    /// As a reader of its own.
    Streamed(U),
}

/// The body of a reply.
#[derive(Drop)]
pub enum ReplyBody {
    /// These bytes.
    Bytes(Vec<u8>),
    /// So many bytes, which the handler writes itself.
    Written(u64),
}

/// A reply.
#[derive(Drop)]
pub struct HttpReply {
    pub head: ReplyHead,
    pub body: ReplyBody,
}

/// No reply was made: memory was refused, or the body of the request did not come whole.
#[derive(Clone, Copy)]
pub struct NoReply;

/// Why a handler did not write a body whole.
#[derive(Clone, Copy)]
pub enum BodyStop {
    /// The writer failed.
    Writer,
    /// The body could not be gone on with.
    Store,
}

/// What answers requests, one after another.
///
/// What it answers depends on what is known of it: of a registry the history that it shows. So each
/// clause says what is known of it then, by what was known of it before, while it is good: while
/// the disk under a registry returns what was written.
pub trait Handler {
    ghost use Rattle.std.specs.Prelude.{⊤};
    ghost use Rattle.httparse.specs.Grammar.{RequestHead};
    ghost use Rattle.pid_http_stream.specs.Conducts.{Conduct};
    ghost use Rattle.pid_http_stream.specs.Replies.{Answer, answer_after};
    ghost use Rattle.pid_http_stream.specs.Requests.{Request};
    ghost use Rattle.pid_http_stream.specs.declared.handler.Wanted.{Wanted};
    ghost use Rattle.pid_http_stream.specs.declared.reply_head.ReplyHead.{ReplyHead};

    /// What a head asks for that is answered once its body is in memory.
    type Question: Drop;

    /// What a head asks for that is answered while its body is read.
    type Upload: Drop;

    /// What may be known of it.
    ghost View: { Type 0 };

    /// This is known of it.
    ghost stands: { Self → View → Type 0 };

    /// So far it kept what it was given.
    ghost is_good: { Self → Type 0 };

    /// What calls, however many, may make of it whatever is known, such as that it is still over
    /// the same registry.
    ghost becomes: { Self → Self → Type 0 };

    /// How it may answer a request, what it may promise, and what is known of it afterwards.
    ghost conduct: { Conduct View };

    /// Which bytes it may write as the body that it promised, and what is known of it afterwards.
    ghost writes: { View → List ℕ → View → Type 0 };

    /// What it says of itself if it could not go on with a body that it was to write.
    ghost cannot_go_on: { Self → Type 0 } = { λ _. ⊤ };

    /// Which heads ask for this.
    ghost means: { Wanted Self.Question Self.Upload → RequestHead → Type 0 };

    /// What this head asks for; so it is asked then, by `answer` or by `answer_streamed`.
    fn question(&self, head: &Head<'_>) -> Result<Wanted<Self::Question, Self::Upload>, NoReply>
        ensures { IfOk result (λ wanted. (h : RequestHead) → IsHeadOf head.now h
            → means wanted h) };

    /// Answers a request.
    fn answer(
        &mut self,
        question: Self::Question,
        head: &Head<'_>,
        body: &[u8],
    ) -> Result<HttpReply, NoReply>
        ensures becomes { becomes self.old self.new }
        ensures answered { Leads is_good stands self.old self.new
            (λ v w. (request : Request) → IsHeadOf head.now request.head
            → means (Wanted.Buffered question) request.head → request.body ≡ body.now
            → IsHandled conduct v request result (Some []) w) };

    /// Answers a request whose body is still to be read, of at most `LONGEST_BODY` bytes. It is to
    /// read the body to its end before it replies; if the body fails, it gives the request up.
    fn answer_streamed<B: Input>(
        &mut self,
        upload: Self::Upload,
        head: &Head<'_>,
        body: &mut B,
    ) -> Result<HttpReply, NoReply>
        ensures goes { B.goes body.old body.new }
        ensures whole { IfOk result (λ _. IsAtEnd (B.to_come body.new)) }
        ensures becomes { becomes self.old self.new }
        ensures answered { Leads is_good stands self.old self.new
            (λ v w. (request : Request) → IsHeadOf head.now request.head
            → means (Wanted.Streamed upload) request.head
            → B.to_come body.old ≡ Some request.body → length request.body ≤ LONGEST_BODY
            → IsHandled conduct v request result (B.to_come body.new) w) };

    /// Writes the body that the last reply promised, or at a fault a prefix of it.
    fn write_body<W: Output>(&mut self, out: &mut W) -> Result<(), BodyStop>
        ensures becomes { becomes self.old self.new }
        ensures written { Leads is_good stands self.old self.new
            (λ v w. (body : List ℕ) × writes v body w
            × WritesBody result (W.taken out.old) (W.taken out.new) body) }
        ensures fault { result ≡ Err BodyStop.Writer → IsSome (W.write_fault out.new) }
        ensures store { result ≡ Err BodyStop.Store → cannot_go_on self.new };

    /// A body that was promised and written is that of an answer.
    ghost kept: { (a : View) (request : Request) (head : ReplyHead) (content_length : ℕ) (b : View)
        (body : List ℕ) (c : View) → conduct.promises a request head content_length b
        → writes b body c → conduct.answers a request (answer_after head content_length body) c };

    /// No call leaves it as it is.
    ghost stays: { (a : Self) → becomes a a };

    /// Some calls and then others are calls.
    ghost joins: { (a b c : Self) → becomes a b → becomes b c → becomes a c };
}
