//! What a request asks for, answered by the registry.
ghost use Rattle.std.specs.Prelude.{◌≡◌, ℕ, List, Err};
ghost use Rattle.httparse.specs.Grammar.{RequestHead};
ghost use Rattle.pid_http_stream.specs.HeadParts.{IsHeadOf};
ghost use Rattle.pid_http_stream.specs.Requests.{fields_of};
ghost use Rattle.pid_http.specs.Api.Commands.{command_made};
ghost use Rattle.pid_http.specs.Api.Senders.{sender as sender_in, sending_in};
ghost use Rattle.pid_http.specs.Answering as meanings;
ghost use Rattle.pid_http.specs.Answering.{meaning_for, sent};
ghost use Rattle.pid_http.specs.Steps.Replying.{Replies};
ghost use Rattle.pid_http.specs.declared.api.question.Question.TheVariants as questions;

use crate::api::{
    Format, Pages, Question, Request, Sender, Whole, command_in, early_reply, found_reply,
    item_reply, list_reply, lookup_reply, missing_reply, outcome_reply, rank_reply, refusal_reply,
    sender_of, submission_reply,
};
use http::StatusCode;
use pid_http_stream::{Content, Head, HttpReply, ReplyBody, ReplyHead};
use pid_ident::{Account, Path};
use pid_lookup::Args;
use pid_moderation::{Refusal, Verb};
use pid_service_laws::RegistryQueries;
use std::alloc::{AllocError, Global};

/// The sender of a command. Of what is no command none is looked for.
pub(crate) fn sender_for<'b>(request: &Request, head: &Head<'b>) -> Option<Sender<'b>>
    ensures { (h : RequestHead) → IsHeadOf head.now h → (body : List ℕ)
        → meaning_for request.now (sending_in result) body
        ≡ meaning_for request.now (sender_in (fields_of h)) body }
{
    match *request {
        Request::Refused(_) => None,
        Request::Asks(_, _) => None,
        Request::Obeys(_, _) => sender_of(head),
    }
}

// The head of the reply with the text, which `write_body` writes after it.
fn export<R: RegistryQueries>(
    alloc: Global,
    registry: &mut R,
    format: Format,
) -> Result<HttpReply, AllocError>
    ensures { Replies R.RegistryCalls registry.old registry.new
        (meanings.Asks (questions.Whole Whole.Export) format) result }
{
    match registry.export_length() {
        Ok(length) => Ok(HttpReply {
            head: ReplyHead {
                status: StatusCode::OK,
                content: Content::Text,
            },
            body: ReplyBody::Written(length),
        }),
        Err(refusal) => refusal_reply(alloc, format, refusal),
    }
}

// The item at a path.
fn read<R: RegistryQueries>(
    alloc: Global,
    registry: &mut R,
    path: Path,
    format: Format,
) -> Result<HttpReply, AllocError>
    ensures { Replies R.RegistryCalls registry.old registry.new
        (meanings.Asks (questions.Read path) format) result }
{
    match registry.read(&path) {
        Ok(Some(name)) => item_reply(alloc, format, &path, &name),
        Ok(None) => missing_reply(alloc, format),
        Err(refusal) => refusal_reply(alloc, format, refusal),
    }
}

// The items below a path, or at the top.
fn children<R: RegistryQueries>(
    alloc: Global,
    registry: &mut R,
    above: Option<Path>,
    format: Format,
) -> Result<HttpReply, AllocError>
    ensures { Replies R.RegistryCalls registry.old registry.new
        (meanings.Asks (questions.Children above) format) result }
{
    match above {
        None => {}
        Some(path) => match registry.read(&path) {
            Ok(Some(_name)) => {}
            Ok(None) => return missing_reply(alloc, format),
            Err(refusal) => return refusal_reply(alloc, format, refusal),
        },
    }
    list_reply(alloc, format, registry.children(above))
}

// A look-up, which has no format.
fn lookup<R: RegistryQueries>(
    alloc: Global,
    registry: &mut R,
    flags: u32,
    args: Args,
    size: u32,
) -> Result<HttpReply, AllocError>
    ensures { (format : _) → Replies R.RegistryCalls registry.old registry.new
        (meanings.Asks (questions.Lookup flags args size) format) result }
{
    let found = registry.lookup(flags, &args, size);
    lookup_reply(alloc, found)
}

// The submission with a number.
fn submission<R: RegistryQueries>(
    alloc: Global,
    registry: &mut R,
    number: u32,
    format: Format,
) -> Result<HttpReply, AllocError>
    ensures { Replies R.RegistryCalls registry.old registry.new
        (meanings.Asks (questions.Submission number) format) result }
{
    match registry.submission(number) {
        Ok(discussion) => submission_reply(alloc, format, number, &discussion),
        Err(refusal) => refusal_reply(alloc, format, refusal),
    }
}

// The rank of an account.
fn rank<R: RegistryQueries>(
    alloc: Global,
    registry: &mut R,
    who: &Account,
    format: Format,
) -> Result<HttpReply, AllocError>
    ensures { Replies R.RegistryCalls registry.old registry.new
        (meanings.Asks (questions.Rank who.now) format) result }
{
    match registry.rank(who) {
        Ok(rank) => rank_reply(alloc, format, who, rank),
        Err(refusal) => refusal_reply(alloc, format, refusal),
    }
}

// Answers a question.
fn answer_question<R: RegistryQueries>(
    alloc: Global,
    registry: &mut R,
    question: &Question,
    format: Format,
) -> Result<HttpReply, AllocError>
    ensures { Replies R.RegistryCalls registry.old registry.new (meanings.Asks question.now format)
        result }
{
    match *question {
        Question::Whole(Whole::Export) => export(alloc, registry, format),
        Question::Whole(Whole::Status) => found_reply(alloc, format, registry.status()),
        Question::Read(path) => read(alloc, registry, path, format),
        Question::Children(above) => children(alloc, registry, above, format),
        Question::Lookup { flags, args, size } => lookup(alloc, registry, flags, args, size),
        Question::Submission(number) => submission(alloc, registry, number, format),
        Question::Remarks { number, after } => {
            found_reply(alloc, format, registry.remarks(number, after))
        }
        Question::Pages(Pages::Pending, after) => {
            list_reply(alloc, format, registry.pending(after))
        }
        Question::Pages(Pages::Queue, after) => list_reply(alloc, format, registry.queue(after)),
        Question::Changes { since, after } => {
            found_reply(alloc, format, registry.changes(since, after.as_ref()))
        }
        Question::Submissions {
            path,
            ref author,
            before,
        } => {
            let page = registry.submissions(path.as_ref(), author.as_ref(), before);
            found_reply(alloc, format, page)
        }
        Question::Rank(ref who) => rank(alloc, registry, who, format),
    }
}

// Has the command obeyed that a sender's form makes. The sender is judged before the form.
fn command<R: RegistryQueries>(
    alloc: Global,
    registry: &mut R,
    verb: Verb,
    format: Format,
    sender: Option<Sender<'_>>,
    body: &[u8],
) -> Result<HttpReply, AllocError>
    ensures { Replies R.RegistryCalls registry.old registry.new
        (sent format (λ s. command_made verb s body.now) (sending_in sender.entry)) result }
{
    match sender {
        None => refusal_reply(alloc, format, Refusal::BadText),
        Some(sender) => match command_in(alloc, verb, sender, body) {
            Err(refusal) => refusal_reply(alloc, format, refusal),
            Ok(command) => {
                let outcome = registry.obey(command);
                outcome_reply(alloc, format, outcome)
            }
        },
    }
}

/// Answers a request whose body is in memory.
pub(crate) fn answer<R: RegistryQueries>(
    alloc: Global,
    registry: &mut R,
    request: &Request,
    sender: Option<Sender<'_>>,
    body: &[u8],
) -> Result<HttpReply, AllocError>
    ensures { Replies R.RegistryCalls registry.old registry.new
        (meaning_for request.now (sending_in sender.entry) body.now) result }
{
    match *request {
        Request::Refused(early) => early_reply(alloc, early),
        Request::Asks(ref question, format) => answer_question(alloc, registry, question, format),
        Request::Obeys(verb, format) => command(alloc, registry, verb, format, sender, body),
    }
}
