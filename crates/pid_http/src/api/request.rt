//! What a method and a target ask for.
ghost use Rattle.std.specs.Prelude.{◌≡◌, true, false, IfOk, MatchOption};
ghost use Rattle.form_urlencoded.specs.Form.{split_once as split_bytes};
ghost use Rattle.pid_http.specs.Api.Questions.{asked_by, get_asked, is_target, post_asked};
ghost use Rattle.pid_http.specs.Api.Questions.{question, target_asked};
ghost use Rattle.pid_http.specs.Api.Steps.Inserting.{row_of};
ghost use Rattle.pid_http.specs.Api.Steps.Making.{MakesSaid};

use crate::api::early::{RefusedEarly, Unasked};
use crate::api::field_values::format_of;
use crate::api::format::Format;
use crate::api::question::{Question, ask_topic};
use crate::api::route_table::{Payload, Route};
use crate::api::router::Routes;
use crate::api::text::text_of;
use pid_form::fields_of;
use pid_http_stream::Wanted;
use pid_moderation::Verb;
use std::alloc::{AllocError, Global};

/// What a request whose body is held in memory asks for by its method and its target.
#[derive(Drop)]
pub enum Request {
    /// Nothing: it is refused before the registry is asked.
    Refused(RefusedEarly),
    /// An answer, in a format.
    Asks(Question, Format),
    /// That a command is obeyed, whose fields are the body, with the reply in a format.
    Obeys(Verb, Format),
}

// The path and the query of a target.
fn split_target(target: &str) -> (&str, &str)
    ensures path { result.0.now ≡ (split_bytes 63 target.now).0 }
    ensures query { result.1.now ≡ (split_bytes 63 target.now).1 }
{
    match target.split_once('?') {
        Some((path, query)) => (path, query),
        None => (target, ""),
    }
}

// The target as text, if it begins with a slash.
fn text_of_target(target: &[u8]) -> Option<&str>
    ensures { MatchOption result (is_target target.now ≡ false)
        (λ text. (text.now ≡ target.now) × (is_target target.now ≡ true)) }
{
    let text = text_of(target)?;
    match text.as_bytes() {
        [b'/', ..] => Some(text),
        _ => None,
    }
}

// What a GET asks for at a route, by its path and its query.
fn get(alloc: Global, route: &Route, path: &str, query: &str) -> Result<Request, Unasked>
    ensures { MakesSaid result (get_asked (row_of route.now) path.now query.now) }
{
    let Some(topic) = route.2 else {
        return Err(Unasked::Early(RefusedEarly::WantsPost));
    };
    let fields = fields_of(alloc, query)?;
    let format = format_of(&fields, route.1)?;
    let question = ask_topic(alloc, topic, path, &fields, format)?;
    Ok(Request::Asks(question, format))
}

// What a POST asks for at a route that takes this, by its query.
fn post(
    alloc: Global,
    payload: Option<Payload>,
    query: &str,
) -> Result<Wanted<Request, Format>, Unasked>
    ensures { MakesSaid result (post_asked payload query.now) }
{
    let Some(payload) = payload else {
        return Err(Unasked::Early(RefusedEarly::WantsGet));
    };
    let fields = fields_of(alloc, query)?;
    let format = format_of(&fields, &["format"])?;
    match payload {
        Payload::Command(verb) => Ok(Wanted::Buffered(Request::Obeys(verb, format))),
        Payload::Import => Ok(Wanted::Streamed(format)),
    }
}

// What is asked for by a target that is text and begins with a slash, by GET or else by POST.
#[tactic(auto, unfolding(crate::specs::Api::Questions::target_asked))]
fn judge_target(
    alloc: Global,
    routes: &Routes,
    is_get: bool,
    target: &str,
) -> Result<Wanted<Request, Format>, Unasked>
    ensures { MakesSaid result (target_asked is_get target.now) }
{
    let (path, query) = split_target(target);
    let Some(route) = routes.route_of(path) else {
        return Err(Unasked::Early(RefusedEarly::NoRoute));
    };
    if is_get {
        let request = get(alloc, route, path, query)?;
        return Ok(Wanted::Buffered(request));
    }
    post(alloc, route.3, query)
}

// The same, by a method and a target.
fn judge(
    alloc: Global,
    routes: &Routes,
    method: &[u8],
    target: &[u8],
) -> Result<Wanted<Request, Format>, Unasked>
    ensures { MakesSaid result (asked_by method.now target.now) }
{
    let is_get = method == b"GET".as_slice();
    if !is_get && method != b"POST".as_slice() {
        return Err(Unasked::Early(RefusedEarly::AnotherMethod));
    }
    let Some(target) = text_of_target(target) else {
        return Err(Unasked::Early(RefusedEarly::BadTarget));
    };
    judge_target(alloc, routes, is_get, target)
}

/// What a method and a target ask for. The file of an import is read as it comes; the format is
/// that of its reply.
///
/// The path of the target is what comes before its first `?`, the query what comes after it.
/// Neither is decoded except for the names and values of the query's fields.
///
/// # Errors
///
/// There is no memory for what the query says.
#[tactic(auto, unfolding(crate::specs::Api::Questions::question))]
pub fn question_of(
    alloc: Global,
    routes: &Routes,
    method: &[u8],
    target: &[u8],
) -> Result<Wanted<Request, Format>, AllocError>
    ensures { IfOk result (λ wanted. wanted ≡ question method.now target.now) }
{
    match judge(alloc, routes, method, target) {
        Ok(wanted) => Ok(wanted),
        Err(Unasked::Early(early)) => Ok(Wanted::Buffered(Request::Refused(early))),
        Err(Unasked::Memory) => Err(AllocError),
    }
}
