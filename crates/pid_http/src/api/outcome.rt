//! Replies to commands.
ghost use Rattle.std.specs.Prelude.{◌≡◌, Ok, IfOk, IsTrue};
ghost use Rattle.serde_json.specs.View.{view};
ghost use Rattle.pid_http.specs.Api.Outcomes.{fault_data, missing_answer, outcome_answer};
ghost use Rattle.pid_http.specs.Api.Outcomes.{outcome_data, refused_answer};
ghost use Rattle.pid_http.specs.Api.Outcomes.{unanswered_answer};
ghost use Rattle.pid_http.specs.Api.Replying.{MakesReply, answer_in};
ghost use Rattle.pid_http_stream.specs.StreamFaults.{refusal_data};
ghost use Rattle.pid_http_stream.specs.HttpStatuses.{allows_body};

use crate::api::Format;
use crate::api::http_status::status_of;
use crate::api::members::{object_of, with_text, with_value};
use crate::api::reply::{json_reply, reply_with};
use http::StatusCode;
use pid_http_stream::{Content, HttpReply};
use pid_lookup::Unanswered;
use pid_moderation::{FileFault, Refusal, Reply, reply_line};
use serde_json::{Map, Value};
use std::alloc::{AllocError, Global};

fn done_value(alloc: Global) -> Result<Value, AllocError>
    ensures { IfOk result (λ value. view value ≡ outcome_data (Ok Reply.Done)) }
{
    let members = with_value(Ok(Map::new(alloc)), alloc, "ok", Value::Bool(true));
    object_of(members)
}

fn numbered_value(alloc: Global, number: u32) -> Result<Value, AllocError>
    ensures { IfOk result (λ value. view value
        ≡ outcome_data (Ok (Reply.Numbered number))) }
{
    let members = with_value(Ok(Map::new(alloc)), alloc, "num", Value::from(number));
    let members = with_value(members, alloc, "ok", Value::Bool(true));
    object_of(members)
}

fn counts_value(alloc: Global, added: u32, renamed: u32, same: u32) -> Result<Value, AllocError>
    ensures { IfOk result (λ value. view value
        ≡ outcome_data (Ok (Reply.Counts added renamed same))) }
{
    let members = with_value(Ok(Map::new(alloc)), alloc, "added", Value::from(added));
    let members = with_value(members, alloc, "ok", Value::Bool(true));
    let members = with_value(members, alloc, "renamed", Value::from(renamed));
    let members = with_value(members, alloc, "same", Value::from(same));
    object_of(members)
}

fn fault_value(alloc: Global, line: u64, kind: u8) -> Result<Value, AllocError>
    ensures { IfOk result (λ value. view value ≡ fault_data line kind) }
{
    let members = with_value(Ok(Map::new(alloc)), alloc, "kind", Value::from(kind));
    let members = with_value(members, alloc, "line", Value::from(line));
    let members = with_value(members, alloc, "ok", Value::Bool(false));
    let members = with_value(members, alloc, "refused", Value::from(14u8));
    let members = with_text(members, alloc, "word", "FileFault");
    object_of(members)
}

/// The value of a refusal: its number and its word.
pub(crate) fn refusal_value(alloc: Global, number: u8, word: &str) -> Result<Value, AllocError>
    ensures { IfOk result (λ value. view value ≡ refusal_data number word.now) }
{
    let members = with_value(Ok(Map::new(alloc)), alloc, "ok", Value::Bool(false));
    let members = with_value(members, alloc, "refused", Value::from(number));
    let members = with_text(members, alloc, "word", word);
    object_of(members)
}

fn outcome_value(alloc: Global, outcome: Result<Reply, Refusal>) -> Result<Value, AllocError>
    ensures { IfOk result (λ value. view value ≡ outcome_data outcome) }
{
    match outcome {
        Ok(Reply::Done) => done_value(alloc),
        Ok(Reply::Numbered(number)) => numbered_value(alloc, number),
        Ok(
            Reply::Counts {
                added,
                renamed,
                same,
            },
        ) => counts_value(alloc, added, renamed, same),
        Err(Refusal::FileFault(FileFault::Line { line, kind })) => {
            fault_value(alloc, line, kind.number())
        }
        Err(Refusal::FileFault(FileFault::TooMany)) => fault_value(alloc, 0, 0),
        Err(refusal) => refusal_value(alloc, refusal.number(), refusal.word()),
    }
}

/// The reply to a command, imports too: what it was answered, or why it was refused. A refusal has
/// its number and its word, and that of a faulty file the line, counted from 1, and the kind of its
/// fault; both are 0 if the file has too many entries. The text is the reply line of scripts.
pub fn outcome_reply(
    alloc: Global,
    format: Format,
    outcome: Result<Reply, Refusal>,
) -> Result<HttpReply, AllocError>
    ensures { MakesReply result (outcome_answer format outcome) }
{
    let status = status_of(outcome);
    match format {
        Format::Json => {
            let value = outcome_value(alloc, outcome)?;
            json_reply(alloc, status, value)
        }
        Format::Text => {
            let line = reply_line(alloc, outcome)?;
            Ok(reply_with(status, Content::Text, line.into_bytes()))
        }
    }
}

/// The reply with a refusal.
pub fn refusal_reply(
    alloc: Global,
    format: Format,
    refusal: Refusal,
) -> Result<HttpReply, AllocError>
    ensures { MakesReply result (outcome_answer format (Err refusal)) }
{
    outcome_reply(alloc, format, Err(refusal))
}

/// The reply with a refusal that is none of a command, as JSON.
pub(crate) fn refused_reply(
    alloc: Global,
    status: StatusCode,
    number: u8,
    word: &str,
) -> Result<HttpReply, AllocError>
    requires { IsTrue (allows_body status) }
    ensures { MakesReply result (refused_answer status number word.now) }
{
    let value = refusal_value(alloc, number, word)?;
    json_reply(alloc, status, value)
}

/// The reply to a question that has no answer, as JSON.
pub(crate) fn unanswered_reply(
    alloc: Global,
    status: StatusCode,
    why: Unanswered,
) -> Result<HttpReply, AllocError>
    requires { IsTrue (allows_body status) }
    ensures { MakesReply result (unanswered_answer status why) }
{
    refused_reply(alloc, status, why.number(), why.word())
}

/// The reply with a refusal that is none of a command, in a format: what was asked for is not there.
/// `line` says the same as text.
pub(crate) fn absent_reply(
    alloc: Global,
    format: Format,
    number: u8,
    word: &str,
    line: &str,
) -> Result<HttpReply, AllocError>
    ensures { MakesReply result (answer_in format 404 (refusal_data number word.now) line.now) }
{
    match format {
        Format::Json => refused_reply(alloc, StatusCode::NOT_FOUND, number, word),
        Format::Text => {
            let line = String::from_str(alloc, line)?;
            Ok(reply_with(StatusCode::NOT_FOUND, Content::Text, line.into_bytes()))
        }
    }
}

/// The reply if no item is at a path.
pub fn missing_reply(alloc: Global, format: Format) -> Result<HttpReply, AllocError>
    ensures { MakesReply result (missing_answer format) }
{
    let why = Unanswered::NoItem;
    absent_reply(alloc, format, why.number(), why.word(), why.line())
}
