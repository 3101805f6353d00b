//! The reply to a look-up.
ghost use Rattle.std.specs.Prelude.{◌≡◌};
ghost use Rattle.pid_http.specs.Api.LookupAnswers.{lookup_answer};
ghost use Rattle.pid_http.specs.Api.Replying.{MakesReply};

use crate::api::Format;
use crate::api::outcome::{refusal_reply, unanswered_reply};
use crate::api::reply::reply_with;
use http::StatusCode;
use pid_http_stream::{Content, HttpReply};
use pid_lookup::{Answer, LookupRefusal, Unanswered};
use pid_moderation::Refusal;
use std::alloc::{AllocError, Global};

/// The reply to a look-up: its bytes, which may hold a part of a character at their end, or why
/// there are none, as JSON.
pub fn lookup_reply(
    alloc: Global,
    outcome: Result<Answer, LookupRefusal<Refusal>>,
) -> Result<HttpReply, AllocError>
    ensures { MakesReply result (lookup_answer outcome) }
{
    match outcome {
        Ok(Answer::Text(text)) => Ok(reply_with(StatusCode::OK, Content::Bytes, text.into_bytes())),
        Ok(Answer::NoAnswer) => unanswered_reply(
            alloc,
            StatusCode::NOT_FOUND,
            Unanswered::NoAnswer,
        ),
        Err(LookupRefusal::BadFlags) => unanswered_reply(
            alloc,
            StatusCode::BAD_REQUEST,
            Unanswered::BadFlags,
        ),
        Err(LookupRefusal::Names(refusal)) => refusal_reply(alloc, Format::Json, refusal),
        Err(LookupRefusal::Memory) => refusal_reply(alloc, Format::Json, Refusal::Memory),
    }
}
