//! Replies whose body is there.
ghost use Rattle.std.specs.Prelude.{◌≡◌, false, string_bytes, IfOk, IsTrue};
ghost use Rattle.serde_json.specs.Data.{Data};
ghost use Rattle.serde_json.specs.View.{view};
ghost use Rattle.serde_json.specs.Written.{compact_text, has_float};
ghost use Rattle.pid_http_stream.specs.Replies.{answer_with};
ghost use Rattle.pid_http_stream.specs.HttpStatuses.{allows_body};
ghost use Rattle.pid_http.specs.Api.Replying.{IsReplyOf, MakesReply};

use http::StatusCode;
use pid_http_stream::{Content, HttpReply, ReplyBody, ReplyHead};
use serde_json::Value;
use std::alloc::{AllocError, Global};

/// The reply with this body.
pub(crate) fn reply_with(status: StatusCode, content: Content, body: Vec<u8>) -> HttpReply
    requires { IsTrue (allows_body status) }
    ensures { IsReplyOf result (answer_with status content body.items) }
{
    HttpReply {
        head: ReplyHead { status, content },
        body: ReplyBody::Bytes(body),
    }
}

/// The text of a value as compact JSON.
pub(crate) fn printed(alloc: Global, value: Value) -> Result<String, AllocError>
    ensures { (json : Data) → view value ≡ json → has_float json ≡ false
        → IfOk result (λ text. string_bytes text ≡ compact_text json) }
{
    value.to_string(alloc)
}

/// The reply with a value as compact JSON.
pub(crate) fn json_reply(
    alloc: Global,
    status: StatusCode,
    value: Value,
) -> Result<HttpReply, AllocError>
    requires { IsTrue (allows_body status) }
    ensures { (json : Data) → view value ≡ json → has_float json ≡ false
        → MakesReply result (answer_with status Content.Json (compact_text json)) }
{
    let text = printed(alloc, value)?;
    Ok(reply_with(status, Content::Json, text.into_bytes()))
}
