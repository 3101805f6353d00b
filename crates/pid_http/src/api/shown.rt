//! What an answer shows, with its reply.
ghost use Rattle.std.specs.Prelude.{◌≡◌, ◌++◌, false, string_bytes, IfOk, OnOk};
ghost use Rattle.serde_json.specs.Data.{Data};
ghost use Rattle.serde_json.specs.View.{view};
ghost use Rattle.serde_json.specs.Written.{has_float};
ghost use Rattle.pid_http.specs.Api.Replying.{MakesReply, shown_answer};
ghost use Rattle.pid_http.specs.Steps.Replying.{answer_or};

use crate::api::format::Format;
use crate::api::outcome::refusal_reply;
use crate::api::reply::{json_reply, reply_with};
use http::StatusCode;
use pid_http_stream::{Content, HttpReply};
use pid_moderation::Refusal;
use serde_json::Value;
use std::alloc::{AllocError, Global};

/// What an answer shows: a page, or a row of a list.
pub(crate) trait Shown {
    ghost use Rattle.std.specs.Prelude.{ℕ, List};

    /// What definitions say of it.
    ghost Seen: { Type 0 };

    /// How definitions see it.
    ghost seen: { Self → Seen };

    /// Its value in JSON.
    ghost json: { Seen → Data };

    /// Its lines of text.
    ghost lines: { Seen → List ℕ };

    /// Its value.
    fn value(&self, alloc: Global) -> Result<Value, AllocError>
        ensures { IfOk result (λ value. view value ≡ json (seen self.now)) };

    /// Appends its lines.
    fn push_text(&self, alloc: Global, text: &mut String) -> Result<(), AllocError>
        ensures { OnOk result (string_bytes text.new
            ≡ string_bytes text.old ++ lines (seen self.now)) };

    /// No value has a float.
    ghost no_float: { (shown : Seen) → has_float (json shown) ≡ false };
}

// The reply with what is shown.
fn shown_reply<T: Shown>(alloc: Global, format: Format, shown: &T) -> Result<HttpReply, AllocError>
    ensures { MakesReply result (shown_answer T.json T.lines format (T.seen shown.now)) }
{
    match format {
        Format::Json => {
            let value = shown.value(alloc)?;
            json_reply(alloc, StatusCode::OK, value)
        }
        Format::Text => {
            let mut text = String::new(alloc);
            shown.push_text(alloc, &mut text)?;
            Ok(reply_with(StatusCode::OK, Content::Text, text.into_bytes()))
        }
    }
}

/// The reply with what was found, or with the refusal.
pub(crate) fn found_reply<T: Shown + Drop>(
    alloc: Global,
    format: Format,
    found: Result<T, Refusal>,
) -> Result<HttpReply, AllocError>
    ensures { MakesReply result (answer_or format
        (λ shown. shown_answer T.json T.lines format (T.seen shown)) found) }
{
    match found {
        Ok(shown) => shown_reply(alloc, format, &shown),
        Err(refusal) => refusal_reply(alloc, format, refusal),
    }
}
