//! The reply with the rank of an account.
ghost use Rattle.std.specs.Prelude.{◌≡◌, IfOk};
ghost use Rattle.serde_json.specs.View.{view};
ghost use Rattle.pid_http.specs.Api.RankAnswers.{rank_answer, rank_data};
ghost use Rattle.pid_http.specs.Api.Replying.{MakesReply};

use crate::api::Format;
use crate::api::members::{object_of, with_text, with_value};
use crate::api::outcome::absent_reply;
use crate::api::reply::{json_reply, reply_with};
use crate::api::text::push_line;
use http::StatusCode;
use itoa::Buffer;
use pid_http_stream::{Content, HttpReply};
use pid_ident::Account;
use pid_moderation::Rank;
use serde_json::{Map, Value};
use std::alloc::{AllocError, Global};

fn rank_value(alloc: Global, who: &Account, rank: Rank) -> Result<Value, AllocError>
    ensures { IfOk result (λ value. view value ≡ rank_data who.now rank) }
{
    let members = with_value(
        Ok(Map::new(alloc)),
        alloc,
        "rank",
        Value::from(rank.number()),
    );
    let members = with_text(members, alloc, "who", who.as_str());
    object_of(members)
}

/// The reply with the rank of an account, or that there is no such account. The text is a line of
/// the account and its rank.
pub fn rank_reply(
    alloc: Global,
    format: Format,
    who: &Account,
    rank: Option<Rank>,
) -> Result<HttpReply, AllocError>
    ensures { MakesReply result (rank_answer format who.now rank) }
{
    let Some(rank) = rank else {
        let line = "refused 29 NoSuchAccount\n";
        return absent_reply(alloc, format, 29, "NoSuchAccount", line);
    };
    match format {
        Format::Json => {
            let value = rank_value(alloc, who, rank)?;
            json_reply(alloc, StatusCode::OK, value)
        }
        Format::Text => {
            let mut digits = Buffer::new();
            let mut text = String::new(alloc);
            push_line(&mut text, who.as_str(), digits.format(rank.number()))?;
            Ok(reply_with(StatusCode::OK, Content::Text, text.into_bytes()))
        }
    }
}
