//! Replies to requests that come to no call.
ghost use Rattle.std.specs.Prelude.{◌≡◌, []};
ghost use Rattle.pid_http_stream.specs.Replies.{answer_with};
ghost use Rattle.pid_http.specs.Api.Outcomes.{early_answer};
ghost use Rattle.pid_http.specs.Api.Replying.{IsReplyOf, MakesReply};

use crate::api::Format;
use crate::api::outcome::{refusal_reply, refused_reply};
use crate::api::reply::reply_with;
use http::StatusCode;
use pid_http_stream::{Content, HttpReply};
use pid_moderation::Refusal;
use std::alloc::{AllocError, Global};

/// Why a request is refused before the registry is asked.
#[derive(Clone, Copy)]
pub enum RefusedEarly {
    /// Its method is neither GET nor POST.
    AnotherMethod,
    /// Its route is one of GET.
    WantsGet,
    /// Its route is one of POST.
    WantsPost,
    /// Its target does not begin with a slash.
    BadTarget,
    /// Its path is no route.
    NoRoute,
    /// Its query has a field that its route has not, one twice, or a wrong value.
    BadQuery,
    /// A text of its target is no path, or no number of a submission: a refusal in its format.
    BadValue(Refusal, Format),
}

/// Why a request comes to no call.
#[derive(Clone, Copy)]
pub enum Unasked {
    /// It is refused.
    Early(RefusedEarly),
    /// There is no memory to read it.
    Memory,
}

impl From<RefusedEarly> for Unasked {
    ghost use Rattle.std.specs.Prelude.{◌≡◌};
    ghost use Rattle.pid_http.specs.declared.api.early.Unasked.TheVariants as unasked;

    ghost from_gives = { λ early e. e ≡ unasked.Early early };

    fn from(early: RefusedEarly) -> Unasked {
        Unasked::Early(early)
    }
}

impl From<AllocError> for Unasked {
    ghost use Rattle.std.specs.Prelude.{◌≡◌};
    ghost use Rattle.pid_http.specs.declared.api.early.Unasked.TheVariants as unasked;

    ghost from_gives = { λ _ e. e ≡ unasked.Memory };

    fn from(_fault: AllocError) -> Unasked {
        Unasked::Memory
    }
}

// The reply with the methods that are allowed, which has no body.
fn allow_reply(alloc: Global, content: Content) -> HttpReply
    ensures { IsReplyOf result (answer_with 405 content []) }
{
    reply_with(StatusCode::METHOD_NOT_ALLOWED, content, Vec::new(alloc))
}

/// The reply to a request that comes to no call. One of another method gets the list of those that
/// are allowed, with no body; any other has a refusal, which is JSON but for a bad value.
pub fn early_reply(alloc: Global, early: RefusedEarly) -> Result<HttpReply, AllocError>
    ensures { MakesReply result (early_answer early) }
{
    match early {
        RefusedEarly::AnotherMethod => Ok(allow_reply(alloc, Content::AllowBoth)),
        RefusedEarly::WantsGet => Ok(allow_reply(alloc, Content::AllowGet)),
        RefusedEarly::WantsPost => Ok(allow_reply(alloc, Content::AllowPost)),
        RefusedEarly::BadTarget => refused_reply(alloc, StatusCode::BAD_REQUEST, 28, "BadTarget"),
        RefusedEarly::NoRoute => refused_reply(alloc, StatusCode::NOT_FOUND, 24, "NoRoute"),
        RefusedEarly::BadQuery => refusal_reply(alloc, Format::Json, Refusal::BadText),
        RefusedEarly::BadValue(refusal, format) => refusal_reply(alloc, format, refusal),
    }
}
