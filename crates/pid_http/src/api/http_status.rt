//! The HTTP status of the reply to a command (RFC 9110, section 15).
ghost use Rattle.std.specs.Prelude.{◌≡◌, IsTrue};
ghost use Rattle.pid_http_stream.specs.HttpStatuses.{allows_body};
ghost use Rattle.pid_http.specs.Api.Outcomes.{status_of_outcome};

use http::StatusCode;
use pid_moderation::{Refusal, Reply};

/// The status of what a command was answered, or of why it was refused.
pub(crate) fn status_of(outcome: Result<Reply, Refusal>) -> StatusCode
    ensures value { result ≡ status_of_outcome outcome }
    ensures bodied { IsTrue (allows_body result) }
{
    match outcome {
        Ok(_) => StatusCode::OK,
        Err(Refusal::BadPath | Refusal::BadName | Refusal::BadText) => StatusCode::BAD_REQUEST,
        Err(Refusal::NoAccount | Refusal::RankTooLow | Refusal::NotAuthor | Refusal::OwnDecision) =>
            StatusCode::FORBIDDEN,
        Err(Refusal::NoSubmission) => StatusCode::NOT_FOUND,
        Err(
            Refusal::NotPending
            | Refusal::ParentMissing
            | Refusal::HasChildren
            | Refusal::NothingToDo
            | Refusal::Changed,
        ) => StatusCode::CONFLICT,
        Err(Refusal::FileFault(_)) => StatusCode::UNPROCESSABLE_ENTITY,
        Err(Refusal::Full | Refusal::Memory | Refusal::Store | Refusal::Failed) => {
            StatusCode::SERVICE_UNAVAILABLE
        }
    }
}
