//! The reply with a submission.
ghost use Rattle.std.specs.Prelude.{◌≡◌, ◌++◌, codes, map, refl, string_bytes, IfOk, OnOk};
ghost use Rattle.pid_moderation.specs.Submissions.{decider_of, reason_of, remark_of, discussion_of};
ghost use Rattle.pid_moderation.specs.Submissions.{standing_of};
ghost use Rattle.pid_moderation.specs.Views.{Remark};
ghost use Rattle.serde_json.specs.Data.{no_members, object, string};
ghost use Rattle.serde_json.specs.View.{members_view, view};
ghost use Rattle.serde_json.specs.Written.{compact_text};
ghost use Rattle.pid_http.specs.Api.Replying.{MakesReply, rows_data};
ghost use Rattle.pid_http.specs.Api.SubmissionAnswers.{proposal_line, remark_data, remark_line};
ghost use Rattle.pid_http.specs.Api.SubmissionAnswers.{standing_members as members_of};
ghost use Rattle.pid_http.specs.Api.SubmissionAnswers.{standing_text, state_word};
ghost use Rattle.pid_http.specs.Api.SubmissionAnswers.{submission_answer, submission_data};

use crate::api::Format;
use crate::api::list::{push_lines, push_rows, push_value};
use crate::api::members::{Made, object_of, with_text};
use crate::api::pending::submission_members;
use crate::api::reply::{printed, reply_with};
use crate::api::shown::Shown;
use crate::api::text::{push_line, push_word};
use http::StatusCode;
use itoa::Buffer;
use pid_http_stream::{Content, HttpReply};
use pid_ident::PathText;
use pid_moderation::{Comment, Discussion, Proposal, State, Submission};
use serde_json::{Map, Value};
use std::alloc::{AllocError, Global};

/// The state in one word.
pub(crate) fn state_name(state: &State) -> &'static str
    ensures { result.now ≡ state_word state.now }
{
    match state {
        State::Pending => "pending",
        State::Approved { .. } => "approved",
        State::Rejected { .. } => "rejected",
        State::Withdrawn => "withdrawn",
    }
}

/// Who decided: the author of what was withdrawn, and nobody as long as it is pending.
pub(crate) fn decider(submission: &Submission) -> &str
    ensures { result.now ≡ decider_of submission.now.author submission.now.state }
{
    match &submission.state {
        State::Pending => "",
        State::Approved { decider } => decider.as_str(),
        State::Rejected { decider, .. } => decider.as_str(),
        State::Withdrawn => submission.author.as_str(),
    }
}

/// Why it was rejected; else empty.
pub(crate) fn reason(state: &State) -> &str
    ensures { result.now ≡ reason_of state.now }
{
    match state {
        State::Rejected { reason, .. } => reason.as_str(),
        State::Pending | State::Approved { .. } | State::Withdrawn => "",
    }
}

impl Shown for Comment {
    ghost Seen = { Remark };

    ghost seen = { remark_of };

    ghost json = { remark_data };

    ghost lines = { remark_line };

    fn value(&self, alloc: Global) -> Result<Value, AllocError> {
        let members = with_text(Ok(Map::new(alloc)), alloc, "author", self.author.as_str());
        let members = with_text(members, alloc, "text", self.text.as_str());
        object_of(members)
    }

    fn push_text(&self, _alloc: Global, text: &mut String) -> Result<(), AllocError> {
        push_word(text, "remark")?;
        push_line(text, self.author.as_str(), self.text.as_str())
    }

    ghost no_float = { λ _. refl };
}

/// What comes before the remarks.
pub(crate) fn standing_members(alloc: Global, number: u32, submission: &Submission) -> Made
    ensures { IfOk result (λ members. members_view members.entries
        ≡ members_of number (standing_of submission.now) no_members) }
{
    let members = submission_members(alloc, number, submission);
    let members = with_text(members, alloc, "decider", decider(submission));
    let members = with_text(members, alloc, "note", submission.note.as_str());
    with_text(members, alloc, "reason", reason(&submission.state))
}

// The same as text, except for the closing brace: more follows.
fn standing_json(alloc: Global, number: u32, submission: &Submission) -> Result<String, AllocError>
    ensures { IfOk result (λ text. string_bytes text ++ codes "}"
        ≡ compact_text (object (members_of number (standing_of submission.now) no_members))) }
{
    let value = object_of(standing_members(alloc, number, submission))?;
    let mut text = printed(alloc, value)?;
    text.pop();
    Ok(text)
}

// Appends the last members, and the closing brace.
fn push_remarks_and_state(
    alloc: Global,
    text: &mut String,
    discussion: &Discussion,
) -> Result<(), AllocError>
    ensures { OnOk result (string_bytes text.new ≡ string_bytes text.old
        ++ codes ",\"remarks\":"
        ++ compact_text (rows_data remark_data (map remark_of discussion.now.remarks.items))
        ++ codes ",\"state\":"
        ++ compact_text (string (state_word discussion.now.submission.state)) ++ codes "}") }
{
    text.push_str(",\"remarks\":")?;
    push_rows(alloc, text, discussion.remarks.as_slice())?;
    text.push_str(",\"state\":")?;
    let state = Value::try_from_str(alloc, state_name(&discussion.submission.state))?;
    push_value(alloc, text, state)?;
    text.push_str("}")?;
    Ok(())
}

fn submission_json(
    alloc: Global,
    number: u32,
    discussion: &Discussion,
) -> Result<String, AllocError>
    ensures { IfOk result (λ text. string_bytes text
        ≡ compact_text (submission_data number (discussion_of discussion.now))) }
{
    let mut text = standing_json(alloc, number, &discussion.submission)?;
    push_remarks_and_state(alloc, &mut text, discussion)?;
    Ok(text)
}

fn push_proposal_line(text: &mut String, proposal: &Proposal) -> Result<(), AllocError>
    ensures { OnOk result (string_bytes text.new
        ≡ string_bytes text.old ++ proposal_line proposal.now) }
{
    match proposal {
        Proposal::Name(name) => push_line(text, "name", name.as_str()),
        Proposal::Removal => text.push_str("remove\n"),
    }
}

/// Appends the lines of a submission that come before the remarks.
pub(crate) fn push_standing(
    alloc: Global,
    text: &mut String,
    number: u32,
    submission: &Submission,
) -> Result<(), AllocError>
    ensures { OnOk result (string_bytes text.new
        ≡ string_bytes text.old ++ standing_text number (standing_of submission.now)) }
{
    let mut digits = Buffer::new();
    push_line(text, "num", digits.format(number))?;
    push_line(text, "author", submission.author.as_str())?;
    push_line(text, "path", submission.path.path_text(alloc)?.as_str())?;
    push_proposal_line(text, &submission.proposal)?;
    push_line(text, "note", submission.note.as_str())?;
    push_line(text, "state", state_name(&submission.state))?;
    push_line(text, "decider", decider(submission))?;
    push_line(text, "reason", reason(&submission.state))
}

/// The reply with the submission of a number, as it stands, and the remarks on it. In the text each
/// line has a word and what it says; a removal has the line `remove` in place of a name.
pub fn submission_reply(
    alloc: Global,
    format: Format,
    number: u32,
    discussion: &Discussion,
) -> Result<HttpReply, AllocError>
    ensures { MakesReply result (submission_answer format number (discussion_of discussion.now)) }
{
    match format {
        Format::Json => {
            let text = submission_json(alloc, number, discussion)?;
            Ok(reply_with(StatusCode::OK, Content::Json, text.into_bytes()))
        }
        Format::Text => {
            let mut text = String::new(alloc);
            push_standing(alloc, &mut text, number, &discussion.submission)?;
            push_lines(alloc, &mut text, discussion.remarks.as_slice())?;
            Ok(reply_with(StatusCode::OK, Content::Text, text.into_bytes()))
        }
    }
}
