//! Pending submissions in answers, and those of the queue of a moderator.
ghost use Rattle.std.specs.Prelude.{◌≡◌, ◌++◌, ℕ, codes, map, string_bytes, IfOk, OnOk};
ghost use Rattle.pid_moderation.specs.PendingPages.{told_of};
ghost use Rattle.pid_moderation.specs.QueuePages.{QueueEntry, queued_of};
ghost use Rattle.pid_moderation.specs.Submissions.{Standing, standing_of};
ghost use Rattle.serde_json.specs.Data.{Members, put as with_member};
ghost use Rattle.serde_json.specs.View.{members_view};
ghost use Rattle.pid_http.specs.Api.SubmissionAnswers.{now_data, pending_data, pending_line};
ghost use Rattle.pid_http.specs.Api.SubmissionAnswers.{pending_members, proposal_words};
ghost use Rattle.pid_http.specs.Api.SubmissionAnswers.{proposed_data, queued_data, queued_line};
ghost use Rattle.pid_http.specs.Api.Steps.NoFloats.{pending_has_none, queued_has_none};

use crate::api::members::{Made, object_of, with_path, with_text, with_value};
use crate::api::shown::Shown;
use crate::api::text::{push_line, push_word};
use itoa::Buffer;
use pid_ident::{Name, PathText};
use pid_moderation::{Pending, Proposal, Queued, Submission};
use serde_json::{Map, Value};
use std::alloc::{AllocError, Global};

// The members, and what is proposed: the name, or null if the item is to be removed.
fn with_proposal(members: Made, alloc: Global, proposal: &Proposal) -> Made
    ensures { (ms : Members) → IfOk members (λ m. members_view m.entries ≡ ms)
        → IfOk result (λ m. members_view m.entries
        ≡ with_member (codes "name") (proposed_data proposal.now) ms) }
{
    match proposal {
        Proposal::Name(name) => with_text(members, alloc, "name", name.as_str()),
        Proposal::Removal => with_value(members, alloc, "name", Value::Null),
    }
}

/// The members that each submission has: its author, what is proposed, its number and its path.
pub(crate) fn submission_members(alloc: Global, number: u32, submission: &Submission) -> Made
    ensures { IfOk result (λ members. members_view members.entries
        ≡ pending_members number (standing_of submission.now)) }
{
    let members = with_text(
        Ok(Map::new(alloc)),
        alloc,
        "author",
        submission.author.as_str(),
    );
    let members = with_proposal(members, alloc, &submission.proposal);
    let members = with_value(members, alloc, "num", Value::from(number));
    with_path(members, alloc, &submission.path)
}

/// Appends what is proposed (`name` or `remove`), the path, after `name` the name, and a line feed.
pub(crate) fn push_proposal(
    text: &mut String,
    proposal: &Proposal,
    path: &str,
) -> Result<(), AllocError>
    ensures { OnOk result (string_bytes text.new
        ≡ string_bytes text.old ++ proposal_words proposal.now path.now ++ codes "\n") }
{
    match proposal {
        Proposal::Name(name) => {
            push_word(text, "name")?;
            push_line(text, path, name.as_str())
        }
        Proposal::Removal => push_line(text, "remove", path),
    }
}

/// Appends the line of a pending submission.
pub(crate) fn push_submission(
    alloc: Global,
    text: &mut String,
    number: u32,
    submission: &Submission,
) -> Result<(), AllocError>
    ensures { OnOk result (string_bytes text.new
        ≡ string_bytes text.old ++ pending_line (number, standing_of submission.now)) }
{
    let mut digits = Buffer::new();
    push_word(text, digits.format(number))?;
    push_word(text, submission.author.as_str())?;
    let path = submission.path.path_text(alloc)?;
    push_proposal(text, &submission.proposal, path.as_str())
}

// The line has its number, its author, what is proposed (`name` or `remove`), its path, and after
// `name` the name.
impl Shown for Pending {
    ghost Seen = { ℕ × Standing };

    ghost seen = { told_of };

    ghost json = { pending_data };

    ghost lines = { pending_line };

    fn value(&self, alloc: Global) -> Result<Value, AllocError> {
        let members = submission_members(alloc, self.number, &self.submission);
        object_of(members)
    }

    fn push_text(&self, alloc: Global, text: &mut String) -> Result<(), AllocError> {
        push_submission(alloc, text, self.number, &self.submission)
    }

    ghost no_float = { pending_has_none };
}

// The members, and the name of today, or null if there is none.
fn with_now(members: Made, alloc: Global, today: &Option<Name>) -> Made
    ensures { (ms : Members) → IfOk members (λ m. members_view m.entries ≡ ms)
        → IfOk result (λ m. members_view m.entries
        ≡ with_member (codes "now") (now_data today.now) ms) }
{
    match today {
        Some(name) => with_text(members, alloc, "now", name.as_str()),
        None => with_value(members, alloc, "now", Value::Null),
    }
}

// The line is that of a pending submission.
impl Shown for Queued {
    ghost Seen = { QueueEntry };

    ghost seen = { queued_of };

    ghost json = { queued_data };

    ghost lines = { queued_line };

    fn value(&self, alloc: Global) -> Result<Value, AllocError> {
        let members = submission_members(alloc, self.number, &self.submission);
        let members = with_text(members, alloc, "note", self.submission.note.as_str());
        let members = with_now(members, alloc, &self.now);
        let members = with_value(members, alloc, "remarks", Value::from(self.remarks));
        object_of(members)
    }

    fn push_text(&self, alloc: Global, text: &mut String) -> Result<(), AllocError> {
        push_submission(alloc, text, self.number, &self.submission)
    }

    ghost no_float = { queued_has_none };
}
