//! Pages of submissions, in answers.
ghost use Rattle.pid_moderation.specs.SubmissionPages.{Listing, ListingPage, listed_of};
ghost use Rattle.pid_moderation.specs.SubmissionPages.{submission_page_of};
ghost use Rattle.pid_http.specs.Api.SubmissionAnswers.{listed_data, listed_line, submissions_data};
ghost use Rattle.pid_http.specs.Api.SubmissionAnswers.{submissions_text};
ghost use Rattle.pid_http.specs.Api.Steps.NoFloats.{listed_has_none, submissions_have_none};

use crate::api::list::{push_lines, rows_value};
use crate::api::members::{object_of, with_text, with_value};
use crate::api::pending::{push_proposal, submission_members};
use crate::api::shown::Shown;
use crate::api::submission::{decider, reason, state_name};
use crate::api::text::{push_line, push_word};
use itoa::Buffer;
use pid_ident::PathText;
use pid_moderation::{Listed, SubmissionPage};
use serde_json::{Map, Value};
use std::alloc::{AllocError, Global};

// The line has its number, its state, its author, what is proposed (`name` or `remove`), its path,
// and after `name` the name.
impl Shown for Listed {
    ghost Seen = { Listing };

    ghost seen = { listed_of };

    ghost json = { listed_data };

    ghost lines = { listed_line };

    fn value(&self, alloc: Global) -> Result<Value, AllocError> {
        let submission = &self.submission;
        let members = submission_members(alloc, self.number, submission);
        let members = with_text(members, alloc, "decider", decider(submission));
        let members = with_text(members, alloc, "reason", reason(&submission.state));
        let members = with_value(members, alloc, "remarks", Value::from(self.remarks));
        let members = with_text(members, alloc, "state", state_name(&submission.state));
        object_of(members)
    }

    fn push_text(&self, alloc: Global, text: &mut String) -> Result<(), AllocError> {
        let mut digits = Buffer::new();
        push_word(text, digits.format(self.number))?;
        push_word(text, state_name(&self.submission.state))?;
        push_word(text, self.submission.author.as_str())?;
        let path = self.submission.path.path_text(alloc)?;
        push_proposal(text, &self.submission.proposal, path.as_str())
    }

    ghost no_float = { listed_has_none };
}

// The latest first, and the number below which the next page begins. The text has the line `before`
// with that number, and then a line for each submission.
impl Shown for SubmissionPage {
    ghost Seen = { ListingPage };

    ghost seen = { submission_page_of };

    ghost json = { submissions_data };

    ghost lines = { submissions_text };

    fn value(&self, alloc: Global) -> Result<Value, AllocError> {
        let submissions = rows_value(alloc, self.submissions.as_slice())?;
        let members = with_value(
            Ok(Map::new(alloc)),
            alloc,
            "before",
            Value::from(self.before),
        );
        let members = with_value(members, alloc, "submissions", submissions);
        object_of(members)
    }

    fn push_text(&self, alloc: Global, text: &mut String) -> Result<(), AllocError> {
        let mut digits = Buffer::new();
        push_line(text, "before", digits.format(self.before))?;
        push_lines(alloc, text, self.submissions.as_slice())
    }

    ghost no_float = { submissions_have_none };
}
