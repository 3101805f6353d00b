//! A submission and a page of the remarks on it, in answers.
ghost use Rattle.std.specs.Prelude.{ℕ, refl};
ghost use Rattle.pid_moderation.specs.RemarkPages.{DiscussionPage, placed_of, remark_page_of};
ghost use Rattle.pid_moderation.specs.Views.{Remark};
ghost use Rattle.pid_http.specs.Api.SubmissionAnswers.{placed_data, placed_line, remarks_data};
ghost use Rattle.pid_http.specs.Api.SubmissionAnswers.{remarks_text};
ghost use Rattle.pid_http.specs.Api.Steps.NoFloats.{remarks_have_none};

use crate::api::list::{push_lines, rows_value};
use crate::api::members::{object_of, with_text, with_value};
use crate::api::shown::Shown;
use crate::api::submission::{push_standing, standing_members, state_name};
use crate::api::text::{push_line, push_word};
use itoa::Buffer;
use pid_moderation::{PlacedRemark, RemarkPage};
use serde_json::{Map, Value};
use std::alloc::{AllocError, Global};

// The line has the word `remark`, its place, its author, and what it says.
impl Shown for PlacedRemark {
    ghost Seen = { ℕ × Remark };

    ghost seen = { placed_of };

    ghost json = { placed_data };

    ghost lines = { placed_line };

    fn value(&self, alloc: Global) -> Result<Value, AllocError> {
        let members = with_text(
            Ok(Map::new(alloc)),
            alloc,
            "author",
            self.remark.author.as_str(),
        );
        let members = with_value(members, alloc, "place", Value::from(self.place));
        let members = with_text(members, alloc, "text", self.remark.text.as_str());
        object_of(members)
    }

    fn push_text(&self, _alloc: Global, text: &mut String) -> Result<(), AllocError> {
        let mut digits = Buffer::new();
        push_word(text, "remark")?;
        push_word(text, digits.format(self.place))?;
        push_line(text, self.remark.author.as_str(), self.remark.text.as_str())
    }

    ghost no_float = { λ _. refl };
}

// The submission as it stands, how many remarks there are on it, and a page of them. The text has
// the lines of a submission, the line `count` with their number, and then a line for each remark.
impl Shown for RemarkPage {
    ghost Seen = { DiscussionPage };

    ghost seen = { remark_page_of };

    ghost json = { remarks_data };

    ghost lines = { remarks_text };

    fn value(&self, alloc: Global) -> Result<Value, AllocError> {
        let remarks = rows_value(alloc, self.remarks.as_slice())?;
        let members = standing_members(alloc, self.number, &self.submission);
        let members = with_value(members, alloc, "count", Value::from(self.count));
        let members = with_value(members, alloc, "remarks", remarks);
        let members = with_text(members, alloc, "state", state_name(&self.submission.state));
        object_of(members)
    }

    fn push_text(&self, alloc: Global, text: &mut String) -> Result<(), AllocError> {
        let mut digits = Buffer::new();
        push_standing(alloc, text, self.number, &self.submission)?;
        push_line(text, "count", digits.format(self.count))?;
        push_lines(alloc, text, self.remarks.as_slice())
    }

    ghost no_float = { remarks_have_none };
}
