//! How much a registry holds, in answers.
ghost use Rattle.std.specs.Prelude.{◌≡◌, ◌++◌, decimal, refl, string_bytes, OnOk};
ghost use Rattle.pid_moderation.specs.RegistryStatus.{RegistryStatus, registry_status_of};
ghost use Rattle.pid_http.specs.Api.StatusAnswers.{status_data, status_text};
ghost use Rattle.pid_http.specs.Api.Replying.{word_line};

use crate::api::members::{object_of, with_value};
use crate::api::shown::Shown;
use crate::api::text::push_line;
use itoa::Buffer;
use pid_moderation::Status;
use serde_json::{Map, Value};
use std::alloc::{AllocError, Global};

fn push_count(text: &mut String, word: &str, count: u64) -> Result<(), AllocError>
    ensures { OnOk result (string_bytes text.new
        ≡ string_bytes text.old ++ word_line word.now (decimal count)) }
{
    let mut digits = Buffer::new();
    push_line(text, word, digits.format(count))
}

// How many accounts, items, pending submissions, accepted commands and submissions there are. The
// text has a line for each count: its key and the count.
impl Shown for Status {
    ghost Seen = { RegistryStatus };

    ghost seen = { registry_status_of };

    ghost json = { status_data };

    ghost lines = { status_text };

    fn value(&self, alloc: Global) -> Result<Value, AllocError> {
        let members = with_value(
            Ok(Map::new(alloc)),
            alloc,
            "accounts",
            Value::from(self.accounts),
        );
        let members = with_value(members, alloc, "items", Value::from(self.items));
        let members = with_value(members, alloc, "pending", Value::from(self.pending));
        let members = with_value(members, alloc, "revision", Value::from(self.revision));
        let members = with_value(members, alloc, "submissions", Value::from(self.submissions));
        object_of(members)
    }

    fn push_text(&self, _alloc: Global, text: &mut String) -> Result<(), AllocError> {
        push_count(text, "accounts", self.accounts)?;
        push_count(text, "items", u64::from(self.items))?;
        push_count(text, "pending", u64::from(self.pending))?;
        push_count(text, "revision", self.revision)?;
        push_count(text, "submissions", u64::from(self.submissions))
    }

    ghost no_float = { λ _. refl };
}
