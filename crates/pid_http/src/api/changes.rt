//! Items that were added or renamed, in answers.
ghost use Rattle.std.specs.Prelude.{refl};
ghost use Rattle.pid_moderation.specs.ChangePages.{ChangePage, Changed, changed_of, page_of};
ghost use Rattle.pid_http.specs.Api.ItemAnswers.{changed_data, changed_line, changes_data};
ghost use Rattle.pid_http.specs.Api.ItemAnswers.{changes_text};
ghost use Rattle.pid_http.specs.Api.Steps.NoFloats.{changes_have_none};

use crate::api::list::{push_lines, rows_value};
use crate::api::members::{object_of, with_path, with_text, with_value};
use crate::api::shown::Shown;
use crate::api::text::{push_line, push_word};
use itoa::Buffer;
use pid_ident::PathText;
use pid_moderation::{ChangedItem, Changes};
use serde_json::{Map, Value};
use std::alloc::{AllocError, Global};

// The line has the number of the last change of its name, its path and its name.
impl Shown for ChangedItem {
    ghost Seen = { Changed };

    ghost seen = { changed_of };

    ghost json = { changed_data };

    ghost lines = { changed_line };

    fn value(&self, alloc: Global) -> Result<Value, AllocError> {
        let members = with_text(Ok(Map::new(alloc)), alloc, "name", self.name.as_str());
        let members = with_path(members, alloc, &self.path);
        let members = with_value(members, alloc, "since", Value::from(self.since));
        object_of(members)
    }

    fn push_text(&self, alloc: Global, text: &mut String) -> Result<(), AllocError> {
        let mut digits = Buffer::new();
        push_word(text, digits.format(self.since))?;
        let path = self.path.path_text(alloc)?;
        push_line(text, path.as_str(), self.name.as_str())
    }

    ghost no_float = { λ _. refl };
}

// In their order. The text has the line `revision` with the revision before them.
impl Shown for Changes {
    ghost Seen = { ChangePage };

    ghost seen = { page_of };

    ghost json = { changes_data };

    ghost lines = { changes_text };

    fn value(&self, alloc: Global) -> Result<Value, AllocError> {
        let items = rows_value(alloc, self.items.as_slice())?;
        let members = with_value(Ok(Map::new(alloc)), alloc, "items", items);
        let members = with_value(members, alloc, "revision", Value::from(self.revision));
        object_of(members)
    }

    fn push_text(&self, alloc: Global, text: &mut String) -> Result<(), AllocError> {
        let mut digits = Buffer::new();
        push_line(text, "revision", digits.format(self.revision))?;
        push_lines(alloc, text, self.items.as_slice())
    }

    ghost no_float = { changes_have_none };
}
