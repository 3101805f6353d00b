//! Replies with items.
ghost use Rattle.std.specs.Prelude.{◌≡◌, ℕ, List, refl, IfOk};
ghost use Rattle.pid_ident.specs.PathTexts.{path_text};
ghost use Rattle.pid_moderation.specs.ItemPairs.{pair_of};
ghost use Rattle.serde_json.specs.View.{view};
ghost use Rattle.pid_http.specs.Api.ItemAnswers.{item_answer, item_data, child_line};
ghost use Rattle.pid_http.specs.Api.Replying.{MakesReply};

use crate::api::Format;
use crate::api::members::{object_of, with_path, with_text};
use crate::api::reply::{json_reply, reply_with};
use crate::api::shown::Shown;
use crate::api::text::push_line;
use http::StatusCode;
use pid_http_stream::{Content, HttpReply};
use pid_ident::{Name, Path, PathText};
use pid_moderation::Item;
use serde_json::{Map, Value};
use std::alloc::{AllocError, Global};

fn item_value(alloc: Global, path: &Path, name: &Name) -> Result<Value, AllocError>
    ensures { IfOk result (λ value. view value ≡ item_data (path_text path.now, name.now)) }
{
    let members = with_text(Ok(Map::new(alloc)), alloc, "name", name.as_str());
    let members = with_path(members, alloc, path);
    object_of(members)
}

/// The reply with an item. The text is its name.
pub fn item_reply(
    alloc: Global,
    format: Format,
    path: &Path,
    name: &Name,
) -> Result<HttpReply, AllocError>
    ensures { MakesReply result (item_answer format (path_text path.now, name.now)) }
{
    match format {
        Format::Json => {
            let value = item_value(alloc, path, name)?;
            json_reply(alloc, StatusCode::OK, value)
        }
        Format::Text => {
            let mut text = String::from_str(alloc, name.as_str())?;
            text.push_str("\n")?;
            Ok(reply_with(StatusCode::OK, Content::Text, text.into_bytes()))
        }
    }
}

// The line has its path, a space and its name.
impl Shown for Item {
    ghost Seen = { List ℕ × List ℕ };

    ghost seen = { pair_of };

    ghost json = { item_data };

    ghost lines = { child_line };

    fn value(&self, alloc: Global) -> Result<Value, AllocError> {
        item_value(alloc, &self.path, &self.name)
    }

    fn push_text(&self, alloc: Global, text: &mut String) -> Result<(), AllocError> {
        let path = self.path.path_text(alloc)?;
        push_line(text, path.as_str(), self.name.as_str())
    }

    ghost no_float = { λ _. refl };
}
