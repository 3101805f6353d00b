//! What an HTTP request asks for, and the reply to each outcome.
//!
//! `question_of` answers what a method and a target ask for; `sender_of` who sends a command, by
//! its head; `command_in` the command that a sender's form makes. Each function `.._reply` makes
//! the reply to one kind of outcome: its status, and its body whole in memory, as JSON (RFC 8259)
//! or as lines of text; the text of a look-up is its bytes alone, and the refusal of a method has no
//! body. JSON is compact, with the keys of each object in bytewise order; each line of a text
//! ends with a line feed. Nothing here asks a registry.

mod changes;
mod command;
mod early;
mod field_values;
mod format;
mod http_status;
mod items;
mod list;
mod lookup;
mod members;
mod outcome;
mod pending;
mod question;
mod rank;
mod registry_status;
mod remarks;
mod reply;
mod request;
mod route_table;
mod router;
mod sender;
mod shown;
mod submission;
mod submissions;
mod text;

pub use command::command_in;
pub use early::{RefusedEarly, Unasked, early_reply};
pub use format::Format;
pub use items::item_reply;
pub(crate) use list::list_reply;
pub use lookup::lookup_reply;
pub use outcome::{missing_reply, outcome_reply, refusal_reply};
pub use question::Question;
pub use rank::rank_reply;
pub use request::{Request, question_of};
pub use route_table::{Pages, Payload, ROUTES, Route, Topic, Whole};
pub use router::Routes;
pub use sender::{Sender, sender_of};
pub(crate) use shown::found_reply;
pub use submission::submission_reply;
