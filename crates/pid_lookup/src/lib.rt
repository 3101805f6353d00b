//! Look-ups: the texts that libpci's `pci_lookup_name` returns, over any holder of names.
#![tactic(auto)]

mod answer;
mod answering;
mod args;
mod asked;
mod asked_names;
mod cache_key;
mod cut;
mod digits;
mod fields;
mod find;
mod flags;
mod ide;
mod in_text;
pub mod laws;
mod layout;
mod name_cache;
mod names;
mod names_in_text;
mod tree_names;
mod unanswered;

pub use answer::{Answer, AnswerText};
pub use answering::{LookupRefusal, lookup};
pub use args::Args;
pub use fields::{BadField, args_of};
pub use in_text::lookup_in;
pub use name_cache::{CAPACITY, NameCache};
pub use names::Names;
pub use tree_names::TreeNames;
pub use unanswered::Unanswered;
