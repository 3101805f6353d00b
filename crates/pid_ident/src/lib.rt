//! Accounts, keys and other words of a registry, with the values of a file: what every layer speaks
//! of.
#![tactic(auto)]

mod account;
mod incoming;
mod key;
pub mod laws;
mod name_text;
mod path_text;
mod text;
mod word_fault;

pub use account::{Account, is_account};
pub use incoming::Incoming;
pub use key::{Key, is_key};
pub use laws::{parents_have_texts, texts_have_one_path};
pub use name_text::NameText;
pub use path_text::PathText;
pub use pid_file::{
    Id8, Id16, Input, LineKind, Name, Output, Path, Plain, ReadFault, WriteFault, hex2, hex4,
    is_name, write_all, write_parts,
};
pub use text::{Text, is_text};
pub use word_fault::WordFault;
