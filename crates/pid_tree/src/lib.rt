//! A tree of names by their paths: its items one by one, and its canonical text.
#![tactic(auto)]

mod children;
pub mod laws;
mod refusal;
mod tree_items;

pub use laws::labels_are_of_paths;
pub use pid_file::{
    Tree, opened_block, write_after, write_block, write_canonical, write_header, write_item,
};
pub use refusal::TreeRefusal;
pub use tree_items::TreeItems;
