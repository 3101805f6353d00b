//! What an accepted command does to the registry.
use crate::command::{Proposal, Reply};
use crate::facts::State;
use crate::rank::Rank;
use pid_ident::{Account, Key, Name, Path, Text};

/// A reply that is kept under a key. No reply is kept under it yet.
#[derive(Drop)]
pub struct Receipt {
    pub account: Account,
    pub key: Key,
    pub reply: Reply,
}

/// What becomes of the item of a path.
#[derive(Drop)]
pub enum Edit {
    /// There is no item yet.
    Add(Name),
    /// There is an item, of another name.
    Rename(Name),
    /// There is an item.
    Remove,
}

/// An item that is added, renamed or removed.
#[derive(Drop)]
pub struct Write {
    pub path: Path,
    pub edit: Edit,
    /// How many items there are afterwards.
    pub items: u32,
}

/// What becomes of ranks, submissions, remarks and items.
#[derive(Drop)]
pub enum Effect {
    /// None of these changes.
    Nothing,
    /// An account gets a rank; `is_new` if it is not there yet.
    Ranked {
        who: Account,
        rank: Rank,
        is_new: bool,
    },
    /// A new submission, whose number is how many there are with it.
    Submitted {
        number: u32,
        author: Account,
        path: Path,
        proposal: Proposal,
        note: Text,
    },
    /// A new remark on a submission; `place` is how many it has with it.
    Remarked {
        number: u32,
        place: u32,
        author: Account,
        text: Text,
    },
    /// A pending submission gets a state, and if it is approved the item of its path is written.
    Decided {
        number: u32,
        state: State,
        write: Option<Write>,
    },
    /// The items of a file, which are written already; `items` is how many there are with them.
    Imported {
        items: u32,
    },
}

/// What an accepted command does. A kept reply does nothing.
#[derive(Drop)]
pub struct Change {
    pub effect: Effect,
    /// The reply that is kept from now on, if the command has a key.
    pub receipt: Option<Receipt>,
    /// The revision that it leads to; for a kept reply the one that is.
    pub revision: u64,
}
