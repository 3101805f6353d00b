//! What is known of the registry when a command is judged.
use crate::command::{Proposal, Reply};
use crate::rank::Rank;
use crate::refusal::FileFault;
use pid_ident::{Account, Name, Path, Text};

/// Whether a submission is pending, or how it ended.
#[derive(Drop)]
pub enum State {
    Pending,
    Approved { decider: Account },
    Rejected { decider: Account, reason: Text },
    Withdrawn,
}

/// The submission that a command names.
#[derive(Drop)]
pub struct NamedSubmission {
    pub author: Account,
    pub path: Path,
    pub proposal: Proposal,
    pub state: State,
}

/// What a file that is not too long comes to.
#[derive(Clone, Copy)]
pub enum Verdict {
    /// How many of its paths are new, get another name, and have their names already; and how many
    /// items there are then.
    Good {
        added: u32,
        renamed: u32,
        same: u32,
        items: u32,
    },
    /// Why it is not imported.
    Faulty(FileFault),
}

/// What a command is judged by. What it does not look at is None, 0 or false.
#[derive(Drop)]
pub struct Facts {
    /// The rank of the account that sent the command; None of one that is not known.
    pub rank: Option<Rank>,
    /// The reply that is kept for this account under the command's key.
    pub kept: Option<Reply>,
    /// How many commands were accepted since the registry began to count.
    pub revision: u64,
    /// The rank of the account whose rank is to be set; None if it is new.
    pub who: Option<Rank>,
    /// How many submissions there are, if one more is to be made.
    pub submissions: u32,
    /// How many items there are, if a submission is to be approved.
    pub items: u32,
    /// The submission with the command's number; None if there is none.
    pub named: Option<NamedSubmission>,
    /// How many remarks that submission has, if one more is to be made.
    pub remarks: u32,
    /// The name at the path of the submission that is to be approved.
    pub present: Option<Name>,
    /// Whether the parent of that path is there, or the path has none.
    pub has_parent: bool,
    /// Whether that path is the parent of an item.
    pub has_children: bool,
    /// What the file of an import comes to. For `before_file` it is None, since the file is not
    /// read yet; for `decide` it is None if the file is too long, and of every other command.
    pub file: Option<Verdict>,
}
