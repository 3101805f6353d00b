//! Commands and replies.
ghost use Rattle.std.specs.Prelude.{◌≡◌, IfOk};

use crate::rank::Rank;
use pid_ident::{Account, Key, Name, NameText, Path, Text};
use std::alloc::AllocError;
use std::marker::Model;

/// What a submission proposes for its path: a name, which adds or renames the item, or its removal.
#[derive(Drop)]
pub enum Proposal {
    Name(Name),
    Removal,
}

impl Proposal {
    /// The same proposal once more.
    pub fn copy(&self) -> Result<Proposal, AllocError>
        ensures { IfOk result (λ proposal. proposal ≡ self.now) }
    {
        match self {
            Proposal::Name(name) => Ok(Proposal::Name(name.copy()?)),
            Proposal::Removal => Ok(Proposal::Removal),
        }
    }
}

/// What an approval expects of the item at the submission's path.
#[derive(Drop)]
pub enum Expected {
    /// Whatever it is.
    Anything,
    /// That there is none.
    Absent,
    /// That it has this name.
    Named(Name),
}

/// The bytes of a file that is to be imported, of any length.
#[derive(Drop)]
pub struct File {
    bytes: Vec<u8>,
}

impl Model for File {
    ghost use Rattle.std.specs.Prelude.{ℕ, List};

    ghost Value = { List ℕ };

    ghost view = { λ file. file.bytes.items };
}

impl File {
    /// The file of these bytes, with no copy.
    pub fn new(bytes: Vec<u8>) -> File
        ensures { result ≡ bytes.items }
    {
        File { bytes }
    }

    /// The bytes of the file.
    pub fn as_bytes(&self) -> &[u8]
        ensures { result.now ≡ self.now }
    {
        self.bytes.as_slice()
    }
}

/// What a command asks for.
#[derive(Drop)]
pub enum Act {
    /// Sets the rank of an account, and adds the account if it is new.
    Account {
        who: Account,
        rank: Rank,
    },
    /// Proposes a name for a path, or its removal. The note may be empty.
    Submit {
        path: Path,
        proposal: Proposal,
        note: Text,
    },
    /// Adds a remark, which is not empty, to a submission.
    Comment {
        number: u32,
        text: Text,
    },
    /// Takes back a submission of the account itself.
    Withdraw {
        number: u32,
    },
    /// Approves a submission: what it proposes is done, if the item is as expected.
    Approve {
        number: u32,
        expected: Expected,
    },
    /// Rejects a submission for a reason, which is not empty.
    Reject {
        number: u32,
        reason: Text,
    },
    /// Sets the name of each path of a file.
    Import {
        file: File,
    },
}

/// What an account asks of the registry. Under a key it is obeyed once.
#[derive(Drop)]
pub struct Command {
    pub account: Account,
    pub key: Option<Key>,
    pub act: Act,
}

/// What an accepted command is answered.
#[derive(Clone, Copy)]
pub enum Reply {
    /// There is no more to say.
    Done,
    /// The number of the new submission.
    Numbered(u32),
    /// How many paths of the file were new, got another name, and had their names already.
    Counts { added: u32, renamed: u32, same: u32 },
}
