//! Refusals of commands.
ghost use Rattle.std.specs.Prelude.{◌≡◌};
ghost use Rattle.pid_moderation.specs.declared.refusal.Refusal.TheVariants as variants;

use pid_ident::LineKind;
use std::alloc::AllocError;
use std::fmt::{self, Display, Formatter, Write};
use thiserror::Error;

/// Why a file is not imported.
#[derive(Clone, Copy, Debug)]
pub enum FileFault {
    /// The first faulty line, counted from 1, and what is wrong with it.
    Line { line: u64, kind: LineKind },
    /// The file has more entries than a registry holds.
    TooMany,
}

/// Why a command is not accepted. A refused command changes nothing.
#[derive(Clone, Copy, Debug, Error)]
pub enum Refusal {
    BadPath,
    BadName,
    BadText,
    NoAccount,
    RankTooLow,
    NoSubmission,
    NotPending,
    NotAuthor,
    OwnDecision,
    ParentMissing,
    HasChildren,
    NothingToDo,
    FileFault(FileFault),
    Full,
    Memory,
    Store,
    Failed,
    Changed,
}

impl Refusal {
    ghost use Rattle.pid_moderation.specs.Refusals.{refusal_number, refusal_word};

    /// The number in replies. No refusal has the number 6.
    pub fn number(self) -> u8
        ensures { result ≡ refusal_number self }
    {
        match self {
            Refusal::BadPath => 1,
            Refusal::BadName => 2,
            Refusal::BadText => 3,
            Refusal::NoAccount => 4,
            Refusal::RankTooLow => 5,
            Refusal::NoSubmission => 7,
            Refusal::NotPending => 8,
            Refusal::NotAuthor => 9,
            Refusal::OwnDecision => 10,
            Refusal::ParentMissing => 11,
            Refusal::HasChildren => 12,
            Refusal::NothingToDo => 13,
            Refusal::FileFault(_) => 14,
            Refusal::Full => 15,
            Refusal::Memory => 16,
            Refusal::Store => 17,
            Refusal::Failed => 18,
            Refusal::Changed => 30,
        }
    }

    /// The word in replies.
    pub fn word(self) -> &'static str
        ensures { result.now ≡ refusal_word self }
    {
        match self {
            Refusal::BadPath => "BadPath",
            Refusal::BadName => "BadName",
            Refusal::BadText => "BadText",
            Refusal::NoAccount => "NoAccount",
            Refusal::RankTooLow => "RankTooLow",
            Refusal::NoSubmission => "NoSubmission",
            Refusal::NotPending => "NotPending",
            Refusal::NotAuthor => "NotAuthor",
            Refusal::OwnDecision => "OwnDecision",
            Refusal::ParentMissing => "ParentMissing",
            Refusal::HasChildren => "HasChildren",
            Refusal::NothingToDo => "NothingToDo",
            Refusal::FileFault(_) => "FileFault",
            Refusal::Full => "Full",
            Refusal::Memory => "Memory",
            Refusal::Store => "Store",
            Refusal::Failed => "Failed",
            Refusal::Changed => "Changed",
        }
    }

    // What it says to a reader.
    fn sentence(self) -> &'static str {
        match self {
            Refusal::BadPath => "a path that is no path text",
            Refusal::BadName => "a name that is no name of an item",
            Refusal::BadText => "a field that is missing, unknown, there twice, or out of its rule",
            Refusal::NoAccount => "the account is not known",
            Refusal::RankTooLow => "the account's rank is too low",
            Refusal::NoSubmission => "no submission has this number",
            Refusal::NotPending => "the submission is not pending",
            Refusal::NotAuthor => "the account is not the author of the submission",
            Refusal::OwnDecision => "nobody decides on his own submission or sets his own rank",
            Refusal::ParentMissing => "the parent of the path is not in the registry",
            Refusal::HasChildren => "an item of the registry has the path as its parent",
            Refusal::NothingToDo => "all is as proposed already",
            Refusal::FileFault(_) => "the file is faulty",
            Refusal::Full => "a limit of the registry is reached",
            Refusal::Memory => "no memory",
            Refusal::Store => "the store failed",
            Refusal::Failed => "the registry has failed earlier",
            Refusal::Changed => "the item is not as expected any more",
        }
    }
}

// By hand: what the derive writes is proved once for each of the 18 refusals.
impl Display for Refusal {
    fn fmt<W: Write>(&self, f: &mut Formatter<W>) -> fmt::Result {
        f.write_str(self.sentence())
    }
}

impl From<AllocError> for Refusal {
    ghost from_gives = { λ _ e. e ≡ variants.Memory };

    fn from(_error: AllocError) -> Refusal {
        Refusal::Memory
    }
}
