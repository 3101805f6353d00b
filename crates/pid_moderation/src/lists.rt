//! What lists and single questions answer of a registry: plain values.
use crate::command::Proposal;
use crate::facts::State;
use pid_ident::{Account, Name, Path, Text};

/// How many submissions or items a page holds.
pub const PAGE: usize = 100;

/// How many submissions one page of a search looks at.
pub const SEARCHED: usize = 10_000;

/// A path and the name of the item there.
#[derive(Drop)]
pub struct Item {
    pub path: Path,
    pub name: Name,
}

/// A submission as it stands. `author` proposed for `path` what `proposal` says.
#[derive(Drop)]
pub struct Submission {
    pub author: Account,
    pub path: Path,
    pub proposal: Proposal,
    pub note: Text,
    pub state: State,
}

/// A remark on a submission.
#[derive(Drop)]
pub struct Comment {
    pub author: Account,
    pub text: Text,
}

/// A pending submission and its number.
#[derive(Drop)]
pub struct Pending {
    pub number: u32,
    pub submission: Submission,
}

/// A submission as it stands, and the remarks on it in their order.
#[derive(Drop)]
pub struct Discussion {
    pub submission: Submission,
    pub remarks: Vec<Comment>,
}

/// A remark on a submission, and its place among them: 1 for the first.
#[derive(Drop)]
pub struct PlacedRemark {
    pub place: u32,
    pub remark: Comment,
}

/// A submission as it stands, its number, how many remarks it has, and some of them in their order.
#[derive(Drop)]
pub struct RemarkPage {
    pub number: u32,
    pub submission: Submission,
    pub count: u32,
    pub remarks: Vec<PlacedRemark>,
}

/// An item, and the number of the last change of its name.
#[derive(Drop)]
pub struct ChangedItem {
    pub path: Path,
    pub name: Name,
    pub since: u64,
}

/// Items that were added or renamed, and the revision of the registry at that moment.
#[derive(Drop)]
pub struct Changes {
    pub revision: u64,
    pub items: Vec<ChangedItem>,
}

/// A submission as it stands, its number, and how many remarks it has.
#[derive(Drop)]
pub struct Listed {
    pub number: u32,
    pub submission: Submission,
    pub remarks: u32,
}

/// Submissions that a search found, the latest first. The next page has those below `before`; 0
/// where there is none.
#[derive(Drop)]
pub struct SubmissionPage {
    pub before: u32,
    pub submissions: Vec<Listed>,
}

/// A pending submission and its number, the name that the path has today, and how many remarks it
/// has.
#[derive(Drop)]
pub struct Queued {
    pub number: u32,
    pub submission: Submission,
    pub now: Option<Name>,
    pub remarks: u32,
}

/// How many accounts, items and pending submissions a registry has, its revision, and how many
/// submissions were made in all.
#[derive(Drop)]
pub struct Status {
    pub accounts: u64,
    pub items: u32,
    pub pending: u32,
    pub revision: u64,
    pub submissions: u32,
}
