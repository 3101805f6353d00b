//! Commands of the registry and the policy that judges them: who may do what, and what comes of it.
#![tactic(auto)]

mod change;
mod checks;
mod command;
mod facts;
mod fields;
mod form;
pub mod laws;
mod lists;
mod policy;
mod rank;
mod refusal;
mod reply_lines;
mod verb;
mod wants;

pub use change::{Change, Edit, Effect, Receipt, Write};
pub use checks::{FILE_BYTES, ITEMS, REMARKS, REVISIONS, SUBMISSIONS, breaks_form};
pub use command::{Act, Command, Expected, File, Proposal, Reply};
pub use facts::{Facts, NamedSubmission, State, Verdict};
pub use fields::submission_number;
pub use form::command_of;
pub use laws::{
    command_is_well_made, histories_are_sound, items_are_sorted, keys_stand_once,
    marks_judge_nothing, marks_stay, revisions_are_within, revisions_count,
    sinces_are_last_changes, taken_files_begin_anew, trees_are_files, trees_are_last_writes,
    views_tell_status,
};
pub use lists::{
    ChangedItem, Changes, Comment, Discussion, Item, Listed, PAGE, Pending, PlacedRemark, Queued,
    RemarkPage, SEARCHED, Status, Submission, SubmissionPage,
};
pub use policy::{before_file, decide};
pub use rank::{Rank, needed_rank};
pub use refusal::{FileFault, Refusal};
pub use reply_lines::{reply_line, write_reply_line};
pub use verb::Verb;
pub use wants::{Rows, needs};
