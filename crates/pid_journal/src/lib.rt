//! A registry with a journal in front of it: each command is safe in a file of its own before it is
//! judged.
//!
//! A journal is a script. It has the line of each command, in the order in which commands are
//! judged, below a comment with the time and with what the registry holds before it. A mark, which is
//! a comment with what the registry holds then and an empty line, says that the command above it has
//! ended: what comes before it is never cut off again. The script is in segments, each named by the
//! revision at which it begins. `open_journal` puts the folder of these in front of a registry, which
//! obeys the lines that it does not have.
//!
//! `Journaled` is a registry under moderation, so scripts are run over it as over any other;
//! questions and exports go past the journal. `laws` says to which history a journal leads.
//!
//! An entry is read back before it is written. So it never says another command than the one that
//! is obeyed; that each kind of command has an entry is tested.
#![tactic(auto)]

mod catching_up;
mod composing;
mod counts;
mod entry;
mod file;
mod folder;
mod following;
mod importing;
mod journaled;
pub mod laws;
mod marking;
mod obeying;
mod open_fault;
mod opened;
mod opening;
mod placing;
mod registry_calls;
mod registry_queries;
mod reopening;
mod sameness;
mod segment_text;
mod segments;
mod status_counts;
mod unaccepted;

pub use file::JournalFile;
pub use folder::JournalFolder;
pub use journaled::Journaled;
pub use open_fault::OpenFault;
pub use opened::Opened;
pub use opening::open_journal;
