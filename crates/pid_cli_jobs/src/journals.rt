//! What the folder of a journal reports.
use pid_journal::JournalFolder;

/// The folder of a journal, which reports what is wrong with it.
pub trait ReportingFolder: JournalFolder {
    /// Called once an opening has ended, so that a program no longer says how far it is.
    fn end_replay(&mut self);

    /// Reports that the registry was given commands that the journal lacks.
    fn report_gap(&mut self);
}
