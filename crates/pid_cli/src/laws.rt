//! The crash prefix, for the files that a program is given. Each law is the contract of a function
//! that does nothing.
//!
//! A run opens the files by `open` of its `Host`, and the call of its job is a session on them. So
//! what a run leaves are databases (`calls_leave_databases`; `tables_leave_databases` if it opened no
//! registry), the next one finds one of them (`files_show_what_was_left`), and shows the history
//! after a prefix of the commands of each run before (`runs_show_prefixes`).
ghost use Rattle.pid_cli.specs.Files.{
  CallsLeaveDatabases,
  FilesShowWhatWasLeft,
  RunsShowPrefixes,
  TablesLeaveDatabases,
};

use pid_ident::Output;
use pid_service::Registry;
use pid_tables::{Database, WritableDatabase};
use sqlite::{Connection, FileStore};
use sqlite_disk::Disk;

type FileConnection<D> = Connection<FileStore<D>>;

/// What a stop leaves of a registry, after any calls, is a database.
pub fn calls_leave_databases<C: WritableDatabase + Drop>()
    ensures { CallsLeaveDatabases C.Database }
{
    pid_service_laws::calls_make_a_session::<Registry<C>>(); // proof only
}

/// What a stop leaves of a connection whose tables show a history is a database too: after a
/// migration, and after an opening that failed (`pid_service::histories_are_kept`).
pub fn tables_leave_databases<C: Database>()
    ensures { TablesLeaveDatabases C.Database }
{}

/// The next run on the files of an earlier one finds what a stop, at any place of it, or its closing
/// left, if nobody else wrote to them and the earlier disk returned what was written. Each run has a
/// store of its own, over what the files held as it began.
pub fn files_show_what_was_left<D: Disk + Drop, E: Disk + Drop>()
    ensures { FilesShowWhatWasLeft ⟦<FileConnection<D> as Database>⟧
        ⟦<FileConnection<E> as Database>⟧ }
{}

/// Run by run: the registry that is opened on what an earlier one left, wherever that stopped, and
/// whatever openings failed since, shows the history after a prefix of the commands of each run
/// before it, which holds every acknowledged one. What it exports and looks up is of that history's
/// tree (`pid_service::openings_tell_prefixes`). Openings that fail in between are over stores of the
/// next run; of one over a store of its own `pid_service::histories_are_kept_between` speaks.
pub fn runs_show_prefixes<C: Database + Drop, D: Database + Drop, O: Output>()
    ensures { RunsShowPrefixes C.Database D.Database O.Output }
{
    pid_service::laws::openings_tell_prefixes::<C, D, O>(); // proof only
}
