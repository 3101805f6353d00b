//! From the calls on registries to the crash prefix. Each law is the contract of a function that
//! does nothing of its own, and follows from the proofs of `pid_service_laws`, which hold of any
//! type of registries.
//!
//! The calls of a session each do what `clauses_meet_sessions` says of their clauses. From the end
//! of a session to the next opening leads `openings_find_histories`, over stops, failed openings
//! and migrations that come between (`histories_are_kept_between`), and into a store that may be of
//! another type. `first_openings_show_what_is_there` is of the first opening, and
//! `reopened_registries_show_prefixes` says what each opening shows; `openings_tell_prefixes` is
//! the headline.
ghost use Rattle.pid_service.specs.Headline.{OpeningsTellPrefixes};
ghost use Rattle.pid_service.specs.SessionLaws.{
  CallsMeetSessions,
  EarlierTablesShow,
  FirstOpenings,
  HistoriesAreKept,
  KeepsBetween,
  OpeningsShowAgain,
  ReopeningsShowPrefixes,
  RepeatsEndDoubts,
};

use pid_ident::Output;
use pid_tables::Database;

/// The clauses of a call say what a session asks of it.
///
/// `obeys` is of `obey` and `import`, `imports` of `import_from`, `runs` of `run`; the premises are
/// the facts `clean`, `failed`, and `obeyed` or `ran` of their contracts. Every other call `looks`:
/// `read`, `rank`, `children`, `submission`, `submissions`, `pending`, `queue`, `changes`,
/// `status`, `lookup`, `name_of`, `export` and `export_length`. A command is in doubt if its fault
/// left the registry failed; if the registry stayed live, the command counts as not sent.
pub fn clauses_meet_sessions<C: Database + Drop>()
    ensures { CallsMeetSessions C.Database }
{}

/// The first opening. A database without tables has what the history of a new registry shows, and
/// one that was just opened on tables has the history that they show, in whichever schema. The
/// registry that is opened there shows that history.
pub fn first_openings_show_what_is_there<C: Database + Drop>()
    ensures { FirstOpenings C.Database }
{}

/// A migration, or an opening that fails. The tables that a migration leaves show the history in
/// the schema of today. If either failed, the fault is `Memory` or `Store`, never damage or a later
/// schema, and the connection that comes back shows the same history: the call may be made again.
pub fn histories_are_kept<C: Database + Drop>()
    ensures { HistoriesAreKept C.Database }
{}

/// Tables of schema 1 keep no revision and no number of a change. Let a database be just opened on
/// tables that otherwise show a history: it has that history moved, with its mark after all its
/// commands. If that is reached (`taken_histories_are_reached`),
/// `first_openings_show_what_is_there` and `histories_are_kept` go on from there.
pub fn migrations_find_histories<C: Database + Drop>()
    ensures { EarlierTablesShow C.Database }
{}

/// From the end of a session to the next opening, which may be over another store: each process
/// has a store of its own.
///
/// After a stop a new connection finds what a crash may leave; a live registry that was closed
/// hands its own connection back. While the disk of that connection returns what was written,
/// either has the tables that the registry showed, or those of one of the two histories between
/// which it had failed, and a registry that is opened there shows them.
pub fn openings_find_histories<C: Database + Drop, D: Database + Drop>()
    ensures { OpeningsShowAgain C.Database D.Database }
{}

/// What keeps a history (a stop, a migration, an opening that fails) may come between the end of a
/// session and the next opening, as often as it likes: the tables are still what the registry
/// showed. Such an opening begins no session.
pub fn histories_are_kept_between<C: Database + Drop, D: Database + Drop, E: Database + Drop>()
    ensures { KeepsBetween C.Database D.Database E.Database }
{}

/// The crash prefix, session by session. Let the first registry show a history, that without
/// commands if it is new, and let each further one be opened on what the one before it left, after
/// any calls, over a stop at any place, a fault or a close. Then it shows the history after the
/// first one's and a prefix of the commands of each session, joined in order, which has every
/// acknowledged one. It has the mark of the first one, from which the revision and the numbers in
/// the tables are counted. The printed text of its tree reads back to that tree, and to no other.
///
/// That text is what `export` writes of a registry that shows the history, and `lookup` answers
/// over the same tree. All while the disk returns what was written.
pub fn reopened_registries_show_prefixes<C: Database + Drop, D: Database + Drop>()
    ensures { ReopeningsShowPrefixes C.Database D.Database }
{}

/// The headline: sessions on a registry lead to its end, which may be a stop anywhere; openings that
/// fail, migrations and further stops may follow. The registry that is opened next shows the
/// history after a prefix of the commands of each session, which holds every acknowledged one, and
/// whose tree its printed text reads back to, and to no other. A whole export of it writes that
/// text, and a look-up answers the text that the flags define over that tree. What is shown begins
/// the law again, one session later. All while the disk returns what was written.
pub fn openings_tell_prefixes<C: Database + Drop, D: Database + Drop, O: Output>()
    ensures { OpeningsTellPrefixes C.Database D.Database O.Output }
{}

/// A command under a key was in doubt as a registry failed, and after the next opening it is sent
/// again, as the first with an outcome. Then its outcome is that of the judgement before the doubt,
/// and the registry shows the history after the one command, whichever way the doubt went.
pub fn repeats_end_doubts<C: Database + Drop, D: Database + Drop>()
    ensures { RepeatsEndDoubts C.Database D.Database }
{}
