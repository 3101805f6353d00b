//! Laws of journals. Each is the contract of a function that does nothing.
ghost use Rattle.pid_journal.specs.Laws.{EntriesAreAnswered, StopsLeaveTheWay};

/// As a script, run on a copy of the registry as it was where the journal begins, its text answers
/// what the commands were answered: each entry the reply to its command, and a mark nothing. A
/// comment asks nothing.
pub fn entries_are_answered()
    ensures { EntriesAreAnswered }
{}

/// What a stop leaves of a journal of segments can be resumed, also where the registry is an earlier
/// copy of itself, or gone: what it shows is on the way, which is all that an opening asks. So from
/// opening to opening, whatever stops came, the registry shows the history of all lines.
///
/// Where a command is in doubt, the whole lines lead to the history before it or to the one after
/// it, however much of its entry is left.
pub fn stops_leave_the_way()
    ensures { StopsLeaveTheWay }
{}
