//! Laws of the definitions. Each is the contract of a function that does nothing.
ghost use Rattle.pid_tables.specs.Lists.Laws.{
  PendingGoOn,
  PendingPagesJoin,
  PendingPagesAreAll,
  ChangesGoOn,
  ChangePagesJoin,
  ChangePagesAreAll,
};
ghost use Rattle.pid_tables.specs.Lists.Laws.{SubmissionPagesAreAll, SubmissionsGoOn};

/// The next page of pending submissions, asked after the last number of a page, begins with what
/// that page left out.
pub fn pending_go_on()
    ensures next { PendingGoOn }
    // Pages one after the other are the whole list from its start: each submission once, in the
    // order of the numbers.
    ensures joined { PendingPagesJoin }
    ensures whole { PendingPagesAreAll }
{}

/// The next page of changes, asked after the last path of a page, begins with what that page left
/// out, while the items are in the order of their paths, as those of every history are.
pub fn changes_go_on()
    ensures next { ChangesGoOn }
    // Pages one after the other are the whole list from its start: each item once, in the canonical
    // order of the paths.
    ensures joined { ChangePagesJoin }
    ensures whole { ChangePagesAreAll }
{}

/// A page of the submissions that are sought, and what is sought below the number that it names,
/// are all that is sought; where it names 0, nothing is left.
pub fn submissions_go_on()
    ensures next { SubmissionsGoOn }
    // Pages one below the other, each asked with the number that the one before names, are the
    // whole list: each submission that is sought once, the latest first.
    ensures whole { SubmissionPagesAreAll }
{}
