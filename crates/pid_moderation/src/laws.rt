//! Laws of the definitions. Each is the contract of a function that does nothing.
ghost use Rattle.std.specs.Prelude.{◌≡◌, ◌≢◌, ◌≤◌, ◌+◌, ℕ, List, None, Some, length};
ghost use Rattle.std.specs.FinMap.{get, entries};
ghost use Rattle.pid_moderation.specs.declared.command.Reply.{Reply};
ghost use Rattle.pid_moderation.specs.History.{
  Asked,
  History,
  Reading,
  accepted_in,
  asked,
  accepted_count,
  mark_of,
};
ghost use Rattle.pid_moderation.specs.CheckTables.{most_revision};
ghost use Rattle.pid_moderation.specs.Items.{name_at};
ghost use Rattle.pid_moderation.specs.Judgement.{Accepts, after, after_all, answers, judge};
ghost use Rattle.pid_moderation.specs.Laws.{
  HistoriesAreSound,
  KeysStandOnce,
  ItemsAreSorted,
  RemarksGoOn,
  RevisionsAreWithin,
  TreesAreFiles,
  ViewsTellStatus,
};
ghost use Rattle.pid_moderation.specs.Revisions.{IsMarked, taken_over, with_mark};
ghost use Rattle.pid_moderation.specs.Views.{
  items_of,
  revision_of,
  since_of,
  views_of,
  without_numbers,
};
ghost use Rattle.pid_moderation.specs.WellMade.{HasGoodFile, IsWellMade};
ghost use Rattle.pid_moderation.specs.Writes.{tree_of, last_written, writes_of};

use crate::command::{Act, Command, Proposal};
use crate::lists::PAGE;

/// Every history that commands lead to has a tree of names, an administrator, submissions of
/// accounts, deciders other than authors, remarks of accounts, limits that are kept, and the reply
/// to each command under a key.
pub fn histories_are_sound()
    ensures { HistoriesAreSound }
{}

/// Of the commands of an account under a key at most one is in a history, whatever the commands
/// are.
pub fn keys_stand_once()
    ensures { KeysStandOnce }
{}

/// The tree of a history has at each path the name of its last write; its entries are the items.
pub fn trees_are_last_writes()
    ensures names { (h : History) (path : List ℕ)
        → get (tree_of h) path ≡ last_written path (writes_of h) }
    ensures entries { (h : History) → entries (tree_of h) ≡ items_of h }
{}

/// The status of a history is the one that its views say, and they say no other.
pub fn views_tell_status()
    ensures { ViewsTellStatus }
{}

/// The items of a history are in the order of their paths.
pub fn items_are_sorted()
    ensures { ItemsAreSorted }
{}

/// A tree of names is what a file may read to.
pub fn trees_are_files()
    ensures { TreesAreFiles }
{}

/// The mark of a history stays, whatever is asked.
pub fn marks_stay()
    ensures mark { (h : History) (commands : List Asked)
        → mark_of (after_all h commands) ≡ mark_of h }
    // As many commands as it says were accepted, also later.
    ensures marked { (h : History) (commands : List Asked) → IsMarked h
        → IsMarked (after_all h commands) }
{}

/// What is shown except for the numbers of changes does not depend on the mark, nor, while the
/// revision is below its limit, what is answered: the same commands are accepted from any
/// beginning.
pub fn marks_judge_nothing()
    ensures mark { (mark : ℕ) (h : History) → mark_of (with_mark mark h) ≡ mark }
    ensures accepted { (mark : ℕ) (h : History) → accepted_in (with_mark mark h) ≡ accepted_in h }
    ensures views { (mark : ℕ) (h : History)
        → without_numbers (views_of (with_mark mark h)) ≡ without_numbers (views_of h) }
    ensures after { (mark : ℕ) (h : History) (commands : List Asked)
        → accepted_count h + length commands ≤ most_revision
        → after_all (with_mark mark h) commands ≡ with_mark mark (after_all h commands) }
    ensures answers { (mark : ℕ) (h : History) (commands : List Asked)
        → accepted_count h + length commands ≤ most_revision
        → answers (with_mark mark h) commands ≡ answers h commands }
{}

/// A file that is upgraded shows what it showed. Its revision begins at 0, and nothing in it has
/// changed yet.
pub fn taken_files_begin_anew()
    ensures views { (h : History) → without_numbers (views_of (taken_over h))
        ≡ without_numbers (views_of h) }
    ensures marked { (h : History) → IsMarked (taken_over h) }
    ensures revision { (h : History) → revision_of (taken_over h) ≡ 0 }
    ensures since { (h : History) (path : List ℕ) → since_of path (taken_over h) ≡ 0 }
{}

/// The revision counts the accepted commands from the mark on.
pub fn revisions_count()
    ensures accepted { (h : History) (c : Asked) (reply : Reply) → IsMarked h
        → judge (views_of h) c ≡ Accepts reply
        → revision_of (after h c) ≡ revision_of h + 1 }
    ensures grows { (h : History) (commands : List Asked)
        → revision_of h ≤ revision_of (after_all h commands) }
{}

/// The revision does not go beyond its limit, whatever is asked.
pub fn revisions_are_within()
    ensures { RevisionsAreWithin }
{}

/// The since of an item that is there is the revision at which it was added or renamed for the last
/// time, 0 if that was before the mark.
pub fn sinces_are_last_changes()
    ensures within { (h : History) (path : List ℕ) → since_of path h ≤ revision_of h }
    // Up to the mark nothing counts as changed.
    ensures at_mark { (h : History) (path : List ℕ) → accepted_count h ≤ mark_of h
        → since_of path h ≡ 0 }
    // A command that leaves the name leaves the since: also an import that has the same name.
    ensures kept { (h : History) (c : Asked) (path : List ℕ)
        → name_at path (items_of (after h c)) ≡ name_at path (items_of h)
        → since_of path (after h c) ≡ since_of path h }
    ensures removed { (h : History) (c : Asked) (path : List ℕ)
        → name_at path (items_of (after h c)) ≡ None
        → since_of path (after h c) ≡ since_of path h }
    // A name that was not there is as new as the command, also if the item had it before it was
    // removed.
    ensures given { (h : History) (c : Asked) (path name : List ℕ)
        → name_at path (items_of (after h c)) ≡ Some name
        → name_at path (items_of h) ≢ Some name
        → since_of path (after h c) ≡ revision_of (after h c) }
{}

/// An item that has not changed since an earlier revision had its name then: a mirror of that
/// revision needs the others alone. An item that was removed is in no list of changes; so who keeps
/// a copy of a file that was upgraded begins with all of its items.
pub fn mirrors_need_changes_alone()
    ensures { (h : History) (commands : List Asked) (path name : List ℕ) → IsMarked h
        → name_at path (items_of (after_all h commands)) ≡ Some name
        → since_of path (after_all h commands) ≤ revision_of h
        → name_at path (items_of h) ≡ Some name }
{}

/// A page holds at most a hundred submissions or items.
pub fn pages_hold_a_hundred()
    ensures { PAGE ≡ 100 }
{}

/// A page of remarks, and those after as many more as it has room for, are all that there are: pages
/// one after the other have each remark once, in their order.
pub fn remarks_go_on()
    ensures { RemarksGoOn }
{}

/// What the parts of a command keep by their types, where its file reads to a tree of names.
pub fn command_is_well_made(command: &Command)
    ensures { (reading : Reading) → HasGoodFile reading → IsWellMade (asked command.now reading) }
{
    let _account = command.account.as_str();
    if let Some(key) = &command.key {
        let _key = key.as_str();
    }
    match &command.act {
        Act::Account { who, .. } => {
            let _who = who.as_str();
        }
        Act::Submit {
            path,
            proposal,
            note,
        } => {
            let _parent = path.parent();
            let _note = note.as_str();
            if let Proposal::Name(name) = proposal {
                let _name = name.as_str();
            }
        }
        Act::Comment { text, .. } => {
            let _text = text.as_str();
        }
        Act::Reject { reason, .. } => {
            let _reason = reason.as_str();
        }
        Act::Withdraw { .. } | Act::Approve { .. } | Act::Import { .. } => {}
    }
}
