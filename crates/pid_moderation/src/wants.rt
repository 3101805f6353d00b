//! The rows that a command is judged by.
ghost use Rattle.std.specs.Prelude.{◌≡◌, false};
ghost use Rattle.pid_moderation.specs.History.{Reading, is_import, asked, deed_of};
ghost use Rattle.pid_moderation.specs.FactsOfViews.{wanted, facts_at, facts_of};
ghost use Rattle.pid_moderation.specs.Views.{Views};
ghost use Rattle.pid_moderation.specs.Wants.{wanted_by};

use crate::command::{Act, Command};
use pid_ident::Account;

/// The rows by which a command is judged, apart from its account's rank and kept reply.
#[derive(Clone, Copy)]
pub enum Rows<'a> {
    /// The rank of this account.
    Rank(&'a Account),
    /// How many submissions there are.
    Submissions,
    /// The submission with this number.
    Submission(u32),
    /// The submission with this number, and how many remarks it has.
    Remarks(u32),
    /// The submission with this number, and the item of its path.
    Item(u32),
    /// None: an import is judged by what its file comes to.
    Nothing,
}

/// The rows that are looked at.
pub fn needs(command: &Command) -> Rows<'_>
    ensures rows { (reading : Reading) → wanted_by result
        ≡ wanted (deed_of command.now.act reading) }
    // What they show is all that a command without a file is judged by.
    ensures suffice { (v : Views) (reading : Reading) → is_import command.now.act ≡ false →
        facts_of v (asked command.now reading)
        ≡ facts_at v command.now.account command.now.key (wanted_by result) }
{
    match &command.act {
        Act::Account { who, .. } => Rows::Rank(who),
        Act::Submit { .. } => Rows::Submissions,
        Act::Comment { number, .. } => Rows::Remarks(*number),
        Act::Withdraw { number } => Rows::Submission(*number),
        Act::Approve { number, .. } => Rows::Item(*number),
        Act::Reject { number, .. } => Rows::Submission(*number),
        Act::Import { .. } => Rows::Nothing,
    }
}
