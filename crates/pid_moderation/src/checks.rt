//! The tests that commands are checked by.
ghost use Rattle.std.specs.Prelude.{◌≡◌, true};
ghost use Rattle.pid_file.specs.Bytes.{is_empty as no_bytes};
ghost use Rattle.pid_moderation.specs.CheckTables.{
  is_pending as stands_pending,
  is_removal as removal,
};
ghost use Rattle.pid_moderation.specs.CheckTables.{
  is_changed as changed_since,
  is_ill_formed as ill_formed,
  is_broken as broken_act,
  TellsLength,
  first_failing,
};
ghost use Rattle.pid_moderation.specs.Ranks.{has_rank as rank_reaches, is_rank as rank_equals};
ghost use Rattle.pid_moderation.specs.History.{Reading, asked, deed_of};
ghost use Rattle.pid_moderation.specs.Judgement.{judge, Refused};
ghost use Rattle.pid_moderation.specs.Views.{Views};
ghost use Rattle.pid_moderation.specs.Items.{has_name as names_so};

use crate::command::{Act, Command, Expected, Proposal};
use crate::facts::{Facts, State};
use crate::rank::Rank;
use crate::refusal::Refusal;
use pid_ident::{Name, Text};

/// Items that a registry holds at most, and entries of a file.
pub const ITEMS: u32 = 100_000;

/// Submissions that a registry holds at most.
pub const SUBMISSIONS: u32 = 2_000_000_000;

/// Remarks on one submission at most.
pub const REMARKS: u32 = 1_000_000;

/// The highest revision of a registry.
pub const REVISIONS: u64 = 9_000_000_000_000_000_000;

/// Bytes that a file to be imported has at most.
pub const FILE_BYTES: usize = 4_194_304;

/// The refusal of the first check that fails.
#[tactic(auto, using(crate::proofs::FirstFailing::skips, crate::proofs::FirstFailing::stops))]
pub fn failing(checks: &[(bool, Refusal)]) -> Option<Refusal>
    ensures { result ≡ first_failing checks.now }
{
    for check in checks {
        if check.0 {
            return Some(check.1);
        }
    }
    None
}

/// Whether the rank is this one or a higher one.
pub fn has_rank(needed: Rank, rank: Option<Rank>) -> bool
    ensures { result ≡ rank_reaches needed rank }
{
    match rank {
        Some(rank) => needed.number() <= rank.number(),
        None => false,
    }
}

/// Whether the rank is this one.
pub fn is_rank(wanted: Rank, rank: Option<Rank>) -> bool
    ensures { result ≡ rank_equals wanted rank }
{
    match rank {
        Some(rank) => wanted == rank,
        None => false,
    }
}

/// Whether nothing is decided yet.
pub fn is_pending(state: &State) -> bool
    ensures { result ≡ stands_pending state.now }
{
    match state {
        State::Pending => true,
        State::Approved { .. } => false,
        State::Rejected { .. } => false,
        State::Withdrawn => false,
    }
}

/// Whether a removal is proposed.
pub fn is_removal(proposal: &Proposal) -> bool
    ensures { result ≡ removal proposal.now }
{
    match proposal {
        Proposal::Name(_) => false,
        Proposal::Removal => true,
    }
}

/// Whether the item has this name.
pub fn is_named_so(name: &Name, present: &Option<Name>) -> bool
    ensures { result ≡ names_so name.now present.now }
{
    match present {
        Some(present) => name == present,
        None => false,
    }
}

/// Whether the item is not as an approval expects.
pub fn is_changed(expected: &Expected, present: &Option<Name>) -> bool
    ensures { result ≡ changed_since expected.now present.now }
{
    match expected {
        Expected::Anything => false,
        Expected::Absent => present.is_some(),
        Expected::Named(name) => !is_named_so(name, present),
    }
}

/// Whether the text is empty.
pub fn is_empty_text(text: &Text) -> bool
    ensures { result ≡ no_bytes text.now }
{
    matches!(text.as_str().as_bytes(), [])
}

/// Whether a command breaks a rule that its type does not keep: an empty comment or reason, or a
/// file too long. Of an import the facts have what its file comes to: nothing if it is too long.
pub fn is_ill_formed(facts: &Facts, act: &Act) -> bool
    ensures { (reading : Reading) → result ≡ ill_formed facts.now (deed_of act.now reading) }
{
    match act {
        Act::Comment { text, .. } => is_empty_text(text),
        Act::Reject { reason, .. } => is_empty_text(reason),
        Act::Import { .. } => facts.file.is_none(),
        Act::Account { .. } => false,
        Act::Submit { .. } => false,
        Act::Withdraw { .. } => false,
        Act::Approve { .. } => false,
    }
}

/// Whether a command breaks a rule of form that its type does not keep, whatever the registry
/// holds: an empty comment or reason, or a file that is too long. It is refused as `BadText`,
/// before any kept reply.
pub fn breaks_form(command: &Command) -> bool
    ensures broken { result ≡ broken_act command.now.act }
    ensures refused { (v : Views) (reading : Reading) → TellsLength command.now.act reading
        → result ≡ true →
        judge v (asked command.now reading) ≡ Refused Refusal.BadText }
{
    match &command.act {
        Act::Comment { text, .. } => is_empty_text(text),
        Act::Reject { reason: text, .. } => is_empty_text(text),
        Act::Import { file } => FILE_BYTES < file.as_bytes().len(),
        Act::Account { .. } => false,
        Act::Submit { .. } => false,
        Act::Withdraw { .. } => false,
        Act::Approve { .. } => false,
    }
}
