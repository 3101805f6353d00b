//! The judgement of a command by facts.
ghost use Rattle.std.specs.Prelude.{
  ◌≡◌,
  ◌≢◌,
  ℕ,
  ◌+◌,
  false,
  true,
  List,
  [],
  ◌∷◌,
  Option,
  Some,
  None,
  IfOk,
  IfErr,
  IfSome,
  IfNone,
  is_none,
};
ghost use Rattle.pid_moderation.specs.History.{
  Reading,
  History,
  asked,
  deed_of,
  Ranks,
  Submits,
  Comments,
  Withdraws,
  Approves,
  Rejects,
  Imports,
};
ghost use Rattle.pid_moderation.specs.Views.{Views, views_of};
ghost use Rattle.pid_moderation.specs.FactsOfViews.{NoRows, facts_at, facts_of};
ghost use Rattle.pid_moderation.specs.CheckTables.{
  checks as checks_for,
  command_checks,
  revision_checks,
  first_failing as first_that_fails,
  later_checks,
  decision_checks,
  item_checks,
  approval_checks,
  import_checks,
  file_checks,
  overflows as one_too_many,
  reply_by_facts,
  import_reply,
};
ghost use Rattle.pid_moderation.specs.BeforeFile.{SettlesImport, WaitsForFile};
ghost use Rattle.pid_moderation.specs.Effects.{
  AnswersByJudgement,
  change_of,
  import_effect,
  edit_of,
  items_after,
  write_of,
  Decides,
  LeadsOn,
  FitsHistory,
  receipt_of,
};
ghost use Rattle.pid_moderation.specs.Steps.Following.{FollowsChecks, Settles};
ghost use Rattle.pid_moderation.specs.Revisions.{IsMarked};

use crate::change::{Change, Edit, Effect, Receipt, Write};
use crate::checks::{
    ITEMS, REMARKS, REVISIONS, SUBMISSIONS, failing, has_rank, is_changed, is_ill_formed,
    is_named_so, is_pending, is_rank, is_removal,
};
use crate::command::{Act, Command, Expected, Proposal, Reply};
use crate::facts::{Facts, NamedSubmission, State, Verdict};
use crate::rank::{Rank, needed_rank};
use crate::refusal::Refusal;
use pid_ident::{Account, Name, NameText, Path, Text};
use std::alloc::AllocError;

// What is refused if no submission has the number.
fn absent(facts: &Facts) -> Refusal
    ensures { first_that_fails ((is_none facts.now.rank, Refusal.NoAccount)
        ∷ (true, Refusal.NoSubmission) ∷ []) ≡ Some result }
{
    if facts.rank.is_none() {
        Refusal::NoAccount
    } else {
        Refusal::NoSubmission
    }
}

// A text and the account that it comes from, once more.
fn signed(account: &Account, text: &Text) -> Result<(Account, Text), AllocError>
    ensures { IfOk result (λ copy. copy ≡ (account.now, text.now)) }
{
    let account = account.copy()?;
    let text = text.copy()?;
    Ok((account, text))
}

fn set_rank(
    facts: &Facts,
    account: &Account,
    who: &Account,
    rank: Rank,
) -> Result<(Effect, Reply), Refusal>
    ensures { Settles facts.now account.now (Ranks who.now rank) result }
{
    let refused = failing(&[
        (facts.rank.is_none(), Refusal::NoAccount),
        (
            !has_rank(Rank::Administrator, facts.rank),
            Refusal::RankTooLow,
        ),
        (account == who, Refusal::OwnDecision),
        (is_rank(rank, facts.who), Refusal::NothingToDo),
    ]);
    if let Some(refusal) = refused {
        return Err(refusal);
    }
    let who = who.copy()?;
    let is_new = facts.who.is_none();
    Ok((Effect::Ranked { who, rank, is_new }, Reply::Done))
}

fn submit(
    facts: &Facts,
    account: &Account,
    path: &Path,
    proposal: &Proposal,
    note: &Text,
) -> Result<(Effect, Reply), Refusal>
    ensures { Settles facts.now account.now (Submits path.now proposal.now note.now) result }
{
    let refused = failing(&[
        (facts.rank.is_none(), Refusal::NoAccount),
        (SUBMISSIONS <= facts.submissions, Refusal::Full),
    ]);
    if let Some(refusal) = refused {
        return Err(refusal);
    }
    let number = facts.submissions + 1;
    let proposal = proposal.copy()?;
    let (author, note) = signed(account, note)?;
    let effect = Effect::Submitted {
        number,
        author,
        path: *path,
        proposal,
        note,
    };
    Ok((effect, Reply::Numbered(number)))
}

fn comment(
    facts: &Facts,
    account: &Account,
    number: u32,
    text: &Text,
) -> Result<(Effect, Reply), Refusal>
    ensures { Settles facts.now account.now (Comments number text.now) result }
{
    if facts.named.is_none() {
        return Err(absent(facts));
    }
    let refused = failing(&[
        (facts.rank.is_none(), Refusal::NoAccount),
        (REMARKS <= facts.remarks, Refusal::Full),
    ]);
    if let Some(refusal) = refused {
        return Err(refusal);
    }
    let (author, text) = signed(account, text)?;
    let effect = Effect::Remarked {
        number,
        place: facts.remarks + 1,
        author,
        text,
    };
    Ok((effect, Reply::Done))
}

fn withdraw(facts: &Facts, account: &Account, number: u32) -> Result<(Effect, Reply), Refusal>
    ensures { Settles facts.now account.now (Withdraws number) result }
{
    let Some(named) = &facts.named else {
        return Err(absent(facts));
    };
    let refused = failing(&[
        (facts.rank.is_none(), Refusal::NoAccount),
        (*account != named.author, Refusal::NotAuthor),
        (!is_pending(&named.state), Refusal::NotPending),
    ]);
    if let Some(refusal) = refused {
        return Err(refusal);
    }
    let effect = Effect::Decided {
        number,
        state: State::Withdrawn,
        write: None,
    };
    Ok((effect, Reply::Done))
}

// What a decision on a submission that is there is refused for.
fn decision_refusal(facts: &Facts, account: &Account, named: &NamedSubmission) -> Option<Refusal>
    ensures { result ≡ first_that_fails ((is_none facts.now.rank, Refusal.NoAccount) ∷
        decision_checks account.now facts.now.rank named.now) }
{
    let needed = needed_rank(&named.path, is_removal(&named.proposal));
    failing(&[
        (facts.rank.is_none(), Refusal::NoAccount),
        (!is_pending(&named.state), Refusal::NotPending),
        (!has_rank(needed, facts.rank), Refusal::RankTooLow),
        (*account == named.author, Refusal::OwnDecision),
    ])
}

// What an approval is refused for: the item is not as it expects, or what it writes is not new or
// breaks the tree.
fn write_refusal(facts: &Facts, expected: &Expected, named: &NamedSubmission) -> Option<Refusal>
    ensures { result ≡ first_that_fails (item_checks facts.now expected.now named.now) }
{
    let changed = (is_changed(expected, &facts.present), Refusal::Changed);
    match &named.proposal {
        Proposal::Name(name) => failing(&[
            changed,
            (is_named_so(name, &facts.present), Refusal::NothingToDo),
            (!facts.has_parent, Refusal::ParentMissing),
            (
                facts.present.is_none() && ITEMS <= facts.items,
                Refusal::Full,
            ),
        ]),
        Proposal::Removal => failing(&[
            changed,
            (facts.present.is_none(), Refusal::NothingToDo),
            (facts.has_children, Refusal::HasChildren),
        ]),
    }
}

fn write(facts: &Facts, named: &NamedSubmission) -> Result<Write, AllocError>
    requires { one_too_many named.now.proposal facts.now.present facts.now.items ≡ false }
    ensures { IfOk result (λ w. w ≡ write_of facts.now named.now) }
{
    let (edit, items) = match &named.proposal {
        Proposal::Name(name) => match &facts.present {
            Some(_) => (Edit::Rename(name.copy()?), facts.items),
            None => {
                if ITEMS <= facts.items {
                    unreachable!();
                }
                (Edit::Add(name.copy()?), facts.items + 1)
            }
        },
        Proposal::Removal => (Edit::Remove, facts.items.saturating_sub(1)),
    };
    Ok(Write {
        path: named.path,
        edit,
        items,
    })
}

fn approve(
    facts: &Facts,
    account: &Account,
    number: u32,
    expected: &Expected,
) -> Result<(Effect, Reply), Refusal>
    ensures { Settles facts.now account.now (Approves number expected.now) result }
{
    let Some(named) = &facts.named else {
        return Err(absent(facts));
    };
    let refused = decision_refusal(facts, account, named).or(write_refusal(facts, expected, named));
    if let Some(refusal) = refused {
        return Err(refusal);
    }
    let decider = account.copy()?;
    let write = Some(write(facts, named)?);
    Ok((
        Effect::Decided {
            number,
            state: State::Approved { decider },
            write,
        },
        Reply::Done,
    ))
}

fn reject(
    facts: &Facts,
    account: &Account,
    number: u32,
    reason: &Text,
) -> Result<(Effect, Reply), Refusal>
    ensures { Settles facts.now account.now (Rejects number reason.now) result }
{
    let Some(named) = &facts.named else {
        return Err(absent(facts));
    };
    if let Some(refusal) = decision_refusal(facts, account, named) {
        return Err(refusal);
    }
    let (decider, reason) = signed(account, reason)?;
    let effect = Effect::Decided {
        number,
        state: State::Rejected { decider, reason },
        write: None,
    };
    Ok((effect, Reply::Done))
}

// What an import is refused for, whatever its file comes to.
#[tactic(auto, using(crate::proofs::NeverFailed::early_live))]
fn import_refusal(facts: &Facts) -> Option<Refusal>
    ensures first { result ≡ first_that_fails
        ((is_none facts.now.rank, Refusal.NoAccount) ∷ import_checks facts.now) }
    ensures alive { IfSome result (λ e. e ≢ Refusal.Failed) }
{
    if facts.rank.is_none() {
        return Some(Refusal::NoAccount);
    }
    if has_rank(Rank::Senior, facts.rank) {
        None
    } else {
        Some(Refusal::RankTooLow)
    }
}

fn import(facts: &Facts) -> Result<(Effect, Reply), Refusal>
    ensures { (reading : Reading) (account : List ℕ)
        → Settles facts.now account (Imports reading) result }
{
    if let Some(refusal) = import_refusal(facts) {
        return Err(refusal);
    }
    match facts.file {
        Some(
            Verdict::Good {
                added,
                renamed,
                same,
                items,
            },
        ) => {
            if ITEMS < items {
                return Err(Refusal::Full);
            }
            let reply = Reply::Counts {
                added,
                renamed,
                same,
            };
            Ok((Effect::Imported { items }, reply))
        }
        Some(Verdict::Faulty(fault)) => Err(Refusal::FileFault(fault)),
        None => Err(Refusal::BadText),
    }
}

/// What an import is answered before its file is read: the reply that is kept for it, or a refusal
/// that no file changes but one that is too long. None if it depends on the file.
pub fn before_file(facts: &Facts) -> Option<Result<Reply, Refusal>>
    // Whatever the file reads to, that is the answer, and the import changes nothing.
    ensures settled { (h : History) (account : List ℕ) (key : Option (List ℕ))
        → facts.now ≡ facts_at (views_of h) account key NoRows
        → IfSome result (SettlesImport h account key) }
    // None if there is no kept reply, and no check before those of the file fails.
    ensures open { IfNone result (WaitsForFile facts.now) }
    // Whatever the facts are.
    ensures alive { IfSome result (λ r. IfErr r (λ e. e ≢ Refusal.Failed)) }
{
    if let Some(kept) = facts.kept {
        return Some(Ok(kept));
    }
    match import_refusal(facts) {
        Some(refusal) => Some(Err(refusal)),
        None => None,
    }
}

// The effect and the reply of a command that breaks no rule of form, and is new.
fn effect(facts: &Facts, command: &Command) -> Result<(Effect, Reply), Refusal>
    ensures { (reading : Reading) → let c = asked command.now reading in
        Settles facts.now c.account c.deed result }
{
    let account = &command.account;
    match &command.act {
        Act::Account { who, rank } => set_rank(facts, account, who, *rank),
        Act::Submit {
            path,
            proposal,
            note,
        } => submit(facts, account, path, proposal, note),
        Act::Comment { number, text } => comment(facts, account, *number, text),
        Act::Withdraw { number } => withdraw(facts, account, *number),
        Act::Approve { number, expected } => approve(facts, account, *number, expected),
        Act::Reject { number, reason } => reject(facts, account, *number, reason),
        Act::Import { .. } => import(facts),
    }
}

// The number of one command more, and the receipt of its reply.
fn count(facts: &Facts, command: &Command, reply: Reply) -> Result<(u64, Option<Receipt>), Refusal>
    ensures { FollowsChecks (revision_checks facts.now)
        (facts.now.revision + 1, receipt_of command.now.account command.now.key reply) result }
{
    if REVISIONS <= facts.revision {
        return Err(Refusal::Full);
    }
    let revision = facts.revision + 1;
    let Some(key) = &command.key else {
        return Ok((revision, None));
    };
    let account = command.account.copy()?;
    let key = key.copy()?;
    let receipt = Receipt {
        account,
        key,
        reply,
    };
    Ok((revision, Some(receipt)))
}

// What a command that breaks no rule of form, and is new, changes, and its reply.
fn accept(facts: &Facts, command: &Command) -> Result<(Change, Reply), Refusal>
    ensures { (reading : Reading) → let c = asked command.now reading in FollowsChecks
        (checks_for facts.now c) (
          change_of facts.now c (reply_by_facts facts.now c.deed),
          reply_by_facts facts.now c.deed,
        ) result }
{
    let (effect, reply) = effect(facts, command)?;
    match count(facts, command, reply) {
        Ok((revision, receipt)) => {
            let change = Change {
                effect,
                receipt,
                revision,
            };
            Ok((change, reply))
        }
        Err(refusal) => {
            drop(effect);
            Err(refusal)
        }
    }
}

// The outcome by the facts, and what it changes.
fn by_facts(facts: &Facts, command: &Command) -> Result<(Change, Reply), Refusal>
    ensures { (reading : Reading) → Decides facts.now (asked command.now reading) result }
{
    if is_ill_formed(facts, &command.act) {
        return Err(Refusal::BadText);
    }
    if let Some(reply) = facts.kept {
        return Ok((
            Change {
                effect: Effect::Nothing,
                receipt: None,
                revision: facts.revision,
            },
            reply,
        ));
    }
    accept(facts, command)
}

/// Judges a command by the facts of a history: the reply with what it changes, or the first check
/// that fails.
pub fn decide(facts: &Facts, command: &Command) -> Result<(Change, Reply), Refusal>
    // The reply is that of the judgement, and so is the refusal, unless it is out of memory.
    ensures answers { (v : Views) (reading : Reading)
        → facts.now ≡ facts_of v (asked command.now reading)
        → AnswersByJudgement v (asked command.now reading) result }
    // The change leads from what a history shows to what it shows with the command.
    ensures change { (h : History) (reading : Reading) → IsMarked h
        → facts.now ≡ facts_of (views_of h) (asked command.now reading)
        → IfOk result (λ d. LeadsOn h (asked command.now reading) d.0) }
    // The numbers are right: storage knows of each row whether it is there, and where a new one
    // goes.
    ensures fits { (h : History) (reading : Reading)
        → facts.now ≡ facts_of (views_of h) (asked command.now reading)
        → IfOk result (λ d. FitsHistory h (asked command.now reading) d.0) }
    // And what the facts say is all of the change.
    ensures decides { (reading : Reading) → Decides facts.now (asked command.now reading) result }
    // Only a registry that has failed is refused as failed.
    ensures alive { IfErr result (λ e. e ≢ Refusal.Failed) }
{
    by_facts(facts, command)
}
