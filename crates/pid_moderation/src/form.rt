//! Commands from their fields.
ghost use Rattle.std.specs.Prelude.{◌≡◌, ◌≢◌, ◌&&◌, ◌==◌, ◌+◌, nat_le, true, false, codes};
ghost use Rattle.std.specs.Prelude.{IfOk, IfErr, None, Some, length};
ghost use Rattle.pid_file.specs.Words.{is_name as name_test, is_text as text_test};
ghost use Rattle.std.specs.Str.{bytes_eq};
ghost use Rattle.std.specs.Option.{option_copied};
ghost use Rattle.pid_moderation.specs.Fields.{
  texts_of,
  is_once as once_in,
  value as value_in,
  text_at as text_in,
};
ghost use Rattle.pid_moderation.specs.Forms.{
  has_fields as fields_there,
  value_checks,
  sender_checks,
  act_said,
  form_checks,
  command_said,
  proposal_in,
  is_none_or,
};
ghost use Rattle.pid_moderation.specs.Forms.{number_in, SaysByChecks};
ghost use Rattle.pid_moderation.specs.Steps.Following.{FollowsChecks};

use crate::command::{Act, Command, Expected, Proposal};
use crate::fields::{
    account_in, expected_said, file_in, key_in, name_in, note_in, rank_said, remark_in,
    submission_number,
};
use crate::refusal::Refusal;
use crate::verb::Verb;
use pid_form::{is_once, is_one_of, text_at, times, value};
use pid_ident::{Account, Key, Path, PathText, Text};
use std::alloc::Global;

fn has_fields(verb: Verb, fields: &[(String, String)]) -> bool
    ensures { result ≡ fields_there verb (texts_of fields.now) }
{
    match verb {
        Verb::Account => has_two(fields, "who", "rank"),
        Verb::Submit => {
            is_once(fields, "path")
                && is_one_of(fields, "name", "remove")
                && has_submit_count(fields.len(), times(fields, "note"))
        }
        Verb::Comment => has_two(fields, "num", "text"),
        Verb::Withdraw => has_one(fields, "num"),
        Verb::Approve => has_one(fields, "num"),
        Verb::Confirm => has_two(fields, "num", "was"),
        Verb::Reject => has_two(fields, "num", "reason"),
        Verb::Import => has_one(fields, "file"),
    }
}

// Whether these are the fields, each once, and there are no others.
fn has_two(fields: &[(String, String)], name: &str, other: &str) -> bool
    ensures { result ≡ (once_in name.now (texts_of fields.now)
        && once_in other.now (texts_of fields.now) && length (texts_of fields.now) == 2) }
{
    is_once(fields, name) && is_once(fields, other) && fields.len() == 2
}

// Whether this is the one field.
fn has_one(fields: &[(String, String)], name: &str) -> bool
    ensures { result ≡ (once_in name.now (texts_of fields.now)
        && length (texts_of fields.now) == 1) }
{
    is_once(fields, name) && fields.len() == 1
}

// Whether a submission has two fields, or three of which one is its note.
fn has_submit_count(count: usize, notes: usize) -> bool
    ensures { result ≡ (nat_le notes 1 && count == 2 + notes) }
{
    match notes {
        0 => count == 2,
        1 => count == 3,
        _ => false,
    }
}

fn number_at(fields: &[(String, String)]) -> Result<u32, Refusal>
    ensures ok { IfOk result (λ n. number_in (text_in (codes "num") (texts_of fields.now))
        ≡ Some n) }
    ensures err { IfErr result (λ e. (e ≡ Refusal.BadText) ×
        (number_in (text_in (codes "num") (texts_of fields.now)) ≡ None)) }
{
    match submission_number(text_at(fields, "num")) {
        Some(number) => Ok(number),
        None => Err(Refusal::BadText),
    }
}

fn account_act(alloc: Global, fields: &[(String, String)]) -> Result<Act, Refusal>
    ensures { SaysByChecks (value_checks Verb.Account (texts_of fields.now))
        (act_said Verb.Account (texts_of fields.now)) result }
{
    let Some(rank) = rank_said(text_at(fields, "rank")) else {
        return Err(Refusal::BadText);
    };
    let who = account_in(alloc, text_at(fields, "who"))?;
    Ok(Act::Account { who, rank })
}

// The name that is proposed, or the removal.
fn proposal(alloc: Global, fields: &[(String, String)]) -> Result<Proposal, Refusal>
    ensures ok { IfOk result (λ proposal.
        (proposal ≡ proposal_in (value_in (codes "name") (texts_of fields.now))) ×
        (is_none_or name_test (value_in (codes "name") (texts_of fields.now)) ≡ true)) }
    ensures err { IfErr result (λ e. e ≢ Refusal.Memory → (e ≡ Refusal.BadName) ×
        (is_none_or name_test (value_in (codes "name") (texts_of fields.now)) ≡ false)) }
{
    match value(fields, "name") {
        Some(name) => Ok(Proposal::Name(name_in(alloc, name)?)),
        None => Ok(Proposal::Removal),
    }
}

// The note of a submission whose removal, if there is one, is said by `yes`.
fn note(alloc: Global, fields: &[(String, String)]) -> Result<Text, Refusal>
    ensures ok { IfOk result (λ note. (note ≡ text_in (codes "note") (texts_of fields.now)) ×
        ((is_none_or (bytes_eq (codes "yes")) (value_in (codes "remove") (texts_of fields.now))
        ≡ true) ×
        (text_test (text_in (codes "note") (texts_of fields.now)) ≡ true))) }
    ensures err { IfErr result (λ e. e ≢ Refusal.Memory → (e ≡ Refusal.BadText) ×
        ((is_none_or (bytes_eq (codes "yes")) (value_in (codes "remove") (texts_of fields.now)) &&
        text_test (text_in (codes "note") (texts_of fields.now))) ≡ false)) }
{
    if let Some(word) = value(fields, "remove") {
        if "yes" != word {
            return Err(Refusal::BadText);
        }
    }
    note_in(alloc, text_at(fields, "note"))
}

fn submit_act(alloc: Global, fields: &[(String, String)]) -> Result<Act, Refusal>
    ensures { SaysByChecks (value_checks Verb.Submit (texts_of fields.now))
        (act_said Verb.Submit (texts_of fields.now)) result }
{
    let Some(path) = Path::parse(text_at(fields, "path")) else {
        return Err(Refusal::BadPath);
    };
    let proposal = proposal(alloc, fields)?;
    let note = note(alloc, fields)?;
    Ok(Act::Submit {
        path,
        proposal,
        note,
    })
}

fn comment_act(alloc: Global, fields: &[(String, String)]) -> Result<Act, Refusal>
    ensures { SaysByChecks (value_checks Verb.Comment (texts_of fields.now))
        (act_said Verb.Comment (texts_of fields.now)) result }
{
    let number = number_at(fields)?;
    let text = remark_in(alloc, text_at(fields, "text"))?;
    Ok(Act::Comment { number, text })
}

fn confirm_act(alloc: Global, fields: &[(String, String)]) -> Result<Act, Refusal>
    ensures { SaysByChecks (value_checks Verb.Confirm (texts_of fields.now))
        (act_said Verb.Confirm (texts_of fields.now)) result }
{
    let number = number_at(fields)?;
    let expected = expected_said(alloc, text_at(fields, "was"))?;
    Ok(Act::Approve { number, expected })
}

fn reject_act(alloc: Global, fields: &[(String, String)]) -> Result<Act, Refusal>
    ensures { SaysByChecks (value_checks Verb.Reject (texts_of fields.now))
        (act_said Verb.Reject (texts_of fields.now)) result }
{
    let number = number_at(fields)?;
    let reason = remark_in(alloc, text_at(fields, "reason"))?;
    Ok(Act::Reject { number, reason })
}

fn import_act(alloc: Global, fields: &[(String, String)]) -> Result<Act, Refusal>
    ensures { SaysByChecks (value_checks Verb.Import (texts_of fields.now))
        (act_said Verb.Import (texts_of fields.now)) result }
{
    let file = file_in(alloc, text_at(fields, "file"))?;
    Ok(Act::Import { file })
}

fn act(alloc: Global, verb: Verb, fields: &[(String, String)]) -> Result<Act, Refusal>
    ensures { SaysByChecks (value_checks verb (texts_of fields.now))
        (act_said verb (texts_of fields.now)) result }
{
    match verb {
        Verb::Account => account_act(alloc, fields),
        Verb::Submit => submit_act(alloc, fields),
        Verb::Comment => comment_act(alloc, fields),
        Verb::Withdraw => {
            let number = number_at(fields)?;
            Ok(Act::Withdraw { number })
        }
        Verb::Approve => {
            let number = number_at(fields)?;
            let expected = Expected::Anything;
            Ok(Act::Approve { number, expected })
        }
        Verb::Confirm => confirm_act(alloc, fields),
        Verb::Reject => reject_act(alloc, fields),
        Verb::Import => import_act(alloc, fields),
    }
}

// The account that sends a command, and its key.
fn sender(
    alloc: Global,
    account: &str,
    key: Option<&str>,
) -> Result<(Account, Option<Key>), Refusal>
    ensures { FollowsChecks (sender_checks account.now (option_copied key.entry))
        (account.now, option_copied key.entry) result }
{
    let account = account_in(alloc, account)?;
    let key = key_in(alloc, key)?;
    Ok((account, key))
}

/// The command of an account, under a key if there is one, that the fields say; or the first form
/// check that fails.
///
/// The fields are the names and values of a form, in any order: `who` and `rank` (`0` to `3`) of
/// `account`; `path`, one of `name` and `remove` (`yes`), and if wanted `note` of `submit`; `num`
/// and `text` of `comment`; `num` of `withdraw` and `approve`; `num` and `was`, a name or
/// empty, of `confirm`; `num` and `reason` of `reject`; `file` of `import`.
pub fn command_of(
    alloc: Global,
    verb: Verb,
    account: &str,
    key: Option<&str>,
    fields: &[(String, String)],
) -> Result<Command, Refusal>
    ensures { SaysByChecks
        (form_checks verb account.now (option_copied key.entry) (texts_of fields.now))
        (command_said verb account.now (option_copied key.entry) (texts_of fields.now)) result }
{
    if !has_fields(verb, fields) {
        return Err(Refusal::BadText);
    }
    let act = act(alloc, verb, fields)?;
    match sender(alloc, account, key) {
        Ok((account, key)) => Ok(Command { account, key, act }),
        Err(refusal) => {
            drop(act);
            Err(refusal)
        }
    }
}
