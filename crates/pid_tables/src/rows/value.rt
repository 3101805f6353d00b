//! The values of a row as what they stand for. What breaks its rule is damage.
ghost use Rattle.std.specs.Prelude.{◌≡◌, ℕ, List, OnOk, IfOk, IfErr, MatchResult};
ghost use Rattle.std.specs.Str.{bytes_eq, is_utf8};
ghost use Rattle.sqlite.specs.declared.types.Value.TheVariants.{Text as TextValue};
ghost use Rattle.sqlite.specs.Order.{column};
ghost use Rattle.sqlite_value.specs.Value.{owned};
ghost use Rattle.pid_ident.specs.PathTexts.{IsPath, path_text};
ghost use Rattle.pid_ident.specs.Words.{
  is_name as name_rule,
  is_account as account_rule,
  is_text as text_rule,
};
ghost use Rattle.pid_moderation.specs.declared.rank.Rank.{Rank as RankValue};
ghost use Rattle.pid_moderation.specs.Ranks.{rank_number};
ghost use Rattle.pid_tables.specs.Rows.Faults.{IsMemoryOrStore};
ghost use Rattle.pid_tables.specs.Rows.Steps.Unread.{IsDamagedRow, IsWrongText, IsWholeNumber};
ghost use Rattle.pid_tables.specs.Rows.LabelRows.{IsNumber};
ghost use Rattle.pid_tables.specs.Rows.Steps.Unread.{
  IsWord,
  IsPathText,
  IsProposal,
  IsProposalOf,
  IsState,
  IsStateOf,
  IsReplyIn,
  IsReplyRow,
};
ghost use Rattle.pid_tables.specs.Rows.TableRows.{number};

use crate::rows::fault::TableFault;
use pid_ident::{Account, Name, NameText, Path, PathText, Text};
use pid_moderation::{Proposal, Rank, Reply, State};
use sqlite::Row;
use sqlite::types::ValueRef;
use std::alloc::Global;

/// The whole number below 2 to the 32 in a column, counted from 0. Any other value is `Damaged`.
pub fn number_at(row: &Row, at: usize) -> Result<u32, TableFault>
    ensures read { IfOk result (λ n. column row.now at ≡ number n) }
    ensures unread { IfErr result (IsDamagedRow (IsNumber (column row.now at))) }
{
    let number = row.get(at)?;
    Ok(number)
}

/// The whole number in a column, counted from 0. Any other value is `Damaged`.
pub fn whole_at(row: &Row, at: usize) -> Result<u64, TableFault>
    ensures read { IfOk result (λ n. column row.now at ≡ number n) }
    ensures unread { IfErr result (IsDamagedRow (IsWholeNumber (column row.now at))) }
{
    let whole = row.get(at)?;
    Ok(whole)
}

/// A number as SQLite holds it. One that 63 bits do not hold is refused with `Store`.
pub(crate) fn stored<'a>(whole: u64) -> Result<ValueRef<'a>, TableFault>
    ensures { MatchResult result (λ value. owned value ≡ number whole) IsMemoryOrStore }
{
    match i64::try_from(whole) {
        Ok(whole) => Ok(ValueRef::Int(whole)),
        Err(_) => Err(TableFault::Store),
    }
}

/// The text in a column, counted from 0, lent by the row. A value that is no text, or a text that
/// is not UTF-8, is `Damaged`.
pub fn text_at(row: &Row, at: usize) -> Result<&str, TableFault>
    ensures read { IfOk result (λ text. column row.now at ≡ TextValue text.now) }
    ensures unread { IfErr result (IsDamagedRow (IsWord is_utf8 (column row.now at))) }
{
    match row.get_ref(at)? {
        ValueRef::Text(bytes) => match str::from_utf8(bytes) {
            Ok(text) => Ok(text),
            Err(_) => Err(TableFault::Damaged),
        },
        _ => Err(TableFault::Damaged),
    }
}

/// Whether the text in a column, counted from 0, is this one, byte for byte. A value that is no
/// text is `Damaged`; the text need not be UTF-8.
pub fn is_text_at(row: &Row, at: usize, text: &str) -> Result<bool, TableFault>
    ensures read { IfOk result (λ is_it. (stored : List ℕ) × (column row.now at ≡ TextValue stored)
        × (is_it ≡ bytes_eq stored text.now)) }
    ensures no_text { IfErr result (IsWrongText
        ((stored : List ℕ) × (column row.now at ≡ TextValue stored))) }
{
    match row.get_ref(at)? {
        ValueRef::Text(bytes) => Ok(bytes == text.as_bytes()),
        _ => Err(TableFault::Damaged),
    }
}

pub(crate) fn name_at(row: &Row, alloc: Global, at: usize) -> Result<Name, TableFault>
    ensures read { IfOk result (λ name. column row.now at ≡ TextValue name) }
    ensures unread { IfErr result (IsDamagedRow (IsWord name_rule (column row.now at))) }
{
    let text = text_at(row, at)?;
    Ok(Name::of(alloc, text)?)
}

pub(crate) fn account_at(row: &Row, alloc: Global, at: usize) -> Result<Account, TableFault>
    ensures read { IfOk result (λ account. column row.now at ≡ TextValue account) }
    ensures unread { IfErr result (IsDamagedRow (IsWord account_rule (column row.now at))) }
{
    let text = text_at(row, at)?;
    Ok(Account::of(alloc, text)?)
}

pub(crate) fn words_at(row: &Row, alloc: Global, at: usize) -> Result<Text, TableFault>
    ensures read { IfOk result (λ words. column row.now at ≡ TextValue words) }
    ensures unread { IfErr result (IsDamagedRow (IsWord text_rule (column row.now at))) }
{
    let text = text_at(row, at)?;
    Ok(Text::of(alloc, text)?)
}

/// The path whose text is in a column, counted from 0. Any other value is `Damaged`.
pub fn path_at(row: &Row, at: usize) -> Result<Path, TableFault>
    ensures read { IfOk result (λ path. IsPath path
        × (column row.now at ≡ TextValue (path_text path))) }
    ensures unread { IfErr result (IsDamagedRow (IsPathText (column row.now at))) }
{
    let text = text_at(row, at)?;
    match Path::parse(text) {
        Some(path) => Ok(path),
        None => Err(TableFault::Damaged),
    }
}

pub(crate) fn rank_at(row: &Row, at: usize) -> Result<Rank, TableFault>
    ensures read { IfOk result (λ rank. column row.now at ≡ number (rank_number rank)) }
    ensures unread { IfErr result (IsDamagedRow
        ((rank : RankValue) × (column row.now at ≡ number (rank_number rank)))) }
{
    match number_at(row, at)? {
        0 => Ok(Rank::Contributor),
        1 => Ok(Rank::Moderator),
        2 => Ok(Rank::Senior),
        3 => Ok(Rank::Administrator),
        _ => Err(TableFault::Damaged),
    }
}

// The value is this text.
fn check_text(row: &Row, at: usize, text: &str) -> Result<(), TableFault>
    ensures read { OnOk result (column row.now at ≡ TextValue text.now) }
    ensures other { IfErr result (IsWrongText (column row.now at ≡ TextValue text.now)) }
{
    if is_text_at(row, at, text)? {
        Ok(())
    } else {
        Err(TableFault::Damaged)
    }
}

/// A proposal by its form and its name.
pub(crate) fn proposal_at(
    row: &Row,
    alloc: Global,
    form: usize,
    name: usize,
) -> Result<Proposal, TableFault>
    ensures read { IfOk result (IsProposalOf (column row.now form) (column row.now name)) }
    ensures unread { IfErr result (IsDamagedRow
        (IsProposal (column row.now form) (column row.now name))) }
{
    match number_at(row, form)? {
        0 => Ok(Proposal::Name(name_at(row, alloc, name)?)),
        1 => {
            check_text(row, name, "")?;
            Ok(Proposal::Removal)
        }
        _ => Err(TableFault::Damaged),
    }
}

/// A state by its number in the first column, its decider in the next and its reason in the one
/// after.
pub(crate) fn state_at(row: &Row, alloc: Global, author: &Account) -> Result<State, TableFault>
    ensures read { IfOk result
        (IsStateOf author.now (column row.now 5) (column row.now 6) (column row.now 7)) }
    ensures unread { IfErr result (IsDamagedRow
        (IsState author.now (column row.now 5) (column row.now 6) (column row.now 7))) }
{
    match number_at(row, 5)? {
        0 => {
            check_text(row, 6, "")?;
            check_text(row, 7, "")?;
            Ok(State::Pending)
        }
        1 => {
            check_text(row, 7, "")?;
            Ok(State::Approved {
                decider: account_at(row, alloc, 6)?,
            })
        }
        2 => {
            let decider = account_at(row, alloc, 6)?;
            let reason = words_at(row, alloc, 7)?;
            Ok(State::Rejected { decider, reason })
        }
        3 => {
            check_text(row, 6, author.as_str())?;
            check_text(row, 7, "")?;
            Ok(State::Withdrawn)
        }
        _ => Err(TableFault::Damaged),
    }
}

/// A reply by its kind and its three numbers.
pub(crate) fn reply_at(row: &Row) -> Result<Reply, TableFault>
    ensures read { IfOk result (IsReplyIn row.now) }
    ensures unread { IfErr result (IsDamagedRow (IsReplyRow row.now)) }
{
    let kind = number_at(row, 0)?;
    let a = number_at(row, 1)?;
    let b = number_at(row, 2)?;
    let c = number_at(row, 3)?;
    match (kind, a, b, c) {
        (0, 0, 0, 0) => Ok(Reply::Done),
        (1, number, 0, 0) => Ok(Reply::Numbered(number)),
        (2, added, renamed, same) => Ok(Reply::Counts {
            added,
            renamed,
            same,
        }),
        _ => Err(TableFault::Damaged),
    }
}
