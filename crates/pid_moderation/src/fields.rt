//! The values of a command's fields.
ghost use Rattle.std.specs.Prelude.{◌≡◌, ◌≢◌, true, false, nat_le, length, IfOk, IfErr};
ghost use Rattle.std.specs.Option.{option_copied};
ghost use Rattle.pid_file.specs.Words.{
  is_account as account_test,
  is_name as name_test,
  is_text as text_test,
  is_key as key_test,
};
ghost use Rattle.pid_moderation.specs.Forms.{
  rank_in,
  number_in,
  is_remark as remark_test,
  is_none_or,
  is_name_or_empty,
  expected_in,
};
ghost use Rattle.pid_moderation.specs.CheckTables.{most_file_bytes as file_bytes};

use crate::checks::{FILE_BYTES, SUBMISSIONS};
use crate::command::{Expected, File};
use crate::rank::Rank;
use crate::refusal::Refusal;
use pid_form::number_up_to;
use pid_ident::{Account, Key, Name, NameText, Text, WordFault};
use std::alloc::Global;

/// The rank with the number `0` to `3`.
pub fn rank_said(text: &str) -> Option<Rank>
    ensures { result ≡ rank_in text.now }
{
    match text {
        "0" => Some(Rank::Contributor),
        "1" => Some(Rank::Moderator),
        "2" => Some(Rank::Senior),
        "3" => Some(Rank::Administrator),
        _ => None,
    }
}

/// The number of a submission, 1 to the greatest one.
pub fn submission_number(text: &str) -> Option<u32>
    ensures { result ≡ number_in text.now }
{
    match number_up_to(text, SUBMISSIONS as u64, 10) {
        Some(number) => Some(number as u32),
        None => None,
    }
}

fn refusal_of(fault: WordFault, bad: Refusal) -> Refusal
    ensures memory { fault ≡ WordFault.Memory → result ≡ Refusal.Memory }
    ensures bad { fault ≡ WordFault.Bad → result ≡ bad }
{
    match fault {
        WordFault::Memory => Refusal::Memory,
        WordFault::Bad => bad,
    }
}

/// The name of an account; or `BadText`, or `Memory`.
pub fn account_in(alloc: Global, text: &str) -> Result<Account, Refusal>
    ensures ok { IfOk result (λ word. (word ≡ text.now) × (account_test text.now ≡ true)) }
    ensures err { IfErr result (λ e. e ≢ Refusal.Memory → (e ≡ Refusal.BadText) ×
        (account_test text.now ≡ false)) }
{
    match Account::of(alloc, text) {
        Ok(word) => Ok(word),
        Err(fault) => Err(refusal_of(fault, Refusal::BadText)),
    }
}

/// A key, if there is one; or `BadText`, or `Memory`.
pub fn key_in(alloc: Global, text: Option<&str>) -> Result<Option<Key>, Refusal>
    ensures ok { IfOk result (λ word. (word ≡ option_copied text.entry) ×
        (is_none_or key_test (option_copied text.entry) ≡ true)) }
    ensures err { IfErr result (λ e. e ≢ Refusal.Memory → (e ≡ Refusal.BadText) ×
        (is_none_or key_test (option_copied text.entry) ≡ false)) }
{
    let Some(text) = text else {
        return Ok(None);
    };
    match Key::of(alloc, text) {
        Ok(word) => Ok(Some(word)),
        Err(fault) => Err(refusal_of(fault, Refusal::BadText)),
    }
}

/// A name of an item; or `BadName`, or `Memory`.
pub fn name_in(alloc: Global, text: &str) -> Result<Name, Refusal>
    ensures ok { IfOk result (λ word. (word ≡ text.now) × (name_test text.now ≡ true)) }
    ensures err { IfErr result (λ e. e ≢ Refusal.Memory → (e ≡ Refusal.BadName) ×
        (name_test text.now ≡ false)) }
{
    match Name::of(alloc, text) {
        Ok(word) => Ok(word),
        Err(fault) => Err(refusal_of(fault, Refusal::BadName)),
    }
}

/// What an approval expects: a name, or no item if the text is empty; or `BadText`, or `Memory`.
pub fn expected_said(alloc: Global, text: &str) -> Result<Expected, Refusal>
    ensures ok { IfOk result (λ expected. (expected ≡ expected_in text.now)
        × (is_name_or_empty text.now ≡ true)) }
    ensures err { IfErr result (λ e. e ≢ Refusal.Memory → (e ≡ Refusal.BadText) ×
        (is_name_or_empty text.now ≡ false)) }
{
    if text.is_empty() {
        return Ok(Expected::Absent);
    }
    match Name::of(alloc, text) {
        Ok(name) => Ok(Expected::Named(name)),
        Err(fault) => Err(refusal_of(fault, Refusal::BadText)),
    }
}

/// A note, which may be empty; or `BadText`, or `Memory`.
pub fn note_in(alloc: Global, text: &str) -> Result<Text, Refusal>
    ensures ok { IfOk result (λ word. (word ≡ text.now) × (text_test text.now ≡ true)) }
    ensures err { IfErr result (λ e. e ≢ Refusal.Memory → (e ≡ Refusal.BadText) ×
        (text_test text.now ≡ false)) }
{
    match Text::of(alloc, text) {
        Ok(word) => Ok(word),
        Err(fault) => Err(refusal_of(fault, Refusal::BadText)),
    }
}

/// A comment or a reason, which is not empty; or `BadText`, or `Memory`.
pub fn remark_in(alloc: Global, text: &str) -> Result<Text, Refusal>
    ensures ok { IfOk result (λ word. (word ≡ text.now) × (remark_test text.now ≡ true)) }
    ensures err { IfErr result (λ e. e ≢ Refusal.Memory → (e ≡ Refusal.BadText) ×
        (remark_test text.now ≡ false)) }
{
    if text.is_empty() {
        return Err(Refusal::BadText);
    }
    note_in(alloc, text)
}

/// A file; or `BadText` if it is too long, or `Memory`.
pub fn file_in(alloc: Global, text: &str) -> Result<File, Refusal>
    ensures ok { IfOk result (λ file. (file ≡ text.now)
        × (nat_le (length text.now) file_bytes ≡ true)) }
    ensures err { IfErr result (λ e. e ≢ Refusal.Memory → (e ≡ Refusal.BadText) ×
        (nat_le (length text.now) file_bytes ≡ false)) }
{
    if FILE_BYTES < text.len() {
        return Err(Refusal::BadText);
    }
    let bytes = Vec::from_slice(alloc, text.as_bytes())?;
    Ok(File::new(bytes))
}
