//! What the fields of a line say.
ghost use Rattle.std.specs.Prelude.{
  ◌≡◌,
  ◌≢◌,
  ◌↔◌,
  ◌&&◌,
  ◌==◌,
  ℕ,
  true,
  false,
  codes,
  find,
  count_by,
  string_bytes,
  length,
  nat_lt,
  slice_index,
  Option,
  Some,
  None,
  Ok,
  Err,
  MatchResult,
  IfOk,
  IfErr,
  IsErr,
};
ghost use Rattle.std.specs.Option.{option_copied, option_map};
ghost use Rattle.std.specs.List.{position_or_len, remove};
ghost use Rattle.std.specs.Str.{bytes_eq};
ghost use Rattle.form_urlencoded.specs.Form.{raw_pairs as pairs_in};
ghost use Rattle.pid_moderation.specs.Fields.{
  Fields,
  texts_of,
  value as value_in,
  is_once as once_in,
};
ghost use Rattle.pid_script.specs.Asking.{
  command_of_fields,
  command_in_form,
  other_fields,
  path_in as path_said,
  path_asked,
};

use form_urlencoded::raw_pairs;
use pid_form::{fields_of, is_once, text_at};
use pid_ident::{Path, PathText};
use pid_moderation::{Command, Refusal, Verb, command_of};
use std::alloc::Global;

// The most fields that a command has, its key among them.
const MOST_COMMAND_FIELDS: usize = 4;

/// Whether a form has more fields than so many; none of them is decoded for it.
pub fn has_more_fields(form: &str, most: usize) -> bool
    ensures { result ≡ nat_lt most (length (pairs_in form.now)) }
{
    raw_pairs(form.as_bytes()).nth(most).is_some()
}

// Takes the key out of the fields.
fn take_key(fields: &mut Vec<(String, String)>) -> Option<String>
    ensures key { option_map string_bytes result
        ≡ value_in (codes "key") (texts_of fields.old.items) }
    ensures others { texts_of fields.new.items ≡ other_fields (texts_of fields.old.items) }
{
    for place in 0..fields.len() {
        if fields[place].0.as_str() == "key" {
            let (_, key) = fields.remove(place);
            return Some(key);
        }
    }
    None
}

fn command_with(
    alloc: Global,
    verb: Verb,
    account: &str,
    key: &Option<String>,
    fields: &[(String, String)],
) -> Result<Command, Refusal>
    ensures ok { (all : Fields) → option_map string_bytes key.now ≡ value_in (codes "key") all
        → texts_of fields.now ≡ other_fields all
        → IfOk result (λ c. command_of_fields verb account.now all ≡ Ok c) }
    ensures err { (all : Fields) → option_map string_bytes key.now ≡ value_in (codes "key") all
        → texts_of fields.now ≡ other_fields all
        → IfErr result (λ e. e ≢ Refusal.Memory → command_of_fields verb account.now all ≡ Err e) }
{
    match key {
        Some(key) => command_of(alloc, verb, account, Some(key.as_str()), fields),
        None => command_of(alloc, verb, account, None, fields),
    }
}

/// The command that a form says, or the first form check that fails; or out of memory.
pub fn read_command(
    alloc: Global,
    verb: Verb,
    account: &str,
    form: &str,
) -> Result<Command, Refusal>
    ensures ok { IfOk result (λ c. command_in_form verb account.now form.now ≡ Ok c) }
    ensures err { IfErr result (λ e. e ≢ Refusal.Memory
        → command_in_form verb account.now form.now ≡ Err e) }
{
    if has_more_fields(form, MOST_COMMAND_FIELDS) {
        return Err(Refusal::BadText);
    }
    let mut fields = fields_of(alloc, form)?;
    let key = take_key(&mut fields);
    command_with(alloc, verb, account, &key, &fields)
}

fn is_path_alone(fields: &[(String, String)]) -> bool
    ensures { result ≡ (once_in (codes "path") (texts_of fields.now) && length
        (texts_of fields.now) == 1) }
{
    is_once(fields, "path") && fields.len() == 1
}

fn path_in(fields: &[(String, String)]) -> Result<Path, Refusal>
    ensures { result ≡ path_said (texts_of fields.now) }
{
    if !is_path_alone(fields) {
        return Err(Refusal::BadText);
    }
    match Path::parse(text_at(fields, "path")) {
        Some(path) => Ok(path),
        None => Err(Refusal::BadPath),
    }
}

/// The path that a form says; or out of memory.
pub fn read_path(alloc: Global, form: &str) -> Result<Path, Refusal>
    ensures ok { IfOk result (λ p. path_asked form.now ≡ Ok p) }
    ensures err { IfErr result (λ e. e ≢ Refusal.Memory → path_asked form.now ≡ Err e) }
{
    if has_more_fields(form, 1) {
        return Err(Refusal::BadText);
    }
    let fields = fields_of(alloc, form)?;
    path_in(&fields)
}
