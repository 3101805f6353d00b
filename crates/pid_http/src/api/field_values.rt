//! The values of a query's fields.
ghost use Rattle.std.specs.Prelude.{◌≡◌, codes, map, not, string_bytes, None, Some};
ghost use Rattle.std.specs.List.{list_all, list_any};
ghost use Rattle.std.specs.Option.{option_copied};
ghost use Rattle.std.specs.Str.{bytes_eq};
ghost use Rattle.pid_form.specs.Fields.{is_twice as is_twice_in};
ghost use Rattle.pid_moderation.specs.Fields.{texts_of};
ghost use Rattle.pid_http.specs.Api.Questions.{format_said, format_in, are_of as have_names};
ghost use Rattle.pid_http.specs.Api.Questions.{account_said, author_said, num_said, after_said};
ghost use Rattle.pid_http.specs.Api.Questions.{path_said, revision_said};
ghost use Rattle.pid_http.specs.Api.Steps.Making.{MakesSaid};

use crate::api::early::{RefusedEarly, Unasked};
use crate::api::format::Format;
use pid_form::{is_twice, number_up_to, value};
use pid_ident::{Account, Path, PathText, WordFault};
use pid_moderation::{REVISIONS, Refusal, submission_number};
use std::alloc::Global;

// The format that a value says: JSON if none is said.
fn format_named(value: Option<&str>) -> Result<Format, RefusedEarly>
    ensures { result ≡ format_said (option_copied value.entry) }
{
    match value {
        None => Ok(Format::Json),
        Some(text) => {
            if text == "json" {
                Ok(Format::Json)
            } else if text == "text" {
                Ok(Format::Text)
            } else {
                Err(RefusedEarly::BadQuery)
            }
        }
    }
}

// Whether a name is among these.
fn is_among(name: &str, names: &[&str]) -> bool
    ensures { result ≡ list_any (λ other. bytes_eq name.now other.now) names.now }
{
    names.iter().any(|other| name == *other)
}

// Whether no field has another name.
fn has_no_other(fields: &[(String, String)], names: &[&str]) -> bool
    ensures { result ≡ list_all (λ field. list_any
        (λ name. bytes_eq (string_bytes field.0) name.now) names.now) fields.now }
{
    fields.iter().all(|field| is_among(field.0.as_str(), names))
}

// Whether no field with one of these names is there more than once.
fn has_none_twice(fields: &[(String, String)], names: &[&str]) -> bool
    ensures { result ≡ list_all (λ name. not (is_twice_in name.now (texts_of fields.now)))
        names.now }
{
    names.iter().all(|name| !is_twice(fields, name))
}

// Whether fields have these names alone, each at most once.
fn are_of(fields: &[(String, String)], names: &[&str]) -> bool
    ensures { result ≡ have_names (map (λ name. name.now) names.now) (texts_of fields.now) }
{
    if !has_no_other(fields, names) {
        return false;
    }
    has_none_twice(fields, names)
}

// The format that fields say, which may have these names alone.
pub(crate) fn format_of(fields: &[(String, String)], names: &[&str]) -> Result<Format, RefusedEarly>
    ensures { result ≡ format_in (map (λ name. name.now) names.now) (texts_of fields.now) }
{
    if are_of(fields, names) {
        format_named(value(fields, "format"))
    } else {
        Err(RefusedEarly::BadQuery)
    }
}

// The account with this name, if a text may be one.
pub(crate) fn account_named(alloc: Global, text: &str) -> Result<Account, Unasked>
    ensures { MakesSaid result (account_said text.now) }
{
    match Account::of(alloc, text) {
        Ok(account) => Ok(account),
        Err(WordFault::Bad) => Err(Unasked::Early(RefusedEarly::BadQuery)),
        Err(WordFault::Memory) => Err(Unasked::Memory),
    }
}

// The author that a value names, if it names one.
pub(crate) fn author_named(alloc: Global, value: Option<&str>) -> Result<Option<Account>, Unasked>
    ensures { MakesSaid result (author_said (option_copied value.entry)) }
{
    match value {
        None => Ok(None),
        Some(text) => Ok(Some(account_named(alloc, text)?)),
    }
}

// The submission that a text names.
pub(crate) fn submission_named(text: &str) -> Result<u32, RefusedEarly>
    ensures { result ≡ num_said text.now }
{
    submission_number(text).ok_or(RefusedEarly::BadQuery)
}

// The number after which, or below which, a page begins: 0 if none is said.
pub(crate) fn number_named(value: Option<&str>) -> Result<u32, RefusedEarly>
    ensures { result ≡ after_said (option_copied value.entry) }
{
    match value {
        None => Ok(0),
        Some(text) => {
            if text == "0" {
                Ok(0)
            } else {
                submission_number(text).ok_or(RefusedEarly::BadQuery)
            }
        }
    }
}

// The number above which changes are asked for: 0 if none is said.
pub(crate) fn revision_named(value: Option<&str>) -> Result<u64, RefusedEarly>
    ensures { result ≡ revision_said (option_copied value.entry) }
{
    match value {
        None => Ok(0),
        Some(text) => {
            if text == "0" {
                Ok(0)
            } else {
                number_up_to(text, REVISIONS, 19).ok_or(RefusedEarly::BadQuery)
            }
        }
    }
}

// The path that a text names, if it names one; none if it is empty.
pub(crate) fn path_named(text: &str, format: Format) -> Result<Option<Path>, RefusedEarly>
    ensures { result ≡ path_said format text.now }
{
    if text.is_empty() {
        return Ok(None);
    }
    match Path::parse(text) {
        Some(path) => Ok(Some(path)),
        None => Err(RefusedEarly::BadValue(Refusal::BadPath, format)),
    }
}
