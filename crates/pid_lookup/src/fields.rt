//! The fields of a look-up.
ghost use Rattle.std.specs.Prelude.{◌≡◌, ◌↔◌, true, Some, string_bytes};
ghost use Rattle.std.specs.Prelude.{IfOk, IfSome, IsNone, IsErr};
ghost use Rattle.std.specs.List.{list_all, list_any};
ghost use Rattle.std.specs.Str.{bytes_eq};
ghost use Rattle.pid_lookup.specs.Fields.{
  bytes_of,
  flags_said,
  size_said,
  number_said,
  progif_said,
  is_known as known_name,
  are_bad,
  lookup_from,
  as_lookup,
};

use crate::args::Args;
use pid_form::{is_twice, numeral, value};
use thiserror::Error;

/// A field of a look-up is unknown, there twice, missing though it must be there, or breaks its
/// rule.
#[derive(Clone, Copy, Debug, Error)]
#[error("the fields of the look-up are bad")]
pub struct BadField;

/// The flags, the arguments and the size that fields, pairs of a name and a value, say.
///
/// `flags` is 1 to 8 hex digits and must be there. `size` is 1 to 9 decimal digits, 1024 if it
/// is missing. `vendor`, `device`, `subvendor`, `subdevice` and `class` are 4 hex digits, `progif`
/// is 2, and 0 if they are missing. The order of the fields does not matter.
pub fn args_of(fields: &[(String, String)]) -> Result<(u32, Args, u32), BadField>
    ensures ok { IfOk result (λ lookup. lookup_from (bytes_of fields.now)
        ≡ Some (as_lookup lookup)) }
    ensures bad { IsErr result ↔ (are_bad (bytes_of fields.now) ≡ true) }
{
    match read_fields(fields) {
        Some(lookup) => Ok(lookup),
        None => Err(BadField),
    }
}

fn read_fields(fields: &[(String, String)]) -> Option<(u32, Args, u32)>
    ensures found { IfSome result (λ lookup. lookup_from (bytes_of fields.now)
        ≡ Some (as_lookup lookup)) }
    ensures none { IsNone result ↔ (are_bad (bytes_of fields.now) ≡ true) }
{
    if !are_known(fields) {
        return None;
    }
    let flags = flags_of(fields)?;
    let size = size_of(fields)?;
    let vendor = number_of(fields, "vendor")?;
    let device = number_of(fields, "device")?;
    let subvendor = number_of(fields, "subvendor")?;
    let subdevice = number_of(fields, "subdevice")?;
    let class = number_of(fields, "class")?;
    let progif = progif_of(fields)?;
    let args = Args {
        vendor,
        device,
        subvendor,
        subdevice,
        class,
        progif,
    };
    Some((flags, args, size))
}

fn are_known(fields: &[(String, String)]) -> bool
    ensures { result ≡ list_all (λ field. known_name (string_bytes field.0)) fields.now }
{
    fields.iter().all(|field| is_known(field.0.as_str()))
}

// The names that a field may have.
const KNOWN: [&str; 8] = [
    "flags",
    "size",
    "vendor",
    "device",
    "subvendor",
    "subdevice",
    "class",
    "progif",
];

fn is_known(name: &str) -> bool
    ensures { result ≡ known_name name.now }
{
    is_among(name, &KNOWN)
}

fn is_among(name: &str, words: &[&str]) -> bool
    ensures { result ≡ list_any (λ word. bytes_eq name.now word.now) words.now }
{
    words.iter().any(|word| name == *word)
}

fn flags_of(fields: &[(String, String)]) -> Option<u32>
    ensures { result ≡ flags_said (bytes_of fields.now) }
{
    if is_twice(fields, "flags") {
        return None;
    }
    numeral(value(fields, "flags")?, 16, 1, 8)
}

fn size_of(fields: &[(String, String)]) -> Option<u32>
    ensures { result ≡ size_said (bytes_of fields.now) }
{
    if is_twice(fields, "size") {
        return None;
    }
    match value(fields, "size") {
        Some(text) => numeral(text, 10, 1, 9),
        None => Some(1024),
    }
}

fn number_of(fields: &[(String, String)], name: &str) -> Option<u16>
    ensures { result ≡ number_said name.now (bytes_of fields.now) }
{
    if is_twice(fields, name) {
        return None;
    }
    match value(fields, name) {
        Some(text) => Some(numeral(text, 16, 4, 4)? as u16),
        None => Some(0),
    }
}

fn progif_of(fields: &[(String, String)]) -> Option<u8>
    ensures { result ≡ progif_said (bytes_of fields.now) }
{
    if is_twice(fields, "progif") {
        return None;
    }
    match value(fields, "progif") {
        Some(text) => Some(numeral(text, 16, 2, 2)? as u8),
        None => Some(0),
    }
}
