//! The fields of a form.
ghost use Rattle.std.specs.Prelude.{◌≡◌, IfOk};
ghost use Rattle.pid_form.specs.FormFields.{bytes_of, fields_in};

use form_urlencoded::parse;
use std::alloc::{AllocError, Global};

/// The fields of a form in their order: names and values. Each may be empty and may come more than
/// once.
///
/// A `+` is a space, `%` and two hex digits are the byte with that number, and bytes that are no
/// UTF-8 become U+FFFD.
///
/// # Errors
///
/// There is no memory for the fields.
pub fn fields_of(alloc: Global, form: &str) -> Result<Vec<(String, String)>, AllocError>
    ensures fields { IfOk result (λ fields. bytes_of fields.items ≡ fields_in form.now) }
{
    let mut fields = Vec::new(alloc);
    for field in parse(alloc, form.as_bytes()).into_owned() {
        fields.push(field?)?;
    }
    Ok(fields)
}
