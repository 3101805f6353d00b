//! Fields by their names.
ghost use Rattle.std.specs.Prelude.{◌≡◌, count_by, string_bytes};
ghost use Rattle.std.specs.Option.{option_copied};
ghost use Rattle.std.specs.Str.{bytes_eq};
ghost use Rattle.pid_form.specs.FormFields.{bytes_of};
ghost use Rattle.pid_form.specs.Fields.{
  times as times_in,
  is_once as once_in,
  is_twice as twice_in,
  is_one_of as one_of_in,
  value as value_in,
  text_at as text_in,
};

fn times_by_name(fields: &[(String, String)], name: &str) -> usize
    ensures { result ≡ count_by (λ f. bytes_eq (string_bytes f.0) name.now) fields.now }
{
    let mut count = 0;
    for field in fields {
        if field.0.as_str() == name {
            count += 1;
        }
    }
    count
}

/// How often a field is there.
pub fn times(fields: &[(String, String)], name: &str) -> usize
    ensures { result ≡ times_in name.now (bytes_of fields.now) }
{
    times_by_name(fields, name)
}

/// Whether a field is there once.
pub fn is_once(fields: &[(String, String)], name: &str) -> bool
    ensures { result ≡ once_in name.now (bytes_of fields.now) }
{
    times(fields, name) == 1
}

/// Whether a field is there more than once.
pub fn is_twice(fields: &[(String, String)], name: &str) -> bool
    ensures { result ≡ twice_in name.now (bytes_of fields.now) }
{
    times(fields, name) > 1
}

/// Whether one of two fields is there, once, and the other is not.
pub fn is_one_of(fields: &[(String, String)], name: &str, other: &str) -> bool
    ensures { result ≡ one_of_in name.now other.now (bytes_of fields.now) }
{
    let names = times(fields, name);
    let others = times(fields, other);
    (names == 1 && others == 0) || (names == 0 && others == 1)
}

/// The value of the first field of this name.
#[tactic(auto, using(crate::proofs::FirstField::skips, crate::proofs::FirstField::stops))]
pub fn value<'a>(fields: &'a [(String, String)], name: &str) -> Option<&'a str>
    ensures { option_copied result ≡ value_in name.now (bytes_of fields.now) }
{
    for field in fields {
        if field.0.as_str() == name {
            return Some(field.1.as_str());
        }
    }
    None
}

/// The value of a field, and the empty text if it is missing.
pub fn text_at<'a>(fields: &'a [(String, String)], name: &str) -> &'a str
    ensures { result.now ≡ text_in name.now (bytes_of fields.now) }
{
    match value(fields, name) {
        Some(text) => text,
        None => "",
    }
}
