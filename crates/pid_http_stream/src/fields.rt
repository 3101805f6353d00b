//! The fields of a head, by their names.
ghost use Rattle.std.specs.Prelude.{◌≡◌, ℕ, ◌≤◌, ◌<◌, List, length, map, All, option_copied};
ghost use Rattle.httparse.specs.Spans.{header_bytes, IsHeaderWithin};
ghost use Rattle.pid_http_stream.specs.FieldValues.{is_named, values_of, first_value};

use httparse::spans::HeaderSpan;

// Whether the field has this name, in any case.
pub(crate) fn is_field(buf: &[u8], field: &HeaderSpan, name: &[u8]) -> bool
    requires { IsHeaderWithin (length buf.now) field.now }
    ensures { result ≡ is_named name.now (header_bytes buf.now field.now) }
{
    field.name.of(buf).eq_ignore_ascii_case(name)
}

/// How many of the fields have this name, in any case.
pub fn count_named(buf: &[u8], fields: &[HeaderSpan], name: &[u8]) -> usize
    requires { All (IsHeaderWithin (length buf.now)) fields.now }
    ensures { result ≡ length (values_of name.now (map (header_bytes buf.now) fields.now)) }
{
    let mut count = 0;
    for field in fields {
        if is_field(buf, field, name) {
            count += 1;
        }
    }
    count
}

/// The value of the first field with this name, in any case.
pub fn first_named<'b>(buf: &'b [u8], fields: &[HeaderSpan], name: &[u8]) -> Option<&'b [u8]>
    requires { All (IsHeaderWithin (length buf.now)) fields.now }
    ensures { option_copied result ≡ first_value
        (values_of name.now (map (header_bytes buf.now) fields.now)) }
{
    for field in fields {
        if is_field(buf, field, name) {
            return Some(field.value.of(buf));
        }
    }
    None
}
