//! The values of a row.
ghost use Rattle.std.specs.Prelude.{◌≡◌, ◌↔◌, ◌≤◌, ℕ, List, IfSome, IfNone, IsTrue, IsUtf8};
ghost use Rattle.sqlite.specs.declared.types.Value.TheVariants.{Text as TextValue};
ghost use Rattle.sqlite.specs.Order.{column};
ghost use Rattle.pid_tables.specs.Rows.TableRows.{number};

use sqlite::Row;
use sqlite::types::ValueRef;

/// The text in a column.
pub(crate) fn text_at(row: &Row, at: usize) -> Option<&str>
    ensures found { IfSome result (λ text. column row.now at ≡ TextValue text.now) }
    ensures utf8 { IfSome result (λ text. IsUtf8 text.now) }
    ensures none { IfNone result ((text : List ℕ) → column row.now at ≡ TextValue text
        → ¬ (IsUtf8 text)) }
{
    match row.get_ref(at) {
        Ok(ValueRef::Text(bytes)) => std::str::from_utf8(bytes).ok(),
        _ => None,
    }
}

/// Whether this text is in a column.
pub(crate) fn is_text_at(row: &Row, at: usize, text: &str) -> bool
    ensures { IsTrue result ↔ (column row.now at ≡ TextValue text.now) }
{
    match text_at(row, at) {
        Some(found) => found == text,
        None => false,
    }
}

/// Whether there is text in a column, whatever it says.
pub(crate) fn has_words(row: &Row, at: usize) -> bool
    ensures { IsTrue result ↔ ((words : List ℕ) × (column row.now at ≡ TextValue words)) }
{
    match row.get_ref(at) {
        Ok(ValueRef::Text(_)) => true,
        _ => false,
    }
}

/// The number in a column, which is not negative.
pub(crate) fn number_at(row: &Row, at: usize) -> Option<u64>
    ensures found { IfSome result (λ n. column row.now at ≡ number n) }
    ensures none { IfNone result ((n : ℕ) → column row.now at ≡ number n → ⊥) }
{
    match row.get_ref(at) {
        Ok(ValueRef::Int(value)) => u64::try_from(value).ok(),
        _ => None,
    }
}

/// Whether this number is in a column.
pub(crate) fn is_number_at(row: &Row, at: usize, wanted: u64) -> bool
    ensures { IsTrue result ↔ (column row.now at ≡ number wanted) }
{
    match number_at(row, at) {
        Some(found) => found == wanted,
        None => false,
    }
}

/// Whether there is a number in a column that is at most this one.
pub(crate) fn is_within(row: &Row, at: usize, most: u64) -> bool
    ensures { IsTrue result ↔ ((n : ℕ) × (column row.now at ≡ number n) × (n ≤ most)) }
{
    match number_at(row, at) {
        Some(number) => number <= most,
        None => false,
    }
}

/// Whether there is a number in a column, which is not negative.
pub(crate) fn has_number(row: &Row, at: usize) -> bool
    ensures { IsTrue result ↔ ((n : ℕ) × (column row.now at ≡ number n)) }
{
    match number_at(row, at) {
        Some(_) => true,
        None => false,
    }
}
