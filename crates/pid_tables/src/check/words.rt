//! Words and paths in the columns of a row.
ghost use Rattle.std.specs.Prelude.{◌≡◌, ◌↔◌, List, ℕ, true, false, IsTrue, IfSome, IfNone};
ghost use Rattle.sqlite.specs.declared.types.Value.TheVariants.{Text as TextValue};
ghost use Rattle.sqlite.specs.Order.{column};
ghost use Rattle.pid_ident.specs.Bytes.{is_empty as empty_test};
ghost use Rattle.pid_ident.specs.PathTexts.{IsPath, path_text};
ghost use Rattle.pid_ident.specs.Words.{is_name as name_test, is_text as text_test};

use crate::check::value::text_at;
use pid_ident::{Path, PathText, is_name, is_text};
use sqlite::Row;

/// The path in a column.
pub(crate) fn path_at(row: &Row, at: usize) -> Option<Path>
    ensures found { IfSome result (λ p. IsPath p × (column row.now at ≡ TextValue (path_text p))) }
    ensures none { IfNone result ((p : _) → IsPath p → column row.now at ≡ TextValue (path_text p)
        → ⊥) }
{
    match text_at(row, at) {
        Some(text) => Path::parse(text),
        None => None,
    }
}

/// Whether there is a path in a column.
pub(crate) fn has_path(row: &Row, at: usize) -> bool
    ensures { IsTrue result ↔ ((p : _) × IsPath p × (column row.now at ≡ TextValue (path_text p))) }
{
    match path_at(row, at) {
        Some(_) => true,
        None => false,
    }
}

/// Whether there is a name in a column.
pub(crate) fn has_name(row: &Row, at: usize) -> bool
    ensures { IsTrue result ↔ ((name : List ℕ) × (column row.now at ≡ TextValue name)
        × (name_test name ≡ true)) }
{
    match text_at(row, at) {
        Some(name) => is_name(name),
        None => false,
    }
}

/// Whether there is a text in a column.
pub(crate) fn has_text(row: &Row, at: usize) -> bool
    ensures { IsTrue result ↔ ((text : List ℕ) × (column row.now at ≡ TextValue text)
        × (text_test text ≡ true)) }
{
    match text_at(row, at) {
        Some(text) => is_text(text),
        None => false,
    }
}

/// Whether there is a text that is not empty in a column.
pub(crate) fn has_filled_text(row: &Row, at: usize) -> bool
    ensures { IsTrue result ↔ ((text : List ℕ) × (column row.now at ≡ TextValue text)
        × (text_test text ≡ true) × (empty_test text ≡ false)) }
{
    match text_at(row, at) {
        Some(text) => is_text(text) && !text.is_empty(),
        None => false,
    }
}
