//! Laws of the definitions. Each is the contract of a function that does nothing.
ghost use Rattle.std.specs.Prelude.{◌≡◌, ◌↔◌, ℕ, List, Some};
ghost use Rattle.std.specs.Option.{option_map};
ghost use Rattle.pid_file.specs.PathTexts.{IsTextOf, path_text, parent_of};
ghost use Rattle.pid_ident.specs.PathReading.{path_of, parent_text};

use pid_file::Path;

/// What a text reads to is the path whose text it is; any other text reads to none.
pub fn texts_have_one_path()
    ensures { (text : List ℕ) (path : Path) → (path_of text ≡ Some path) ↔ IsTextOf text path }
{}

/// The parent of a path's text is the text of its parent; the text of a vendor or a class has none.
pub fn parents_have_texts()
    ensures { (path : Path) → parent_text (path_text path) ≡ option_map path_text (parent_of path) }
{}
