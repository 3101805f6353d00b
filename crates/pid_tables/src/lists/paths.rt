//! The texts of paths that a question may name.
ghost use Rattle.std.specs.Prelude.{◌≡◌, string_bytes, IfOk};
ghost use Rattle.std.specs.Option.{option_copied};
ghost use Rattle.pid_moderation.specs.ChangePages.{start_text};

use pid_ident::{Path, PathText};
use std::alloc::{AllocError, Global};

// The text of a path, or the empty one.
pub(crate) fn text_or_empty(alloc: Global, path: Option<&Path>) -> Result<String, AllocError>
    ensures { IfOk result (λ text. string_bytes text ≡ start_text (option_copied path.entry)) }
{
    match path {
        Some(path) => path.path_text(alloc),
        None => Ok(String::new(alloc)),
    }
}
