//! The texts of paths.
ghost use Rattle.std.specs.Prelude.{◌≡◌, IfOk, IfSome, IfNone, string_bytes};
ghost use Rattle.pid_file.specs.PathTexts.{IsTextOf, path_text};
ghost use Rattle.pid_ident.specs.PathReading.{path_of};

mod parse;
mod print;

use parse::{class_path, device_path, generic_path};
use pid_file::Path;
use print::{front, push_parts};
use std::alloc::{AllocError, Global};

/// Reads and prints the text of a path, such as `PC/8086/1237`: `Path::parse` and
/// `Path::path_text`.
///
/// A trait, so that a program that reads files alone does not wait for the proofs of it.
pub trait PathText: Sized {
    /// The path whose text it is. Digits are in lower case; any other text is no path.
    fn parse(text: &str) -> Option<Self>;

    /// The path's text, as `PC/8086/1237`.
    fn path_text(&self, alloc: Global) -> Result<String, AllocError>;
}

impl PathText for Path {
    fn parse(text: &str) -> Option<Path>
        ensures found { IfSome result (λ p. IsTextOf text.now p) }
        ensures none { IfNone result ((p : Path) → IsTextOf text.now p → ⊥) }
        ensures computed { result ≡ path_of text.now }
    {
        let bytes = text.as_bytes();
        device_path(bytes)
            .or(class_path(bytes))
            .or(generic_path(bytes))
    }

    fn path_text(&self, alloc: Global) -> Result<String, AllocError>
        ensures { IfOk result (λ text. string_bytes text ≡ path_text self.now) }
    {
        let mut text = String::from_str(alloc, front(*self))?;
        push_parts(&mut text, *self)?;
        Ok(text)
    }
}
