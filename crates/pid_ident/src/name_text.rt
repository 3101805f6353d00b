//! Names of items as values of a registry.
ghost use Rattle.std.specs.Prelude.{◌≡◌, IfOk};
ghost use Rattle.pid_file.specs.Words.{is_name as name_test};
ghost use Rattle.pid_ident.specs.CheckedWords.{IsWordOf};

use crate::word_fault::WordFault;
use pid_file::{Name, is_name};
use std::alloc::{AllocError, Global};

/// Makes names of texts and of other names: `Name::of` and `Name::copy`.
///
/// A trait, so that a program that reads files alone does not wait for the proofs of it.
pub trait NameText: Sized {
    /// The text as a name, kept byte for byte; `Bad` exactly when it breaks the rule.
    fn of(alloc: Global, text: &str) -> Result<Self, WordFault>;

    /// The same name once more.
    fn copy(&self) -> Result<Self, AllocError>;
}

impl NameText for Name {
    fn of(alloc: Global, text: &str) -> Result<Name, WordFault>
        ensures { IsWordOf name_test text.now result }
    {
        if !is_name(text) {
            return Err(WordFault::Bad);
        }
        Ok(Name {
            text: String::from_str(alloc, text)?,
        })
    }

    fn copy(&self) -> Result<Name, AllocError>
        ensures { IfOk result (λ word. word ≡ self.now) }
    {
        Ok(Name {
            text: self.text.clone()?,
        })
    }
}
