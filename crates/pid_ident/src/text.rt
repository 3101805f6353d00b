//! Notes, comments and reasons.
ghost use Rattle.std.specs.Prelude.{◌≡◌, IfOk};
ghost use Rattle.pid_file.specs.Words.{is_text as text_test};
ghost use Rattle.pid_ident.specs.CheckedWords.{IsWordOf};
ghost use Rattle.pid_ident.specs.Steps.CheckedWords.{ShowsWord};

use crate::word_fault::WordFault;
use pid_file::are_printed;
use std::alloc::{AllocError, Global};
use std::marker::Model;

/// A note, a comment or a reason: text of at most 4,000 bytes that holds no control byte but tabs.
/// It may be empty.
#[derive(Drop)]
pub struct Text {
    text: String,
}

impl Model for Text {
    ghost use Rattle.std.specs.Prelude.{ℕ, List, string_bytes, IsTrue};
    ghost use Rattle.pid_file.specs.Words.{is_text};

    ghost Value = { List ℕ };

    ghost view = { λ word. string_bytes word.text };

    ghost invariant = { λ word. IsTrue (is_text (string_bytes word.text)) };
}

impl Text {
    /// The text as a note, a comment or a reason, kept byte for byte; `Bad` exactly when it breaks
    /// the rule.
    pub fn of(alloc: Global, text: &str) -> Result<Text, WordFault>
        ensures { IsWordOf text_test text.now result }
    {
        if !is_text(text) {
            return Err(WordFault::Bad);
        }
        Ok(Text {
            text: String::from_str(alloc, text)?,
        })
    }

    /// The bytes of the text that was checked. They keep the rule of such texts.
    pub fn as_str(&self) -> &str
        ensures { ShowsWord text_test self.now result.now }
    {
        self.text.as_str()
    }

    /// The same text once more.
    pub fn copy(&self) -> Result<Text, AllocError>
        ensures { IfOk result (λ word. word ≡ self.now) }
    {
        Ok(Text {
            text: self.text.clone()?,
        })
    }
}

impl PartialEq for Text {
    ghost use Rattle.std.specs.Str.{bytes_eq};
    ghost use Rattle.std.specs.Cmp.{partial_equiv_from_equiv};
    ghost use Rattle.std.specs.Cmp.Lexicographic.{nat_list_eq_equiv};

    ghost eq = { bytes_eq };

    ghost laws = { partial_equiv_from_equiv nat_list_eq_equiv };

    fn eq(&self, other: &Text) -> bool {
        self.text == other.text
    }
}

impl Eq for Text {
    ghost use Rattle.std.specs.Cmp.Lexicographic.{nat_list_eq_equiv};

    ghost laws = { nat_list_eq_equiv };
}

/// Whether a text may be a note, a comment or a reason.
pub fn is_text(text: &str) -> bool
    ensures { result ≡ text_test text.now }
{
    let bytes = text.as_bytes();
    if bytes.len() > 4000 {
        return false;
    }
    are_printed(bytes)
}
