//! Names of items.
ghost use Rattle.std.specs.Prelude.{◌≡◌, IsTrue, IfOk};
ghost use Rattle.pid_file.specs.Words.{is_name as name_test};

use crate::bytes::{are_printed, begins_blank, is_empty};
use std::alloc::{AllocError, Global};
use std::marker::Model;

/// The bytes that a name has at most.
pub const LONGEST_NAME: usize = 1000;

/// A name of an item: text of 1 to `LONGEST_NAME` bytes that begins with no blank and holds no control byte
/// but tabs. Blanks at its end belong to it.
#[derive(Drop)]
pub struct Name {
    /// The text. Whoever writes it proves that it keeps the rule.
    pub text: String,
}

impl Model for Name {
    ghost use Rattle.std.specs.Prelude.{ℕ, List, string_bytes, IsTrue};
    ghost use Rattle.pid_file.specs.Words.{is_name};

    ghost Value = { List ℕ };

    ghost view = { λ word. string_bytes word.text };

    ghost invariant = { λ word. IsTrue (is_name (string_bytes word.text)) };
}

impl Name {
    /// The text as a name, if it is known to keep the rule.
    pub fn of_checked(alloc: Global, text: &str) -> Result<Name, AllocError>
        requires { IsTrue (name_test text.now) }
        ensures { IfOk result (λ word. word ≡ text.now) }
    {
        Ok(Name {
            text: String::from_str(alloc, text)?,
        })
    }

    /// The bytes of the text that was checked. They keep the rule of names.
    pub fn as_str(&self) -> &str
        ensures text { result.now ≡ self.now }
        ensures checked { IsTrue (name_test self.now) }
    {
        self.text.as_str()
    }
}

impl PartialEq for Name {
    ghost use Rattle.std.specs.Str.{bytes_eq};
    ghost use Rattle.std.specs.Cmp.{partial_equiv_from_equiv};
    ghost use Rattle.std.specs.Cmp.Lexicographic.{nat_list_eq_equiv};

    ghost eq = { bytes_eq };

    ghost laws = { partial_equiv_from_equiv nat_list_eq_equiv };

    fn eq(&self, other: &Name) -> bool {
        self.text == other.text
    }
}

impl Eq for Name {
    ghost use Rattle.std.specs.Cmp.Lexicographic.{nat_list_eq_equiv};

    ghost laws = { nat_list_eq_equiv };
}

/// Whether a text may be a name.
pub fn is_name(text: &str) -> bool
    ensures { result ≡ name_test text.now }
{
    let bytes = text.as_bytes();
    if is_empty(bytes) || bytes.len() > LONGEST_NAME || begins_blank(bytes) {
        return false;
    }
    are_printed(bytes)
}
