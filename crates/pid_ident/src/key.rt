//! Keys of commands.
ghost use Rattle.std.specs.Prelude.{◌≡◌, IfOk};
ghost use Rattle.std.specs.List.{list_all};
ghost use Rattle.pid_file.specs.Words.{is_key as key_test, is_key_byte as key_byte};
ghost use Rattle.pid_ident.specs.CheckedWords.{IsWordOf};
ghost use Rattle.pid_ident.specs.Steps.CheckedWords.{ShowsWord};

use crate::word_fault::WordFault;
use pid_file::is_empty;
use std::alloc::{AllocError, Global};
use std::marker::Model;

/// The key of a command: 1 to 64 bytes of visible ASCII.
#[derive(Drop)]
pub struct Key {
    text: String,
}

impl Model for Key {
    ghost use Rattle.std.specs.Prelude.{ℕ, List, string_bytes, IsTrue};
    ghost use Rattle.pid_file.specs.Words.{is_key};

    ghost Value = { List ℕ };

    ghost view = { λ word. string_bytes word.text };

    ghost invariant = { λ word. IsTrue (is_key (string_bytes word.text)) };
}

impl Key {
    /// The text as the key of a command, kept byte for byte; `Bad` exactly when it breaks the
    /// rule.
    pub fn of(alloc: Global, text: &str) -> Result<Key, WordFault>
        ensures { IsWordOf key_test text.now result }
    {
        if !is_key(text) {
            return Err(WordFault::Bad);
        }
        Ok(Key {
            text: String::from_str(alloc, text)?,
        })
    }

    /// The bytes of the text that was checked. They keep the rule of keys.
    pub fn as_str(&self) -> &str
        ensures { ShowsWord key_test self.now result.now }
    {
        self.text.as_str()
    }

    /// The same key once more.
    pub fn copy(&self) -> Result<Key, AllocError>
        ensures { IfOk result (λ word. word ≡ self.now) }
    {
        Ok(Key {
            text: self.text.clone()?,
        })
    }
}

impl PartialEq for Key {
    ghost use Rattle.std.specs.Str.{bytes_eq};
    ghost use Rattle.std.specs.Cmp.{partial_equiv_from_equiv};
    ghost use Rattle.std.specs.Cmp.Lexicographic.{nat_list_eq_equiv};

    ghost eq = { bytes_eq };

    ghost laws = { partial_equiv_from_equiv nat_list_eq_equiv };

    fn eq(&self, other: &Key) -> bool {
        self.text == other.text
    }
}

impl Eq for Key {
    ghost use Rattle.std.specs.Cmp.Lexicographic.{nat_list_eq_equiv};

    ghost laws = { nat_list_eq_equiv };
}

/// Whether a text may be the key of a command.
pub fn is_key(text: &str) -> bool
    ensures { result ≡ key_test text.now }
{
    let bytes = text.as_bytes();
    if is_empty(bytes) || bytes.len() > 64 {
        return false;
    }
    are_key_bytes(bytes)
}

fn are_key_bytes(bytes: &[u8]) -> bool
    ensures { result ≡ list_all key_byte bytes.now }
{
    let mut all = true;
    for byte in bytes {
        all &= *byte >= b'!' && *byte <= b'~';
    }
    all
}
