//! Accounts.
ghost use Rattle.std.specs.Prelude.{◌≡◌, IfOk};
ghost use Rattle.std.specs.List.{list_all};
ghost use Rattle.pid_file.specs.Words.{is_account as account_test, is_account_byte as account_byte};
ghost use Rattle.pid_ident.specs.CheckedWords.{IsWordOf};
ghost use Rattle.pid_ident.specs.Steps.CheckedWords.{ShowsWord};

use crate::word_fault::WordFault;
use pid_file::is_empty;
use std::alloc::{AllocError, Global};
use std::marker::Model;

/// The name of an account: 1 to 32 of `a` to `z`, `0` to `9` and `-`.
#[derive(Drop)]
pub struct Account {
    text: String,
}

impl Model for Account {
    ghost use Rattle.std.specs.Prelude.{ℕ, List, string_bytes, IsTrue};
    ghost use Rattle.pid_file.specs.Words.{is_account};

    ghost Value = { List ℕ };

    ghost view = { λ word. string_bytes word.text };

    ghost invariant = { λ word. IsTrue (is_account (string_bytes word.text)) };
}

impl Account {
    /// The text as the name of an account, kept byte for byte; `Bad` exactly when it breaks the
    /// rule.
    pub fn of(alloc: Global, text: &str) -> Result<Account, WordFault>
        ensures { IsWordOf account_test text.now result }
    {
        if !is_account(text) {
            return Err(WordFault::Bad);
        }
        Ok(Account {
            text: String::from_str(alloc, text)?,
        })
    }

    /// The bytes of the text that was checked. They keep the rule of accounts.
    pub fn as_str(&self) -> &str
        ensures { ShowsWord account_test self.now result.now }
    {
        self.text.as_str()
    }

    /// The same account once more.
    pub fn copy(&self) -> Result<Account, AllocError>
        ensures { IfOk result (λ word. word ≡ self.now) }
    {
        Ok(Account {
            text: self.text.clone()?,
        })
    }
}

impl PartialEq for Account {
    ghost use Rattle.std.specs.Str.{bytes_eq};
    ghost use Rattle.std.specs.Cmp.{partial_equiv_from_equiv};
    ghost use Rattle.std.specs.Cmp.Lexicographic.{nat_list_eq_equiv};

    ghost eq = { bytes_eq };

    ghost laws = { partial_equiv_from_equiv nat_list_eq_equiv };

    fn eq(&self, other: &Account) -> bool {
        self.text == other.text
    }
}

impl Eq for Account {
    ghost use Rattle.std.specs.Cmp.Lexicographic.{nat_list_eq_equiv};

    ghost laws = { nat_list_eq_equiv };
}

/// Whether a text may be the name of an account.
pub fn is_account(text: &str) -> bool
    ensures { result ≡ account_test text.now }
{
    let bytes = text.as_bytes();
    if is_empty(bytes) || bytes.len() > 32 {
        return false;
    }
    are_account_bytes(bytes)
}

fn are_account_bytes(bytes: &[u8]) -> bool
    ensures { result ≡ list_all account_byte bytes.now }
{
    let mut all = true;
    for byte in bytes {
        all &= is_account_byte(*byte);
    }
    all
}

fn is_account_byte(byte: u8) -> bool
    ensures { result ≡ account_byte byte }
{
    (byte >= b'a' && byte <= b'z') || (byte >= b'0' && byte <= b'9') || byte == b'-'
}
