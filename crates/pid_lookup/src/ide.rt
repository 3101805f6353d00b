//! The programming interface of an IDE controller in words.
ghost use Rattle.std.specs.Prelude.{◌≡◌, ◌+◌, ◌≤◌, [], ◌∷◌, ◌++◌, length, if◌then◌else◌};
ghost use Rattle.pid_lookup.specs.Found.{ide_words};
ghost use Rattle.pid_lookup.specs.Steps.Words.{with_word};

use std::marker::Model;

/// Words with one space between.
#[derive(Drop)]
pub struct IdeWords {
    bytes: [u8; 32],
    len: usize,
}

impl Model for IdeWords {
    ghost use Rattle.std.specs.Prelude.{ℕ, List, take, ◌≤◌};

    ghost Value = { List ℕ };

    ghost view = { λ words. take words.len words.bytes };

    ghost invariant = { λ words. words.len ≤ 32 };
}

impl IdeWords {
    /// The words of the bits that are set.
    pub fn of(progif: u8) -> IdeWords
        ensures { result ≡ ide_words progif }
    {
        IdeWords::none()
            .with(progif & 0x80 != 0, b"Master")
            .with(progif & 0x08 != 0, b"SecP")
            .with(progif & 0x04 != 0, b"SecO")
            .with(progif & 0x02 != 0, b"PriP")
            .with(progif & 0x01 != 0, b"PriO")
    }

    fn none() -> IdeWords
        ensures { result ≡ [] }
    {
        IdeWords {
            bytes: [0; 32],
            len: 0,
        }
    }

    /// The words as text.
    pub fn as_bytes(&self) -> &[u8]
        ensures { result.now ≡ self.now }
    {
        let (front, _) = self.bytes.split_at(self.len);
        front
    }

    // One more word, if it is there.
    fn with(self, is_there: bool, word: &[u8]) -> IdeWords
        requires { length self + 1 + length word.now ≤ 32 }
        ensures words { result ≡ with_word self is_there word.now }
        ensures len { length result ≤ length self + 1 + length word.now }
    {
        if !is_there {
            return self;
        }
        if self.len == 0 {
            return self.followed_by(word);
        }
        self.followed_by(b" ").followed_by(word)
    }

    fn followed_by(mut self, bytes: &[u8]) -> IdeWords
        requires { length self + length bytes.now ≤ 32 }
        ensures { result ≡ self ++ bytes.now }
    {
        let start = self.len;
        let end = start + bytes.len();
        self.bytes[start..end].copy_from_slice(bytes);
        self.len = end;
        self
    }
}
