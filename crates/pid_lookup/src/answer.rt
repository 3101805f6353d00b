//! What a look-up answers.
ghost use Rattle.std.specs.Prelude.{◌≡◌};

use std::marker::Model;

/// The text of an answer: bytes, since a cut may split a character.
#[derive(Drop)]
pub struct AnswerText {
    bytes: Vec<u8>,
}

impl Model for AnswerText {
    ghost use Rattle.std.specs.Prelude.{ℕ, List};

    ghost Value = { List ℕ };

    ghost view = { λ text. text.bytes.items };
}

impl AnswerText {
    /// The bytes as a text, with no copy.
    pub(crate) fn of(text: Vec<u8>) -> AnswerText
        ensures { result ≡ text.items }
    {
        AnswerText { bytes: text }
    }

    /// The bytes of the text.
    pub fn as_bytes(&self) -> &[u8]
        ensures { result.now ≡ self.now }
    {
        self.bytes.as_slice()
    }

    /// The bytes, with no copy.
    pub fn into_bytes(self) -> Vec<u8>
        ensures { result.items ≡ self }
    {
        let AnswerText { bytes } = self;
        bytes
    }
}

/// The answer of a look-up.
#[derive(Drop)]
pub enum Answer {
    /// What libpci writes into its buffer, or the text that it answers in place of the buffer.
    Text(AnswerText),
    /// No name is known and no number may be shown: libpci's null pointer.
    NoAnswer,
}
