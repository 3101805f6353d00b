//! Why a question has no answer.
ghost use Rattle.std.specs.Prelude.{◌≡◌};

use thiserror::Error;

/// Why a question has no answer. No command is refused so.
#[derive(Clone, Copy, Debug, Error)]
pub enum Unanswered {
    #[error("no item is at the path")]
    NoItem,
    #[error("the flags ask for numbers alone and for no numbers, or have an unknown bit")]
    BadFlags,
    /// No name is known to a look-up, and no number may be shown.
    #[error("no name is known, and no number may be shown")]
    NoAnswer,
}

impl Unanswered {
    ghost use Rattle.pid_lookup.specs.Unanswered.{
      unanswered_number,
      unanswered_word,
      unanswered_line,
    };

    /// The number in replies.
    pub fn number(self) -> u8
        ensures { result ≡ unanswered_number self }
    {
        match self {
            Unanswered::NoItem => 25,
            Unanswered::BadFlags => 26,
            Unanswered::NoAnswer => 27,
        }
    }

    /// The word in replies.
    pub fn word(self) -> &'static str
        ensures { result.now ≡ unanswered_word self }
    {
        match self {
            Unanswered::NoItem => "NoItem",
            Unanswered::BadFlags => "BadFlags",
            Unanswered::NoAnswer => "NoAnswer",
        }
    }

    /// The line that says so: `refused`, the number and the word, and `none` if a look-up has
    /// no answer.
    pub fn line(self) -> &'static str
        ensures { result.now ≡ unanswered_line self }
    {
        match self {
            Unanswered::NoItem => "refused 25 NoItem\n",
            Unanswered::BadFlags => "refused 26 BadFlags\n",
            Unanswered::NoAnswer => "none\n",
        }
    }
}
