//! The words of the commands.
ghost use Rattle.std.specs.Prelude.{◌≡◌};

/// What a command does, without its fields.
#[derive(Clone, Copy)]
pub enum Verb {
    Account,
    Submit,
    Comment,
    Withdraw,
    Approve,
    Confirm,
    Reject,
    Import,
}

// All verbs, one of each.
const ALL: [Verb; 8] = [
    Verb::Account,
    Verb::Submit,
    Verb::Comment,
    Verb::Withdraw,
    Verb::Approve,
    Verb::Confirm,
    Verb::Reject,
    Verb::Import,
];

impl Verb {
    ghost use Rattle.pid_moderation.specs.Verbs.{verb_of, verb_word};

    /// The verb with the word, in lower case.
    pub fn of_word(word: &str) -> Option<Verb>
        ensures { result ≡ verb_of word.now }
    {
        ALL.iter().copied().find(|verb| word == verb.word())
    }

    /// The word of the verb, in lower case.
    pub fn word(self) -> &'static str
        ensures { result.now ≡ verb_word self }
    {
        match self {
            Verb::Account => "account",
            Verb::Submit => "submit",
            Verb::Comment => "comment",
            Verb::Withdraw => "withdraw",
            Verb::Approve => "approve",
            Verb::Confirm => "confirm",
            Verb::Reject => "reject",
            Verb::Import => "import",
        }
    }
}
