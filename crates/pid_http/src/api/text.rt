//! Text, and its lines.
ghost use Rattle.std.specs.Prelude.{◌≡◌, ◌++◌, true, false, codes, string_bytes, MatchOption, OnOk};
ghost use Rattle.std.specs.Str.{is_utf8};
ghost use Rattle.pid_http.specs.Api.Replying.{word_line};

use std::alloc::AllocError;

// The text, if the bytes are UTF-8.
pub(crate) fn text_of(bytes: &[u8]) -> Option<&str>
    ensures { MatchOption result (is_utf8 bytes.now ≡ false)
        (λ text. (text.now ≡ bytes.now) × (is_utf8 bytes.now ≡ true)) }
{
    str::from_utf8(bytes).ok()
}

/// Appends a word and a space.
pub(crate) fn push_word(text: &mut String, word: &str) -> Result<(), AllocError>
    ensures { OnOk result (string_bytes text.new
        ≡ string_bytes text.old ++ word.now ++ codes " ") }
{
    text.push_str(word)?;
    text.push_str(" ")
}

/// Appends a word, a space, the value, and a line feed.
pub(crate) fn push_line(text: &mut String, word: &str, value: &str) -> Result<(), AllocError>
    ensures { OnOk result (string_bytes text.new
        ≡ string_bytes text.old ++ word_line word.now value.now) }
{
    push_word(text, word)?;
    text.push_str(value)?;
    text.push_str("\n")
}
