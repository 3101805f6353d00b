//! Lines within a piece of a text.
ghost use Rattle.std.specs.Prelude.{◌≡◌, ◌<◌, ◌∷◌, ◌++◌, [], MatchOption, IfSome, length};
ghost use Rattle.pid_file.specs.WholeLines.{ended_pieces};

use memchr::memchr;

/// What comes before the first LF, and what after it; none if there is no LF.
pub fn split_line(text: &[u8]) -> Option<(&[u8], &[u8])>
    ensures parts { MatchOption result (ended_pieces text.now ≡ [])
        (λ x. (text.now ≡ x.0.now ++ 10 ∷ x.1.now) × (ended_pieces x.0.now ≡ [])) }
    ensures shorter { IfSome result (λ x. length x.1.now < length text.now) }
{
    let end = memchr(b'\n', text)?;
    Some((&text[..end], &text[end + 1..]))
}
