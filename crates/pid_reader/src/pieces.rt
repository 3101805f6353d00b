//! The first line of a text.
ghost use Rattle.std.specs.Prelude.{◌≡◌, ◌<◌, ◌∷◌, [], MatchOption, IfSome, length};
ghost use Rattle.pid_file.specs.Lines.{pieces_of};

use pid_file::split_line;

/// The first line of a text, with its CR if it has one, and what comes after its LF; none of the
/// empty text.
pub fn first_line(text: &[u8]) -> Option<(&[u8], &[u8])>
    ensures parts { MatchOption result (text.now ≡ [])
        (λ x. pieces_of text.now ≡ x.0.now ∷ pieces_of x.1.now) }
    ensures shorter { IfSome result (λ x. length x.1.now < length text.now) }
{
    if text.is_empty() {
        return None;
    }
    match split_line(text) {
        Some(parts) => Some(parts),
        None => Some((text, &[])),
    }
}
