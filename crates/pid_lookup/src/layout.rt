//! How names and numbers are set.
ghost use Rattle.std.specs.Prelude.{◌≡◌, [], Some};
ghost use Rattle.std.specs.List.{flat_map};
ghost use Rattle.std.specs.Option.{option_map};
ghost use Rattle.pid_lookup.specs.Layouts.{one_text, second_half as second_half_of};
ghost use Rattle.pid_lookup.specs.Steps.FoundTexts.{found_text, unnamed_text};
ghost use Rattle.pid_lookup.specs.Steps.Styles.{switches};

use crate::find::Found;
use crate::flags::Style;

/// The parts of a text, one after another. Parts that it does not need are empty.
#[derive(Clone, Copy)]
pub struct Parts<'a> {
    pub slices: [&'a [u8]; 6],
}

// A name, in parts, and the number if the style shows it.
fn named_parts<'a>(style: Style, number: &'a [u8], name: [&'a [u8]; 3]) -> Parts<'a>
    ensures { Some (flat_map (λ part. part.now) result.slices)
        ≡ one_text (switches style) number.now [] (Some (flat_map (λ part. part.now) name.entry)) }
{
    let [first, space, second] = name;
    match style {
        Style::Numeric => Parts {
            slices: [number, b"", b"", b"", b"", b""],
        },
        Style::Plain | Style::NoNumbers => Parts {
            slices: [first, space, second, b"", b"", b""],
        },
        Style::Mixed | Style::NoNumbersMixed => Parts {
            slices: [first, space, second, b" [", number, b"]"],
        },
    }
}

// The words for a name that is not there, and the number; alone after the words it may be short.
fn unnamed_parts<'a>(
    style: Style,
    number: &'a [u8],
    short: &'a [u8],
    words: [&'a [u8]; 2],
) -> Option<Parts<'a>>
    ensures { option_map (λ parts. flat_map (λ part. part.now) parts.slices) result
        ≡ unnamed_text (switches style) number.now short.now
        (flat_map (λ part. part.now) words.entry) }
{
    let [first, second] = words;
    match style {
        Style::Numeric => Some(Parts {
            slices: [number, b"", b"", b"", b"", b""],
        }),
        Style::Plain => Some(Parts {
            slices: [first, second, b" ", short, b"", b""],
        }),
        Style::Mixed => Some(Parts {
            slices: [first, second, b" [", number, b"]", b""],
        }),
        Style::NoNumbers | Style::NoNumbersMixed => None,
    }
}

// The second number of a pair.
fn second_half(number: &[u8]) -> &[u8]
    ensures { result.now ≡ second_half_of number.now }
{
    let (_, half) = number.split_at(number.len().min(5));
    half
}

/// The parts of what was found.
pub fn found_parts<'a>(
    style: Style,
    number: &'a [u8],
    word: &'a [u8],
    found: &'a Found,
) -> Option<Parts<'a>>
    ensures { option_map (λ parts. flat_map (λ part. part.now) parts.slices) result
        ≡ found_text (switches style) number.now word.now found.now }
{
    match found {
        Found::One(Some(name)) => {
            Some(named_parts(style, number, [name.as_str().as_bytes(), b"", b""]))
        }
        Found::One(None) => unnamed_parts(style, number, number, [word, b""]),
        Found::Ide(words) => Some(named_parts(style, number, [words.as_bytes(), b"", b""])),
        Found::ClassOnly(name) => {
            let name = [name.as_str().as_bytes(), b"", b""];
            Some(named_parts(style.with_numbers(), number, name))
        }
        Found::Pair(Some(vendor), Some(device)) => {
            let name = [vendor.as_str().as_bytes(), b" ", device.as_str().as_bytes()];
            Some(named_parts(style, number, name))
        }
        Found::Pair(Some(vendor), None) => {
            let words = [vendor.as_str().as_bytes(), b" Device"];
            unnamed_parts(style, number, second_half(number), words)
        }
        Found::Pair(None, _) => unnamed_parts(style, number, number, [b"Device", b""]),
    }
}
