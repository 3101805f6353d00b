//! What a line is by its own bytes.
ghost use Rattle.std.specs.Prelude.{◌≡◌, ◌+◌, ◌≤◌, length};
ghost use Rattle.std.specs.Str.{is_utf8 as utf8_bytes};
ghost use Rattle.pid_file.specs.Lines.{drop_cr};
ghost use Rattle.pid_file.specs.Marks.{
  trim_blanks as trimmed,
  is_idle as idle_line,
  depth,
  body,
  mark,
  after_mark,
};

/// What a line of depth 0 opens.
#[derive(Clone, Copy)]
pub enum Mark {
    /// A vendor, its devices and their subsystems.
    Devices,
    /// After `C` and a space: a class, its subclasses and their programming interfaces.
    Classes,
    /// After `S` and a space: generic subsystems of a vendor.
    Generics,
    /// After another capital letter and a space: a block that is not known.
    Unknown,
}

/// Without one CR at its end.
pub fn without_cr(piece: &[u8]) -> &[u8]
    ensures { result.now ≡ drop_cr piece.now }
{
    match piece {
        [front @ .., b'\r'] => front,
        _ => piece,
    }
}

/// Whether the bytes are UTF-8.
pub fn is_utf8(bytes: &[u8]) -> bool
    ensures { result ≡ utf8_bytes bytes.now }
{
    match str::from_utf8(bytes) {
        Ok(_) => true,
        Err(_) => false,
    }
}

/// Without its leading blanks.
pub fn trim_blanks(bytes: &[u8]) -> &[u8]
    ensures { result.now ≡ trimmed bytes.now }
{
    let mut rest = bytes;
    while let [b' ' | b'\t', behind @ ..] = rest {
        rest = behind;
    }
    rest
}

/// Whether a line says nothing: it has blanks alone, or a `#` after blanks.
pub fn is_idle(line: &[u8]) -> bool
    ensures { result ≡ idle_line line.now }
{
    matches!(trim_blanks(line), [] | [b'#', ..])
}

/// How many tabs lead, and what follows them.
pub fn split_depth(line: &[u8]) -> (usize, &[u8])
    ensures depth { result.0 ≡ depth line.now }
    ensures body { result.1.now ≡ body line.now }
{
    let mut rest = line;
    let mut count = 0;
    while let [b'\t', behind @ ..] = rest {
        rest = behind;
        count += 1;
    }
    (count, rest)
}

/// What a line of depth 0 opens, and what follows its letter and space.
pub fn split_mark(line: &[u8]) -> (Mark, &[u8])
    requires { depth line.now ≡ 0 }
    ensures mark { result.0 ≡ mark line.now }
    ensures inside { result.1.now ≡ after_mark (mark line.now) line.now }
{
    let [letter, b' ', behind @ ..] = line else {
        return (Mark::Devices, line);
    };
    match *letter {
        b'C' => (Mark::Classes, behind),
        b'S' => (Mark::Generics, behind),
        b'A'..=b'Z' => (Mark::Unknown, behind),
        _ => (Mark::Devices, line),
    }
}
