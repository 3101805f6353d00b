//! Worked rows, through each of the readers.

use crate::texts::{is_checked, is_within};
use pid_ident::{LineKind, Path};
use pid_reader::{Counter, CutEnd, Cutter, Feeder, LineFault, Lines, Never, ReadRefusal, read_ids};
use pid_tree::TreeItems;
use std::alloc::{AllocError, Global};
use std::test::Fail;

// Why a text is not read; the first line with a fault has a text of its own.
#[derive(Clone, Copy, PartialEq, Eq)]
enum Why {
    Line(LineFault),
    TooManyEntries,
    Memory,
}

impl From<ReadRefusal> for Why {
    fn from(refusal: ReadRefusal) -> Why {
        match refusal {
            ReadRefusal::Line { line, kind } => Why::Line(LineFault { line, kind }),
            ReadRefusal::TooManyEntries => Why::TooManyEntries,
            ReadRefusal::Memory => Why::Memory,
        }
    }
}

type Answer = Result<u64, Why>;

// What texts read to: how many entries they have, or their first fault. `;` is LF, `>` a tab, `^`
// CR, and `0` to `2` after a backslash are the bytes 7, 11 and 255.
const ROWS: &str = r"
 | ok 0
8086   Intel;>1237> 440FX;10EC>Realtek; | ok 3
8086  a>b #  ; | ok 1
>1237  X | line 1: 3 NoParent
8086  I;# c;;>1237  X | ok 2
8086  I^; | ok 1
S 1af4;1af4  Red Hat; | line 1: 8 VendorMissing
8086  Intel Corporation;>1237  440FX;>>1af4 1100  Qemu machine;1af4  Red Hat, Inc.; | ok 4
 8086  I | line 1: 4 BadId
8086 | line 1: 4 BadId
8086  | line 1: 5 NoName
8086  I;>>1af4 1100  X | line 2: 3 NoParent
8086  I;>>>x | line 2: 2 TooDeep
C 1  x | line 1: 4 BadId
A b;>junk;>>>>deep;8086  I | ok 1
8086  I;8086  J | line 2: 7 Duplicate
#\2 | line 1: 1 NotUtf8
1af4  Red Hat;S 1AF4;>1100  Qemu;>0001  Net;C 01  Mass;8086  I;S 1af4;>0002  Blk; | ok 6
1af4  R;S 1af4x | line 2: 4 BadId
1af4  R;S 1af | line 2: 4 BadId
1af4  R;S 1af4 | ok 1
1af4  R;S 1af4;>1100  X;>>1  Y | line 4: 2 TooDeep
1af4  R;S 1af4;>1100  X;S 1af4;>1100  Z | line 5: 7 Duplicate
1af4  R;S 8086 | line 2: 8 VendorMissing
>>>x | line 1: 2 TooDeep
^ | ok 0
A>b | line 1: 4 BadId
C 01 | line 1: 4 BadId
8086  I;>1237  X;10ec  R;>>1af4 1100  Y | line 4: 3 NoParent
8086  \0 | line 1: 6 BadName
8086  I\1 | line 1: 6 BadName
C 01  M;>06  S;>>80  P;>>80  Q | line 4: 7 Duplicate
";

fn text_of(alloc: Global, row: &str) -> Result<Vec<u8>, Fail> {
    let mut text = Vec::new(alloc);
    let mut is_code = false;
    for byte in row.as_bytes() {
        let code = match *byte {
            b'0' if is_code => 7,
            b'1' if is_code => 11,
            b'2' if is_code => 255,
            _ if is_code => Err("a code")?,
            b';' => b'\n',
            b'>' => b'\t',
            b'^' => b'\r',
            other => other,
        };
        is_code = *byte == b'\\';
        if !is_code {
            text.push(code)?;
        }
    }
    Ok(text)
}

fn by_read_ids(alloc: Global, text: &[u8]) -> Answer {
    Ok(read_ids(alloc, text)?.len() as u64)
}

// The same by the reader of lines, which looks at no earlier path: it passes over the two kinds
// that need them.
fn by_lines(text: &[u8]) -> Answer {
    let mut told = 0u64;
    for item in Lines::new(text) {
        match item {
            Ok(_) => told = told.saturating_add(1),
            Err(fault) => return Err(Why::Line(fault)),
        }
    }
    Ok(told)
}

// The answer of a feeder that is fed pieces of this many bytes.
fn by_pieces(alloc: Global, text: &[u8], size: usize) -> Answer {
    let mut feeder = Feeder::new(alloc);
    for piece in text.chunks(size.max(1)) {
        feeder.feed(piece)?;
    }
    Ok(feeder.finish()?.len() as u64)
}

// The answer of a feeder that is fed the text in two pieces.
fn by_cutting(alloc: Global, text: &[u8], at: usize) -> Answer {
    let (front, behind) = text.split_at(at.min(text.len()));
    let mut feeder = Feeder::new(alloc);
    feeder.feed(front)?;
    feeder.feed(behind)?;
    Ok(feeder.finish()?.len() as u64)
}

fn why_of(end: CutEnd<Never>) -> Why {
    match end {
        CutEnd::Refused(refusal) => Why::from(refusal),
        CutEnd::Fault(never) => match never {},
    }
}

// The count of a counter after a cutter that is fed the text in two pieces.
fn by_counting(alloc: Global, text: &[u8], at: usize) -> Answer {
    let (front, behind) = text.split_at(at.min(text.len()));
    let mut cutter = Cutter::new(alloc);
    let mut counter = Counter { count: 0 };
    for piece in [front, behind] {
        if let Err(end) = cutter.feed(piece, &mut counter) {
            return Err(why_of(end));
        }
    }
    match cutter.finish(&mut counter) {
        Ok(()) => Ok(counter.count),
        Err(end) => Err(why_of(end)),
    }
}

fn line_of(alloc: Global, answer: Answer) -> Result<String, AllocError> {
    match answer {
        Ok(count) => format!(in alloc; "ok {count}"),
        Err(Why::Line(fault)) => format!(in alloc; "{fault}"),
        Err(Why::TooManyEntries) => String::from_str(alloc, "too many entries"),
        Err(Why::Memory) => String::from_str(alloc, "no memory"),
    }
}

// Whether the readers of whole texts answer so, and those of pieces of some sizes.
fn is_read(alloc: Global, text: &[u8], want: Answer, line: &str) -> bool {
    let needs_earlier_paths = line.ends_with("7 Duplicate") || line.ends_with("8 VendorMissing");
    by_pieces(alloc, text, 1) == want
        && by_pieces(alloc, text, 7) == want
        && (needs_earlier_paths || by_lines(text) == want)
        && is_checked(alloc, text, 1, line)
        && is_checked(alloc, text, 2, line)
        && is_checked(alloc, text, 7, line)
        && is_checked(alloc, text, 16_384, line)
        && is_checked(alloc, text, 65_536, line)
}

// Whether they do that are fed the text in two pieces of any sizes.
fn is_cut(alloc: Global, text: &[u8], want: Answer) -> bool {
    for at in 0..text.len() {
        if by_cutting(alloc, text, at) != want || by_counting(alloc, text, at) != want {
            return false;
        }
    }
    true
}

fn is_row_so(alloc: Global, row: &str) -> Result<bool, Fail> {
    let (text, line) = row.split_once(" | ").ok_or("a row")?;
    let text = text_of(alloc, text)?;
    let answer = by_read_ids(alloc, &text);
    let is_so = line_of(alloc, answer)?.as_str() == line;
    Ok(is_so && is_read(alloc, &text, answer, line) && is_cut(alloc, &text, answer))
}

#[test]
fn rows_whole_and_cut(rt: HostRuntime) -> Result<(), Fail> {
    for row in ROWS.lines().skip(1) {
        assert!(rt; is_row_so(rt.alloc(), row)?, "{row}");
    }
    Ok(())
}

const QEMU: &[u8] =
    b"8086  Intel Corporation\n\t1237  440FX\n\t\t1af4 1100  Qemu machine\n1af4  Red Hat, Inc.\n";

// Each prefix of a file has one answer, however it is read.
#[test]
fn prefixes_have_one_answer(rt: HostRuntime) -> Result<(), Fail> {
    let alloc = rt.alloc();
    for end in 0..=QEMU.len() {
        let (text, _) = QEMU.split_at(end);
        let whole = by_read_ids(alloc, text);
        let line = line_of(alloc, whole)?;
        assert!(rt; is_read(alloc, text, whole, line.as_str()), "{end}");
    }
    Ok(())
}

const GENERICS: &[u8] =
    b"1af4  Red Hat\nS 1AF4\n\t1100  Qemu\n\t0001  Net\nC 01  Mass\n8086  I\nS 1af4\n\t0002  Blk\n";

// To be run with each allocation refused in turn.
#[test]
fn want_of_memory_changes_no_answer(rt: HostRuntime) {
    let alloc = rt.alloc();
    let whole = by_read_ids(alloc, GENERICS);
    assert!(rt; matches!(whole, Ok(6) | Err(Why::Memory)));
    let fed = by_pieces(alloc, GENERICS, 3);
    assert!(rt; matches!(fed, Ok(6) | Err(Why::Memory)));
    let (line, kind) = (2, LineKind::Duplicate);
    let refused = by_read_ids(alloc, b"8086  I\n8086  J\n");
    let wanted = Err(Why::Line(LineFault { line, kind }));
    assert!(rt; refused == wanted || refused == Err(Why::Memory));
}

#[test]
fn names_are_kept(rt: HostRuntime) -> Result<(), Fail> {
    let read = read_ids(rt.alloc(), b"8086  a\tb #  \n\t1237 I\r\n");
    let tree = read.ok().ok_or("no tree")?;
    let (vendor, device) = (0x8086, 0x1237);
    let first = tree.get(&Path::Vendor { vendor }).ok_or("no vendor")?;
    let second = tree
        .get(&Path::Device { vendor, device })
        .ok_or("no device")?;
    assert!(rt; first.as_str() == "a\tb #  " && second.as_str() == "I");
    Ok(())
}

// Whether a cutter takes the first piece or not, and then no more, whatever it is fed.
fn is_refused_ever_after(alloc: Global, front: &[u8], behind: &[u8]) -> bool {
    let mut sink = Counter { count: 0 };
    let mut cutter = Cutter::new(alloc);
    let (line, kind) = (2, LineKind::Duplicate);
    let wanted = Why::Line(LineFault { line, kind });
    if cutter.feed(front, &mut sink).is_err() != (front.len() >= 16) {
        return false;
    }
    for _again in 0..2u8 {
        match cutter.feed(behind, &mut sink) {
            Ok(()) => return false,
            Err(end) => {
                if why_of(end) != wanted {
                    return false;
                }
            }
        }
    }
    cutter.finish(&mut sink).is_err() && sink.count == 1
}

#[test]
fn refused_ever_after(rt: HostRuntime) {
    let text: &[u8] = b"8086  I\n8086  J\n10ec  R\n";
    for at in 0..=text.len() {
        let (front, behind) = text.split_at(at);
        assert!(rt; is_refused_ever_after(rt.alloc(), front, behind), "{at}");
    }
}

#[test]
fn a_fault_says_its_line_and_kind(rt: HostRuntime) -> Result<(), Fail> {
    let alloc = rt.alloc();
    let (line, kind) = (2, LineKind::Duplicate);
    let fault = LineFault { line, kind };
    let text = format!(in alloc; "{fault}")?;
    assert!(rt; text.as_str() == "line 2: 7 Duplicate");
    Ok(())
}

fn is_next(lines: &mut Lines<'_>, line: usize, name: &str) -> bool {
    match lines.next() {
        Some(Ok(entry)) => entry.line == line && entry.name == name,
        _ => false,
    }
}

fn is_bad_next(lines: &mut Lines<'_>, at: usize) -> bool {
    match lines.next() {
        Some(Err(LineFault { line, kind })) => line == at && kind == LineKind::BadId,
        _ => false,
    }
}

#[test]
fn lines_one_by_one(rt: HostRuntime) {
    let mut lines = Lines::new(b"8086  I\n# c\n\t1237  A\n\t1237  B\r\nS 1111\n\tzz\n10ec  R");
    for (line, name) in [(1, "I"), (3, "A"), (4, "B")] {
        assert!(rt; is_next(&mut lines, line, name), "line {line}");
    }
    assert!(rt; is_bad_next(&mut lines, 6));
    assert!(rt; lines.next().is_none());
}

// The vendors 0000 to ffff, so many devices of the last one, and what follows.
fn many(alloc: Global, devices: u16, more: &[u8]) -> Result<Vec<u8>, AllocError> {
    let mut text = Vec::new(alloc);
    for vendor in 0..=u16::MAX {
        text.extend_from_slice(&pid_ident::hex4(vendor))?;
        text.extend_from_slice(b"  a\n")?;
    }
    for device in 0..devices {
        text.extend_from_slice(b"\t")?;
        text.extend_from_slice(&pid_ident::hex4(device))?;
        text.extend_from_slice(b"  a\n")?;
    }
    text.extend_from_slice(more)?;
    Ok(text)
}

// The limits of entries, and of so many bytes as a caller allows. `tests/test_limits.py` has those of
// the program.
#[test]
fn limits_of_a_text(rt: HostRuntime) -> Result<(), Fail> {
    let alloc = rt.alloc();
    let full = many(alloc, 34_464, b"")?;
    assert!(rt; by_read_ids(alloc, &full) == Ok(100_000));
    let (line, kind) = (100_001, LineKind::Duplicate);
    let one_more = Err(Why::TooManyEntries);
    let repeat = Err(Why::Line(LineFault { line, kind }));
    let rows: [(&[u8], Answer); 3] = [
        (b"\t86a0  a\n", one_more),
        (b"\t0000  a\n", repeat),
        (b"S 0001\n", Ok(100_000)),
    ];
    for (more, want) in rows {
        let text = many(alloc, 34_464, more)?;
        assert!(rt; by_counting(alloc, &text, 0) == want);
    }
    assert!(rt; is_within(alloc, 15, "line 2: 7 Duplicate") && is_within(alloc, 14, "too large"));
    Ok(())
}
