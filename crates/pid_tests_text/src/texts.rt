//! Texts tidied and checked: their ends, and readers and writers that fail.
use pid_doubles::{FaultyInput, FaultyOutput};
use pid_file::{TextEnd, check, count_input, report_unread, tidy};
use pid_ident::{LineKind, WriteFault};
use std::alloc::Global;

const VENDORS: &[u8] = b"8086   Intel\n\t1237\t 440FX\n10EC\tRealtek\n";

const VENDORS_TIDIED: &[u8] = b"# PCI ID registry\n10ec  Realtek\n8086  Intel\n\t1237  440FX\n";

// Whether this is printed of a text that is read in chunks of at most so many bytes.
fn is_tidied(alloc: Global, text: &[u8], most: usize, want: &[u8]) -> bool {
    let mut input = FaultyInput::new(text, most);
    let mut output = FaultyOutput::new(alloc, 7);
    let mut faults = FaultyOutput::new(alloc, 7);
    let end = tidy(alloc, &mut input, &mut output, &mut faults);
    matches!(end, TextEnd::Done) && output.taken.as_slice() == want && faults.taken.is_empty()
}

// Whether an end is the one of this line, and the line is all that was printed.
fn is_end_of(end: TextEnd, want: &str, printed: &[u8]) -> bool {
    let is_so = match end {
        TextEnd::Done => want.starts_with("ok "),
        TextEnd::Line { .. } => want.starts_with("line "),
        TextEnd::TooManyEntries => want == "too many entries",
        TextEnd::TooLarge => want == "too large",
        TextEnd::Memory | TextEnd::ReadFault | TextEnd::WriteFault => false,
    };
    is_so && printed.strip_suffix(b"\n") == Some(want.as_bytes())
}

/// Whether `check` ends with this line of a text that is read in chunks of at most so many bytes.
pub fn is_checked(alloc: Global, text: &[u8], most: usize, want: &str) -> bool {
    let mut input = FaultyInput::new(text, most);
    let mut output = FaultyOutput::new(alloc, 7);
    let end = check(alloc, &mut input, &mut output);
    is_end_of(end, want, &output.taken)
}

/// Whether this line is reported of a text of 15 bytes whose second line is faulty, if so many
/// bytes are allowed.
pub fn is_within(alloc: Global, limit: usize, want: &str) -> bool {
    let mut input = FaultyInput::new(b"8086  I\n8086  J", 3);
    let mut faults = FaultyOutput::new(alloc, 7);
    let Err(unread) = count_input(alloc, limit, &mut input) else {
        return false;
    };
    let end = report_unread(unread, &mut faults);
    is_end_of(end, want, &faults.taken)
}

// Whether nothing but the fault of the second line is reported.
fn is_refused(alloc: Global) -> bool {
    let mut input = FaultyInput::new(b"8086  I\n8086  J", 3);
    let mut output = FaultyOutput::new(alloc, 7);
    let mut faults = FaultyOutput::new(alloc, 7);
    let end = tidy(alloc, &mut input, &mut output, &mut faults);
    let is_second = matches!(
        end,
        TextEnd::Line {
            line: 2,
            kind: LineKind::Duplicate
        }
    );
    is_second
        && end.status() == 1
        && output.taken.is_empty()
        && faults.taken.as_slice() == b"line 2: 7 Duplicate\n".as_slice()
}

#[test]
fn texts_are_tidied_however_they_are_cut(rt: HostRuntime) {
    let printed: [(&[u8], &[u8]); 3] = [
        (b"", b"# PCI ID registry\n"),
        (VENDORS, VENDORS_TIDIED),
        (b"8086  a\tb #  \n", b"# PCI ID registry\n8086  a\tb #  \n"),
    ];
    for (text, want) in printed {
        for most in 1..=text.len().max(1) {
            assert!(rt; is_tidied(rt.alloc(), text, most, want), "{most}");
        }
    }
    assert!(rt; is_refused(rt.alloc()));
}

// Whether a reader that fails after so many calls leaves nothing to be written.
fn is_unread(alloc: Global, text: &[u8], calls: u64) -> bool {
    let mut input = FaultyInput::new(text, 5).failing_after(calls);
    let mut output = FaultyOutput::new(alloc, 64);
    let mut faults = FaultyOutput::new(alloc, 64);
    let end = tidy(alloc, &mut input, &mut output, &mut faults);
    matches!(end, TextEnd::ReadFault)
        && end.status() == 3
        && output.taken.is_empty()
        && faults.taken.is_empty()
}

// Whether a writer that fails after so many bytes of the tidied text took these, and no fault is
// reported.
fn is_written(alloc: Global, count: usize, fault: WriteFault) -> bool {
    let mut input = FaultyInput::new(VENDORS, 64);
    let mut output = FaultyOutput::new(alloc, 1).failing_after(count as u64, fault);
    let mut faults = FaultyOutput::new(alloc, 64);
    let end = tidy(alloc, &mut input, &mut output, &mut faults);
    matches!(end, TextEnd::WriteFault)
        && output.taken.len() == count
        && VENDORS_TIDIED.starts_with(&output.taken)
        && faults.taken.is_empty()
}

const NO_PARENT: &[u8] = b"line 1: 3 NoParent\n";

// The same of a line that reports a fault.
fn is_told(alloc: Global, count: usize, fault: WriteFault) -> bool {
    let mut input = FaultyInput::new(b"\t1237  X", 64);
    let mut output = FaultyOutput::new(alloc, 1).failing_after(count as u64, fault);
    let end = check(alloc, &mut input, &mut output);
    matches!(end, TextEnd::WriteFault)
        && output.taken.len() == count
        && NO_PARENT.starts_with(&output.taken)
}

// A read that fails is reported before all else, also after a faulty line (the second text, after
// four calls); a writer that fails took a prefix.
#[test]
fn readers_and_writers_fail(rt: HostRuntime) {
    let alloc = rt.alloc();
    for calls in 0..5u64 {
        assert!(rt; is_unread(alloc, VENDORS, calls), "{calls}");
        assert!(rt; is_unread(alloc, b"8086  I\n8086  J\n", calls), "{calls}");
    }
    for fault in [WriteFault::Device, WriteFault::Zero] {
        for count in 0..VENDORS_TIDIED.len() {
            assert!(rt; is_written(alloc, count, fault), "{count}");
        }
        for count in 0..NO_PARENT.len() {
            assert!(rt; is_told(alloc, count, fault), "{count}");
        }
    }
}
