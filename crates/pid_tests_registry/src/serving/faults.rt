//! Readers and writers that fail under a stream, at each byte.
use crate::serving::exchange::serve_new;
use crate::serving::streams::{THEIR_REPLIES, THREE};
use pid_doubles::{FaultyInput, FaultyOutput};
use pid_http_stream::{Served, StreamEnd};
use pid_ident::WriteFault;
use std::alloc::Global;
use std::process::Abort;
use std::test::Fail;

// The first request has 79 bytes and its reply 82, the second 25 and 98.
const REQUESTS: [usize; 2] = [79, 104];

const REPLIES: [usize; 2] = [82, 180];

// How many of these ends are within so many bytes.
fn whole_in(ends: [usize; 2], bytes: usize) -> u64 {
    if bytes < ends[0] {
        0
    } else if bytes < ends[1] {
        1
    } else {
        2
    }
}

// How many bytes the first replies have.
fn length_of(replies: u64) -> usize {
    match replies {
        0 => 0,
        1 => REPLIES[0],
        _ => REPLIES[1],
    }
}

// Whether the output is the first bytes of the replies, so many.
fn are_first(output: &FaultyOutput, count: usize) -> bool {
    output.taken.len() == count && THEIR_REPLIES.starts_with(&output.taken)
}

// Whether after so many good reads the requests that came whole are answered.
fn answers_what_came(alloc: Global, good: usize) -> Result<bool, Fail> {
    let mut input = FaultyInput::new(THREE, 1).failing_after(good as u64);
    let mut output = FaultyOutput::new(alloc, 4_096);
    let session = serve_new(alloc, &mut input, &mut output, b"")?;
    let answered = whole_in(REQUESTS, good);
    let end = StreamEnd::ReadFault;
    Ok(
        session.served == Served { answered, end }
            && are_first(&output, length_of(answered))
            && session.is_live,
    )
}

#[test]
fn each_read_fails(rt: HostRuntime) -> Result<(), Fail> {
    for good in 0..=THREE.len() {
        assert!(rt; answers_what_came(rt.alloc(), good)?, "{good}");
    }
    Ok(())
}

const IMPORT: &[u8] =
    b"POST /import HTTP/1.1\r\nX-Account: root\r\nContent-Length: 27\r\n\r\n8086  Intel\n\
        10ec  Realtek\n\n";

const ITEMS: &[u8] = b"GET /pci.ids HTTP/1.1\r\n\r\n";

const NO_ITEMS: &[u8] = b"HTTP/1.1 200 OK\r\nContent-Type: text/plain; charset=utf-8\r\n\
        Content-Length: 18\r\n\r\n# PCI ID registry\n";

// Whether of the file after so many good reads nothing stays.
fn keeps_nothing(alloc: Global, good: usize) -> Result<bool, Fail> {
    let mut input = FaultyInput::new(IMPORT, 1).failing_after(good as u64);
    let mut output = FaultyOutput::new(alloc, 4_096);
    let session = serve_new(alloc, &mut input, &mut output, ITEMS)?;
    let (answered, end) = (0, StreamEnd::ReadFault);
    Ok(
        session.served == Served { answered, end }
            && output.taken.is_empty()
            && session.after.as_slice() == NO_ITEMS,
    )
}

// Of a file that does not come whole nothing stays.
#[test]
fn each_read_of_a_file_fails(rt: HostRuntime) -> Result<(), Fail> {
    for good in 0..IMPORT.len() {
        assert!(rt; keeps_nothing(rt.alloc(), good)?, "{good}");
    }
    Ok(())
}

// The sender is the account that the first command of the stream made.
const SUBMIT: &[u8] = b"POST /submit HTTP/1.1\r\nX-Account: alice\r\nContent-Length: 23\r\n\r\n\
        path=PC/8086&name=Intel";

const KNOWN: &[u8] = b"HTTP/1.1 200 OK\r\nContent-Type: application/json\r\n\
        Content-Length: 19\r\n\r\n{\"num\":1,\"ok\":true}";

// Whether, with a writer that fails after so many bytes, the replies that went out whole are
// counted, and their commands stay.
fn counts_what_went(alloc: Global, good: usize, fault: WriteFault) -> Result<bool, Fail> {
    let answered = whole_in(REPLIES, good);
    let mut input = FaultyInput::new(THREE, 50);
    let mut output = FaultyOutput::new(alloc, 1).failing_after(good as u64, fault);
    let session = serve_new(alloc, &mut input, &mut output, SUBMIT)?;
    let end = StreamEnd::WriteFault;
    let is_known = answered == 0 || session.after.as_slice() == KNOWN;
    Ok(
        session.served == Served { answered, end }
            && are_first(&output, good)
            && session.is_live
            && is_known,
    )
}

// The writer takes a byte a call, and fails after each count of them.
fn each_write_fails(rt: &impl Abort, alloc: Global, fault: WriteFault) -> Result<(), Fail> {
    for good in 0..THEIR_REPLIES.len() {
        assert!(rt; counts_what_went(alloc, good, fault)?, "{good}");
    }
    Ok(())
}

#[test]
fn a_writer_takes_nothing(rt: HostRuntime) -> Result<(), Fail> {
    each_write_fails(&rt, rt.alloc(), WriteFault::Zero)
}

#[test]
fn a_writer_fails(rt: HostRuntime) -> Result<(), Fail> {
    each_write_fails(&rt, rt.alloc(), WriteFault::Device)
}
