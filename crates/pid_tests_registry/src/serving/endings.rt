//! Streams that have few reads, and a handler that can't go on.
use crate::serving::desk::serve;
use pid_http_stream::{Served, StreamEnd};
use std::alloc::Global;
use std::test::Fail;

const TWO: &[u8] =
    b"GET /none HTTP/1.1\r\n\r\nPOST /import HTTP/1.1\r\nContent-Length: 4\r\n\r\n8086";

// Whether nothing is written for both, which are read by single bytes, in so many turns.
fn is_silent(alloc: Global, turns: u64) -> bool {
    let outcome = serve(alloc, TWO, 1, turns, false);
    let (answered, end) = (0, StreamEnd::TurnsSpent);
    outcome.served == Served { answered, end } && outcome.written.is_empty()
}

// The first request has 22 bytes. With the last byte of the second the turns are just enough for
// it.
#[test]
fn turns_are_spent(rt: HostRuntime) -> Result<(), Fail> {
    let alloc = rt.alloc();
    assert!(rt; is_silent(alloc, 1) && is_silent(alloc, 21));
    let all = TWO.len() as u64;
    for (turns, answered, end) in [
        (all - 1, 1, StreamEnd::TurnsSpent),
        (all, 2, StreamEnd::TurnsSpent),
        (all + 1, 2, StreamEnd::Clean),
    ] {
        assert!(rt;
            serve(alloc, TWO, 1, turns, false).served == Served { answered, end },
            "{turns}"
        );
    }
    Ok(())
}

const STOPPED: &[u8] = b"HTTP/1.1 200 OK\r\nContent-Type: text/plain; charset=utf-8\r\n\
        Content-Length: 8\r\n\r\n8086";

// The writer takes some bytes a write, and each piece of a reply is a write of its own.
#[test]
fn a_body_that_stops(rt: HostRuntime) -> Result<(), Fail> {
    let stream = b"GET /pci.ids HTTP/1.1\r\n\r\nGET /none HTTP/1.1\r\n\r\n";
    let outcome = serve(rt.alloc(), stream, 9, 100, true);
    let (answered, end) = (0, StreamEnd::StoreFault);
    assert!(rt; outcome.served == Served { answered, end });
    assert!(rt; outcome.written.as_slice() == STOPPED);
    Ok(())
}
