//! A stream over a registry that is cut in two at each byte.
use crate::serving::exchange::serve_new;
use pid_doubles::{FaultyInput, FaultyOutput};
use pid_http_stream::{Served, StreamEnd, StreamFault};
use pid_ident::{Input, Plain};
use std::alloc::Global;
use std::io::Read;
use std::test::Fail;

/// A command, the text of all items, and a command whose body is short.
pub(crate) const THREE: &[u8] =
    b"POST /account HTTP/1.1\r\nX-Account: root\r\nContent-Length: 16\r\n\r\n\
        who=alice&rank=0GET /pci.ids HTTP/1.1\r\n\r\nPOST /submit HTTP/1.1\r\nX-Account: alice\r\n\
        Content-Length: 35\r\n\r\npath=PC/8086";

/// The replies to these.
pub(crate) const THEIR_REPLIES: &[u8] =
    b"HTTP/1.1 200 OK\r\nContent-Type: application/json\r\nContent-Length: 11\r\n\r\n\
        {\"ok\":true}HTTP/1.1 200 OK\r\nContent-Type: text/plain; charset=utf-8\r\n\
        Content-Length: 18\r\n\r\n# PCI ID registry\nHTTP/1.1 400 Bad Request\r\n\
        Content-Type: application/json\r\nContent-Length: 44\r\nConnection: close\r\n\r\n\
        {\"ok\":false,\"refused\":23,\"word\":\"BodyShort\"}";

// Whether they are all answered so.
fn are_replied<I: Input>(alloc: Global, input: &mut I) -> Result<bool, Fail> {
    let mut output = FaultyOutput::new(alloc, 4_096);
    let session = serve_new(alloc, input, &mut output, b"")?;
    let (answered, end) = (3, StreamEnd::Refused(StreamFault::BodyShort));
    Ok(session.served == Served { answered, end } && output.taken.as_slice() == THEIR_REPLIES)
}

#[test]
fn cuts_make_no_difference(rt: HostRuntime) -> Result<(), Fail> {
    let alloc = rt.alloc();
    for most in [1, 65_536] {
        assert!(rt; are_replied(alloc, &mut FaultyInput::new(THREE, most))?);
    }
    for cut in 1..THREE.len() {
        let (front, back) = THREE.split_at(cut);
        assert!(rt;
            are_replied(alloc, &mut Plain::new(front.chain(back)))?,
            "{cut}"
        );
    }
    Ok(())
}
