//! When replies go out.
use crate::serving::account::{Account, Kept};
use crate::serving::desk::Desk;
use pid_doubles::FaultyOutput;
use pid_http_stream::{StreamEnd, serve_stream};
use std::alloc::Global;
use std::test::Fail;

const FIRST: &[u8] = b"GET /none HTTP/1.1\r\n\r\n";

const THREE: &[u8] = b"GET /none HTTP/1.1\r\n\r\nPOST /import HTTP/1.1\r\nContent-Length: 4\r\n\r\n\
        8086GET /none HTTP/1.0\r\n\r\n";

const FIRST_REPLY: &str =
    "HTTP/1.1 404 Not Found\r\nContent-Type: application/json\r\nContent-Length: 42\r\n\r\n\
        {\"ok\":false,\"refused\":24,\"word\":\"NoRoute\"}";

const SECOND_REPLY: &str =
    "HTTP/1.1 200 OK\r\nContent-Type: text/plain; charset=utf-8\r\nContent-Length: 6\r\n\
        \r\ntaken\n";

// How many requests are whole, with so many bytes of the stream still to come.
fn whole_requests(to_come: usize) -> usize {
    let third = b"GET /none HTTP/1.0\r\n\r\n".len();
    if to_come > THREE.len() - FIRST.len() {
        0
    } else if to_come > third {
        1
    } else {
        2
    }
}

// Whether at this read the replies to the whole requests had been taken, and no more.
fn is_caught_up(kept: &Kept<'_>, taken: &[u8]) -> bool {
    let both = FIRST_REPLY.len() + SECOND_REPLY.len();
    let length = match whole_requests(kept.to_come.len()) {
        0 => 0,
        1 => FIRST_REPLY.len(),
        _ => both,
    };
    kept.taken.len() == length && taken.starts_with(&kept.taken)
}

#[test]
fn replies_are_out_before_each_read(rt: HostRuntime) -> Result<(), Fail> {
    let alloc = rt.alloc();
    let mut desk = Desk {
        alloc,
        store_fails: false,
    };
    let mut account = Account::new(alloc, THREE);
    let mut output = FaultyOutput::new(alloc, 7);
    let served = serve_stream(alloc, &mut desk, &mut account, &mut output, 1_000);
    assert!(rt; served.end == StreamEnd::Closed && !account.is_lost);
    assert!(rt; account.kept.len() == THREE.len());
    for kept in &account.kept {
        assert!(rt; is_caught_up(kept, &output.taken));
    }
    assert!(rt; output.taken.starts_with(FIRST_REPLY.as_bytes()));
    Ok(())
}

// Whether this head, with a request before it and another after it, is refused as soon as it has
// come: it is not read on first.
fn is_refused_at_once(alloc: Global, head: &[u8]) -> Result<bool, Fail> {
    let mut stream = Vec::from_slice(alloc, FIRST)?;
    stream.extend_from_slice(head)?;
    stream.extend_from_slice(FIRST)?;
    let mut desk = Desk {
        alloc,
        store_fails: false,
    };
    let mut account = Account::new(alloc, &stream);
    let mut output = FaultyOutput::new(alloc, 7);
    let served = serve_stream(alloc, &mut desk, &mut account, &mut output, 1_000);
    let is_first_out = match account.kept.last() {
        Some(kept) => kept.taken.as_slice() == FIRST_REPLY.as_bytes(),
        None => false,
    };
    Ok(
        is_first_out
            && served.answered == 2
            && account.kept.len() == FIRST.len() + head.len()
            && output.taken.starts_with(FIRST_REPLY.as_bytes())
            && output.taken.ends_with(b"}"),
    )
}

#[test]
fn a_refusal_is_out_before_the_next_read(rt: HostRuntime) -> Result<(), Fail> {
    for head in [
        b"GET\n".as_slice(),
        b"POST / HTTP/1.1\r\nContent-Length: x\r\n\r\n".as_slice(),
        b"POST / HTTP/1.1\r\nTransfer-Encoding: chunked\r\n\r\n".as_slice(),
        b"POST / HTTP/1.1\r\nContent-Length: 4194305\r\n\r\n".as_slice(),
    ] {
        assert!(rt; is_refused_at_once(rt.alloc(), head)?);
    }
    Ok(())
}
