//! The close of a connection.

use std::io::Read;
use std::net::{Shutdown, TcpStream};
use std::time::Duration;

/// The most reads of what a client sent after its last reply.
const READS_DROPPED: u32 = 64;

/// The most bytes of the first of these reads. Most clients send nothing more, and what a buffer
/// costs is that it is filled with zeros.
const FIRST_DROPPED: usize = 512;

/// The most bytes of each of the others.
const READ_DROPPED: usize = 65_536;

/// How long one of them waits, in seconds.
const SECONDS: u64 = 1;

// Drops what a client sends after a first read.
fn drop_rest(mut stream: &TcpStream) {
    let mut dropped = [0u8; READ_DROPPED];
    for _ in 1..READS_DROPPED {
        match stream.read(&mut dropped) {
            Ok(0) | Err(_) => return,
            Ok(_) => {}
        }
    }
}

/// Ends the sending side, then drops what the client still sends, until it closes or a bound is
/// met.
///
/// A connection that is closed with bytes unread is reset, and a client may lose replies that it
/// has not read.
pub(crate) fn close(mut stream: &TcpStream) {
    if stream.shutdown(Shutdown::Write).is_err() {
        return;
    }
    if stream
        .set_read_timeout(Some(Duration::from_secs(SECONDS)))
        .is_err()
    {
        return;
    }
    let mut first = [0u8; FIRST_DROPPED];
    match stream.read(&mut first) {
        Ok(0) | Err(_) => {}
        Ok(_) => drop_rest(stream),
    }
}
