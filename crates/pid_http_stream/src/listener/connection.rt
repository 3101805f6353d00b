//! One connection.
ghost use Rattle.std.specs.Prelude.{◌≡◌, true};
ghost use Rattle.pid_http_stream.specs.Steps.Connections.{ServesOne};

use crate::listener::closing::close;
use crate::listener::connection_io::{Replies, Requests, send_held};
use crate::listener::server::StreamServer;
use pid_ident::Plain;
use std::alloc::Global;
use std::cell::RefCell;
use std::io;
use std::io::{BufReader, BufWriter, Read, Write};
use std::net::TcpStream;

/// The most that is read ahead of what is asked for, in bytes. So many zeros are written for each
/// connection.
const READ_AHEAD: usize = 8_192;

/// The most of a reply that is held back, in bytes.
const HELD_BACK: usize = 65_536;

/// The most reads of one stream.
const TURNS: u64 = 1_000_000;

// The two sides of a connection, with a buffer each.
fn buffered<R: Read + Drop, W: Write + Drop>(
    alloc: Global,
    reader: R,
    writer: W,
) -> io::Result<(BufReader<R>, BufWriter<W>)> {
    let reader = BufReader::with_capacity(alloc, READ_AHEAD, reader)?;
    let writer = BufWriter::with_capacity(alloc, HELD_BACK, writer)?;
    Ok((reader, writer))
}

// Serves what comes from a reader, and sends all replies.
fn serve_buffered<S: StreamServer, R: Read + Drop, W: Write + Drop>(
    reader: BufReader<R>,
    writer: BufWriter<W>,
    server: &mut S,
) -> io::Result<()>
    requires { S.live server.old ≡ true }
    ensures { ServesOne S.StreamServer server.old server.new }
{
    let writer = RefCell::new(writer);
    let mut input = Plain::new(Requests {
        reader,
        writer: &writer,
    });
    let mut output = Plain::new(Replies { writer: &writer });
    let _served = server.serve(&mut input, &mut output, TURNS);
    send_held(&writer)
}

/// Serves the stream of a connection and closes that. If the connection fails the client loses
/// replies, and no one else does; if memory for its buffers is refused the stream is served
/// without them.
pub(crate) fn serve_connection<S: StreamServer>(alloc: Global, stream: &TcpStream, server: &mut S)
    requires { S.live server.old ≡ true }
    ensures { ServesOne S.StreamServer server.old server.new }
{
    let _ = stream.set_nodelay(true);
    match buffered(alloc, stream, stream) {
        Ok((reader, writer)) => {
            let _ = serve_buffered(reader, writer, server);
        }
        // Then each reply is sent in chunks.
        Err(_) => {
            let mut input = Plain::new(stream);
            let mut output = Plain::new(stream);
            let _served = server.serve(&mut input, &mut output, TURNS);
        }
    }
    close(stream);
}
