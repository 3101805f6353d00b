//! One connection after the other.
ghost use Rattle.pid_http_stream.specs.Listener.Servings.{CountsStreams, IsLiveAt};
ghost use Rattle.pid_http_stream.specs.Listener.Streams.{IsGivenMore};

use crate::listener::connection::serve_connection;
use crate::listener::server::StreamServer;
use std::alloc::Global;
use std::io::ErrorKind;
use std::net::{TcpListener, TcpStream};

/// How the serving of connections ended.
#[derive(Clone, Copy, PartialEq, Eq)]
pub enum ServingEnd {
    /// All were served that were to be, and the server is live.
    All,
    /// The server is not live.
    NotLive,
    /// No further connection could be accepted.
    AcceptFault,
}

/// What came of the serving of connections.
#[derive(Clone, Copy, PartialEq, Eq)]
pub struct Serving {
    /// How many streams were begun: each was given to the server, once.
    pub streams: u32,
    pub end: ServingEnd,
}

// The next connection. One that its client closed before, or a wait that a signal interrupts, is
// none.
fn next_connection(listener: &TcpListener) -> Option<TcpStream> {
    for _ in 0..u64::MAX {
        match listener.accept() {
            Ok((stream, _)) => return Some(stream),
            Err(error) => match error.kind() {
                ErrorKind::Interrupted | ErrorKind::ConnectionAborted => {}
                _ => return None,
            },
        }
    }
    None
}

/// Serves the streams of so many connections, one after the other, 1,000,000 reads each.
///
/// Whatever ends one stream leaves the next ones to be served. It stops if the server is not live,
/// before the first stream or after one, and if no connection can be accepted.
pub fn serve_on<S: StreamServer>(
    alloc: Global,
    listener: &TcpListener,
    server: &mut S,
    connections: u32,
) -> Serving
    ensures goes { S.goes server.old server.new }
    ensures counted { IsGivenMore result.streams (S.given server.old) (S.given server.new) }
    ensures streams { CountsStreams result.end connections result.streams }
    ensures live { IsLiveAt result.end result.streams (S.live server.old, S.live server.new) }
{
    if !server.is_live() {
        return Serving {
            streams: 0,
            end: ServingEnd::NotLive,
        };
    }
    for begun in 0..connections {
        let Some(stream) = next_connection(listener) else {
            return Serving {
                streams: begun,
                end: ServingEnd::AcceptFault,
            };
        };
        serve_connection(alloc, &stream, server);
        if !server.is_live() {
            return Serving {
                streams: begun + 1,
                end: ServingEnd::NotLive,
            };
        }
    }
    Serving {
        streams: connections,
        end: ServingEnd::All,
    }
}
