//! A stream of requests over a registry.
ghost use Rattle.pid_http_stream.specs.OneStream.{ServesStream};
ghost use Rattle.pid_http.specs.Streams.{over};

use crate::api::Routes;
use crate::handling::Service;
use pid_http_stream::{Incoming, Served, StreamEnd, serve_stream as serve_requests};
use pid_ident::Output;
use pid_service_laws::RegistryQueries;
use std::alloc::Global;

/// Answers the requests of a stream over a registry, one after another, in at most so many reads.
///
/// Each reply is that to the request over the history that the registry shows then, and the writer
/// has taken it before another read is made. The calls of the registry's session send it the
/// commands of these requests, in their order. If memory runs out or the store fails, the reply is
/// that refusal. If the registry failed so at a command, each later request that asks something of
/// it is refused as well, and it has to be opened again. Bodies and replies are held in memory, but
/// for the file of an import and the text of all items, which pass through in chunks (tested over
/// sockets, no clause says it).
///
/// # How it ends
///
/// - `Clean`, `Closed`, `Refused`: all requests of the stream were answered, and
///   then what is no request was refused.
/// - `ReadFault`, `TurnsSpent`: the requests that came whole were answered.
/// - `Memory`: the requests before were answered; the next may have been obeyed, and what came of
///   it is not refused.
/// - `WriteFault`: the requests before were answered, and a prefix of the next reply was written,
///   which may be all of it if the writer failed after it; the next may have been obeyed.
/// - `StoreFault`: the same within the text of all items, which the registry broke off, over a
///   writer that is good.
///
/// If there is no memory for the routes, it ends so before anything is read. A server makes them
/// once, and calls `serve_with`.
pub fn serve_stream<R: RegistryQueries, I: Incoming<W>, W: Output>(
    alloc: Global,
    registry: &mut R,
    reader: &mut I,
    writer: &mut W,
    turns: u64,
) -> Served
    // The bytes are the replies to the stream's requests over the histories that the registry
    // shows, and it shows the one after them. The commands of the requests are what the calls of
    // its session sent it. As what is known of the registry at the start (`v` of `served`) a reader
    // takes a `SessionState`: `start` is this registry, there are no `calls` yet, and `known` is `Live h` if
    // it shows the history `h`, `Down` if it had failed earlier. Wherever it ends, it is a part of
    // the registry's session (`becomes`); and one that has failed stays as it is.
    ensures { ServesStream (over R.RegistryCalls) I.Incoming W.Output (registry.old, registry.new)
        (reader.old, reader.new) (writer.old, writer.new) turns result }
{
    let Ok(routes) = Routes::new(alloc) else {
        return Served {
            answered: 0,
            end: StreamEnd::Memory,
        };
    };
    serve_with(alloc, &routes, registry, reader, writer, turns)
}

/// The same by routes that were made before.
pub fn serve_with<R: RegistryQueries, I: Incoming<W>, W: Output>(
    alloc: Global,
    routes: &Routes,
    registry: &mut R,
    reader: &mut I,
    writer: &mut W,
    turns: u64,
) -> Served
    ensures { ServesStream (over R.RegistryCalls) I.Incoming W.Output (registry.old, registry.new)
        (reader.old, reader.new) (writer.old, writer.new) turns result }
{
    let mut service = Service {
        alloc,
        registry,
        routes,
    };
    serve_requests(alloc, &mut service, reader, writer, turns)
}
