//! A stream over a registry in memory, and what is written for it.
use pid_doubles::{FaultyInput, FaultyOutput};
use pid_http::serve_stream;
use pid_http_stream::Served;
use pid_ident::Input;
use pid_service::{Registry, open};
use pid_tables::WritableDatabase;
use sqlite::{Connection, MemStore};
use std::alloc::Global;
use std::test::Fail;

// More reads than any stream of these tests takes.
const TURNS: u64 = 100_000;

fn new_in_memory(alloc: Global) -> Result<Registry<Connection<MemStore>>, Fail> {
    let conn = Connection::open_in_memory(alloc)?;
    if !conn.is_autocommit() {
        return Err("a transaction is left")?;
    }
    match open(alloc, conn) {
        Ok(registry) => Ok(registry),
        Err((_, _)) => Err("no registry")?,
    }
}

/// How a stream ended, and what its registry wrote for the next one.
#[derive(Drop)]
pub(crate) struct Session {
    pub(crate) served: Served,
    pub(crate) after: Vec<u8>,
    pub(crate) is_live: bool,
}

/// Serves what the reader reads over a new registry, and then what is asked after it.
pub(crate) fn serve_new<I: Input>(
    alloc: Global,
    input: &mut I,
    output: &mut FaultyOutput,
    asked: &[u8],
) -> Result<Session, Fail> {
    let mut registry = new_in_memory(alloc)?;
    Ok(served_over(alloc, &mut registry, input, output, asked))
}

fn served_over<C: WritableDatabase + Drop, I: Input>(
    alloc: Global,
    registry: &mut Registry<C>,
    input: &mut I,
    output: &mut FaultyOutput,
    asked: &[u8],
) -> Session {
    let served = serve_stream(alloc, registry, input, output, TURNS);
    let mut again = FaultyInput::new(asked, 65_536);
    let mut written = FaultyOutput::new(alloc, 4_096);
    serve_stream(alloc, registry, &mut again, &mut written, TURNS);
    Session {
        served,
        after: written.taken,
        is_live: registry.is_live(),
    }
}
