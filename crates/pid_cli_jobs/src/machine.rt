//! What a job can ask of the machine that it runs on.
use crate::unopened::Unopened;
use pid_http_stream::listener::{Serving, StreamServer};
use pid_ident::Output;
use sqlite::{Connection, MemStore};
use std::alloc::Global;
use std::io::Read;

/// Where databases are opened.
pub trait Databases {
    ghost use Rattle.std.specs.Prelude.{ℕ, List, IfErr, IfOk, IfSome};
    ghost use Rattle.pid_cli_jobs.specs.Sessions.{IsOfDatabase};

    /// A connection to a database.
    type Connection: Drop;

    /// The connection is new, and was opened at this path.
    ghost is_at: { List ℕ → Self.Connection → Type 0 };

    /// The connection was closed.
    ghost is_closed: { Self.Connection → Type 0 };

    fn alloc(&self) -> Global;

    /// Opens the database at a path, which is created if it is not there.
    fn open(&mut self, path: &str) -> Result<Self::Connection, Unopened>
        ensures opened { IfOk result (is_at path.now) }
        ensures unopened { IfErr result IsOfDatabase };

    /// Takes a connection and closes it. If its log can't be copied into the file, it stays next to
    /// the file for the next opening.
    fn close(&mut self, conn: &mut Option<Self::Connection>)
        ensures { IfSome conn.old is_closed };
}

/// All that a job can ask of the machine it runs on, but for its streams.
pub trait Machine: Databases {
    ghost use Rattle.std.specs.Prelude.{◌≡◌, ℕ, List, Option, IfSome};
    ghost use Rattle.pid_http_stream.specs.Listener.Servings.{CountsStreams, IsLiveAt};
    ghost use Rattle.pid_http_stream.specs.Listener.Streams.{IsGivenMore};
    ghost use Rattle.pid_http_stream.specs.declared.listener.serving.Serving.{Serving};

    /// An open pci.ids file.
    type Opened: Read + Drop;

    /// A port that is listened on.
    type Listener: Drop;

    /// The file was opened at this path.
    ghost is_text: { List ℕ → Self.Opened → Type 0 };

    /// The port that a listener is for.
    ghost port_of: { Self.Listener → ℕ };

    /// These streams came from this listener, once an output had taken this.
    ghost is_serving: { Self.Listener → Option (List ℕ) → Serving → Type 0 };

    /// Opens the pci.ids file at a path.
    fn open_text(&mut self, path: &str) -> Option<Self::Opened>
        ensures { IfSome result (is_text path.now) };

    /// Listens on a port, for clients on this machine and for no others.
    fn listen(&mut self, port: u16) -> Option<Self::Listener>
        ensures { IfSome result (λ listener. port_of listener ≡ port) };

    /// Gives the streams of so many connections to a server, one after the other, each while it is
    /// live. Stops if it is not, and if no connection can be accepted. The output stays as it is:
    /// it says what was printed before.
    fn serve<T: StreamServer, O: Output>(
        &mut self,
        listener: &Self::Listener,
        output: &O,
        server: &mut T,
        connections: u32,
    ) -> Serving
        ensures serving { is_serving listener.now (O.taken output.now) result }
        ensures goes { T.goes server.old server.new }
        ensures streams { CountsStreams result.end connections result.streams }
        ensures live { IsLiveAt result.end result.streams (T.live server.old, T.live server.new) }
        ensures counted { IsGivenMore result.streams (T.given server.old) (T.given server.new) };
}

/// New databases in memory, whatever the path.
#[derive(Drop)]
pub struct InMemory(pub Global);

impl Databases for InMemory {
    ghost use Rattle.sqlite.specs.Held.{IsNew, state};
    ghost use Rattle.sqlite.specs.Steps.{IsEmpty, over_memory};

    type Connection = Connection<MemStore>;

    ghost is_at = { λ _ conn. IsNew conn × IsEmpty (state over_memory conn) };

    ghost is_closed = { λ _. Unit };

    fn alloc(&self) -> Global {
        self.0
    }

    fn open(&mut self, _path: &str) -> Result<Connection<MemStore>, Unopened> {
        match Connection::open_in_memory(self.0) {
            Ok(conn) => Ok(conn),
            Err(_) => Err(Unopened::Memory),
        }
    }

    fn close(&mut self, conn: &mut Option<Connection<MemStore>>) {
        drop(conn.take());
    }
}
