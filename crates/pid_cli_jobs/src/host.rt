//! The machine of the process.
ghost use Rattle.std.specs.Prelude.{◌≡◌, IfOk, IfSome};
ghost use Rattle.pid_cli_jobs.specs.Files.{ClosesFiles};
ghost use Rattle.pid_cli_jobs.specs.Steps.Addresses.{IsLoopback};

use crate::host_files::{DatabaseFiles, open_database};
use crate::machine::{Databases, Machine};
use crate::unopened::Unopened;
use pid_http_stream::listener::{Serving, StreamServer, serve_on};
use pid_ident::Output;
use sqlite::{Connection, FileStore};
use sqlite_disk::Disk;
use std::alloc::Global;
use std::fs::File;
use std::net::{IpAddr, Ipv4Addr, SocketAddr, TcpListener};
use std::{fs, io};

/// The machine of the process, which opens one database. Which files its paths name is not said,
/// nor what a socket does.
#[derive(Drop)]
pub struct Host<'r, P> {
    rt: &'r HostRuntime,
    files: Option<P>,
}

impl<'r, P: DatabaseFiles> Host<'r, P> {
    /// `files` opens the two of the database.
    pub fn new(rt: &'r HostRuntime, files: P) -> Host<'r, P> {
        Host {
            rt,
            files: Some(files),
        }
    }
}

impl<P: DatabaseFiles> Databases for Host<'_, P> {
    ghost use Rattle.pid_cli_jobs.specs.Files.{ClosesFiles, OpensFiles};

    type Connection = Connection<FileStore<P::File>>;

    ghost is_at = { λ _ conn. OpensFiles P.image conn };

    ghost is_closed = { λ conn. ClosesFiles conn };

    fn alloc(&self) -> Global {
        self.rt.alloc()
    }

    fn open(&mut self, path: &str) -> Result<Connection<FileStore<P::File>>, Unopened> {
        match self.files.take() {
            Some(files) => open_database(self.rt, files, path),
            None => Err(Unopened::Store),
        }
    }

    fn close(&mut self, conn: &mut Option<Connection<FileStore<P::File>>>) {
        close_files(conn);
    }
}

impl<P: DatabaseFiles> Machine for Host<'_, P> {
    type Opened = File;

    type Listener = PortListener;

    ghost is_text = { λ _ _. Unit };

    ghost port_of = { λ listener. listener.port };

    ghost is_serving = { λ _ _ _. Unit };

    fn open_text(&mut self, path: &str) -> Option<File> {
        fs::open(self.rt, path).ok()
    }

    fn listen(&mut self, port: u16) -> Option<PortListener> {
        listen_at(self.rt, address_of(port), port).ok()
    }

    fn serve<T: StreamServer, O: Output>(
        &mut self,
        listener: &PortListener,
        _output: &O,
        server: &mut T,
        connections: u32,
    ) -> Serving {
        serve_on(self.rt.alloc(), &listener.listener, server, connections)
    }
}

fn close_files<D: Disk + Drop>(conn: &mut Option<Connection<FileStore<D>>>)
    ensures { IfSome conn.old ClosesFiles }
{
    let Some(conn) = conn.take() else {
        return;
    };
    match conn.close_files() {
        Ok(_files) => {}
        Err((_, store)) => drop(store.close()),
    }
}

/// A port of this machine that is listened on.
#[derive(Drop)]
pub struct PortListener {
    listener: TcpListener,
    port: u16,
}

// The address of a port for clients on this machine, and for no others.
fn address_of(port: u16) -> SocketAddr
    ensures { IsLoopback result port }
{
    SocketAddr::new(IpAddr::V4(Ipv4Addr::new(127, 0, 0, 1)), port)
}

// Listens on a port, at an address of it that no other machine reaches.
fn listen_at(rt: &HostRuntime, address: SocketAddr, port: u16) -> io::Result<PortListener>
    requires { IsLoopback address port }
    ensures { IfOk result (λ listener. listener.port ≡ port) }
{
    let listener = TcpListener::bind(rt, address)?;
    Ok(PortListener { listener, port })
}
