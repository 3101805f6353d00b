//! Serving a registry over HTTP to clients on this machine.
ghost use Rattle.std.specs.Prelude.{◌≡◌};
ghost use Rattle.pid_file.specs.Writing.{use_of};
ghost use Rattle.pid_cli_jobs.specs.Jobs.{Offers, ReportsServing, Serves, socket_line};
ghost use Rattle.pid_cli_jobs.specs.Lines.{Reports, streams_used};
ghost use Rattle.pid_cli_jobs.specs.Sessions.{IsPartOfSession, Works};

use crate::job_end::{JobEnd, report_memory};
use crate::lines::write_count;
use crate::machine::{Databases, Machine};
use crate::registries::Registries;
use crate::unopened::report_unopened;
use pid_cli_args::ServeArgs;
use pid_cli_args::fault_lines::SOCKET_FAILED;
use pid_file::FAILED;
use pid_http::{Routes, serve_with};
use pid_http_stream::Served;
use pid_http_stream::listener::{Serving, ServingEnd, StreamServer};
use pid_ident::{Incoming, Output, write_all};
use std::alloc::Global;

// A registry that answers the requests of one stream after the other, and has no other use: it is
// handed to functions that are generic over their server.
#[derive(Drop)]
struct Server<'r, 'g, 't, D: Databases, G: Registries<D>> {
    alloc: Global,
    registry: &'r mut G::Registry,
    registries: &'g G,
    routes: &'t Routes,
}

impl<D: Databases, G: Registries<D>> StreamServer for Server<'_, '_, '_, D, G> {
    ghost use Rattle.std.specs.Prelude.{◌≡◌, refl};
    ghost use Rattle.pid_http.specs.Known.{LivesOn};
    ghost use Rattle.pid_http.specs.Steps.Going.{lives_further, lives_still};
    ghost use Rattle.pid_http.specs.Steps.Handling.{same_on};
    ghost use Rattle.pid_cli_jobs.specs.Jobs.{AnswersStream};

    ghost live = { λ server. G.Registry.is_live server.registry.now };

    ghost goes = { λ a b. (b.registry.ghost_name ≡ a.registry.ghost_name)
        × LivesOn G.Registry.RegistryCalls a.registry.now b.registry.now };

    ghost answers = { λ a b x.
        AnswersStream G.Registry.RegistryCalls a.registry.now b.registry.now x };

    ghost stays = { λ a. (refl, lives_still a.registry.now) };

    ghost joins = { λ a b c p q. (
      same_on a.registry.ghost_name b.registry.ghost_name c.registry.ghost_name p.0 q.0,
      lives_further a.registry.now b.registry.now c.registry.now p.1 q.1,
    ) };

    fn is_live(&self) -> bool {
        self.registries.is_live(self.registry)
    }

    fn serve<I: Incoming<O>, O: Output>(
        &mut self,
        input: &mut I,
        output: &mut O,
        turns: u64,
    ) -> Served {
        serve_with(self.alloc, self.routes, self.registry, input, output, turns)
    }
}

fn report_socket<F: Output>(faults: &mut F) -> JobEnd
    ensures { Reports socket_line (use_of F.Output faults.old faults.new) result }
{
    let _ = write_all(faults, SOCKET_FAILED.as_bytes());
    JobEnd::Exited(FAILED)
}

// Reports the number of streams that were started, and how the serving ended.
fn report<O: Output, F: Output>(serving: Serving, output: &mut O, faults: &mut F) -> JobEnd
    ensures { ReportsServing serving.end serving.streams
        (streams_used O.Output F.Output output.old output.new faults.old faults.new) result }
{
    let printed = write_count("served ", u64::from(serving.streams), output);
    match (serving.end, printed) {
        (ServingEnd::AcceptFault, _) => report_socket(faults),
        (_, Err(_)) => JobEnd::FileFailed,
        (ServingEnd::NotLive, Ok(())) => JobEnd::Exited(FAILED),
        (ServingEnd::All, Ok(())) => JobEnd::Exited(0),
    }
}

// Prints where it listens, has the machine give streams to a server, and reports how many it gave.
fn give_streams<M: Machine, T: StreamServer, O: Output, F: Output>(
    machine: &mut M,
    listener: &M::Listener,
    server: &mut T,
    words: &ServeArgs<'_>,
    output: &mut O,
    faults: &mut F,
) -> JobEnd
    requires { M.port_of listener.now ≡ words.now.port }
    ensures goes { T.goes server.old server.new }
    ensures offers { Offers M.port_of M.is_serving T.live words.now (server.old, server.new)
        (streams_used O.Output F.Output output.old output.new faults.old faults.new) result }
{
    match write_count("listening on 127.0.0.1:", u64::from(words.port), output) {
        Ok(()) => {
            let serving = machine.serve(listener, output, server, words.connections);
            report(serving, output, faults)
        }
        Err(_) => JobEnd::FileFailed,
    }
}

// Serves a registry at a listener, to so many connections, one at a time.
fn serve_listener<M: Machine, G: Registries<M>, O: Output, F: Output>(
    machine: &mut M,
    listener: &M::Listener,
    registries: &G,
    registry: &mut G::Registry,
    words: &ServeArgs<'_>,
    output: &mut O,
    faults: &mut F,
) -> JobEnd
    requires { M.port_of listener.now ≡ words.now.port }
    ensures goes { IsPartOfSession G.Registry.RegistryCalls registry.old registry.new }
    ensures offers { Offers M.port_of M.is_serving G.Registry.is_live words.now
        (registry.old, registry.new)
        (streams_used O.Output F.Output output.old output.new faults.old faults.new) result }
{
    let alloc = machine.alloc();
    let Ok(routes) = Routes::new(alloc) else {
        return report_memory(faults);
    };
    let mut server = Server {
        alloc,
        registry,
        registries,
        routes: &routes,
    };
    give_streams(machine, listener, &mut server, words, output, faults)
}

// Listens on a port of this machine and serves a registry there.
fn serve_registry<M: Machine, G: Registries<M>, O: Output, F: Output>(
    machine: &mut M,
    registries: &G,
    registry: &mut G::Registry,
    words: &ServeArgs<'_>,
    output: &mut O,
    faults: &mut F,
) -> JobEnd
    ensures goes { IsPartOfSession G.Registry.RegistryCalls registry.old registry.new }
    ensures offers { Offers M.port_of M.is_serving G.Registry.is_live words.now
        (registry.old, registry.new)
        (streams_used O.Output F.Output output.old output.new faults.old faults.new) result }
{
    let Some(listener) = machine.listen(words.port) else {
        return report_socket(faults);
    };
    serve_listener(
        machine, &listener, registries, registry, words, output, faults,
    )
}

/// Serves the registry that the arguments name.
///
/// What is asked for again and again is read before it listens, so that nobody waits for it.
/// Prints where it listens before it accepts the first connection, and the number of streams that
/// were started at the end. A registry that has failed is given no stream. The exit status is 0 if
/// both lines went out, all connections were served, and the registry is live; else it is 3.
pub fn serve<M: Machine, G: Registries<M>, O: Output, F: Output>(
    machine: &mut M,
    registries: &mut G,
    words: &ServeArgs<'_>,
    output: &mut O,
    faults: &mut F,
) -> JobEnd
    ensures { Works G.Registry.RegistryCalls (G.is_opened registries.old words.now.db.now)
        (G.is_unopened registries.old words.now.db.now) G.is_closed
        (Serves M.port_of M.is_serving G.Registry.RegistryCalls words.now)
        (streams_used O.Output F.Output output.old output.new faults.old faults.new) result }
{
    match registries.open(machine, words.db) {
        Ok(mut registry) => {
            registries.prepare(&mut registry);
            let end = serve_registry(machine, registries, &mut registry, words, output, faults);
            registries.close(machine, registry);
            end
        }
        Err(why) => report_unopened(why, faults),
    }
}
