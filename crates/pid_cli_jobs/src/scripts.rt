//! Scripts on the registry at a path.
ghost use Rattle.pid_http_stream.specs.Listener.Streams.{use_of_reader};
ghost use Rattle.pid_cli_jobs.specs.Jobs.{EndsScript, RunsLines};
ghost use Rattle.pid_cli_jobs.specs.Lines.{streams_used};
ghost use Rattle.pid_cli_jobs.specs.Sessions.{Works};

use crate::job_end::JobEnd;
use crate::machine::Databases;
use crate::registries::Registries;
use crate::unopened::report_unopened;
use pid_ident::{Incoming, Output};
use pid_script::{ScriptEnd, run_script};

/// The number of reads that a script may use.
const TURNS: u64 = 10_000_000;

// A fault of the reader or the writer is still to be reported.
fn end_of(script: ScriptEnd) -> JobEnd
    ensures { EndsScript script result }
{
    match script {
        ScriptEnd::ReadFault | ScriptEnd::WriteFault => JobEnd::FileFailed,
        end => JobEnd::Exited(end.status()),
    }
}

/// Answers the lines of the input as a script.
pub fn script<D: Databases, G: Registries<D>, I: Incoming<O>, O: Output, F: Output>(
    databases: &mut D,
    registries: &mut G,
    path: &str,
    input: &mut I,
    output: &mut O,
    faults: &mut F,
) -> JobEnd
    ensures works { Works G.Registry.RegistryCalls (G.is_opened registries.old path.now)
        (G.is_unopened registries.old path.now) G.is_closed
        (RunsLines G.Registry.RegistryCalls (use_of_reader I.Incoming input.old input.new))
        (streams_used O.Output F.Output output.old output.new faults.old faults.new) result }
    ensures reads { I.goes input.old input.new }
{
    match registries.open(databases, path) {
        Ok(mut registry) => {
            let end = run_script(databases.alloc(), &mut registry, input, output, TURNS);
            registries.close(databases, registry);
            end_of(end)
        }
        Err(why) => report_unopened(why, faults),
    }
}
