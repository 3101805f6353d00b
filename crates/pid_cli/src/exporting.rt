//! The export of the registry at a path.
ghost use Rattle.std.specs.Prelude.{◌≡◌};
ghost use Rattle.std.specs.Io.Buffered.{writer_contents};
ghost use Rattle.pid_file.specs.Writing.{use_of};
ghost use Rattle.pid_cli_jobs.specs.Lines.{streams_used};
ghost use Rattle.pid_cli.specs.Exports.{ExportsThrough, PrintsAll, export_end};
ghost use Rattle.pid_cli.specs.Openings.{WorksAt};

use crate::alone::Alone;
use pid_cli_jobs::{Databases, JobEnd, Registries, report_unopened};
use pid_ident::{Output, Plain};
use pid_service::ExportFault;
use pid_tables::WritableDatabase;
use std::io::{BufWriter, Write};

fn end_of_export(printed: Result<(), ExportFault>) -> JobEnd
    ensures { result ≡ export_end printed }
{
    match printed {
        Ok(()) => JobEnd::Exited(0),
        Err(ExportFault::Refused(refusal)) => JobEnd::Refused(refusal),
        Err(ExportFault::Write(_)) => JobEnd::FileFailed,
    }
}

fn print_all<D: Databases<Connection = C>, C: WritableDatabase + Drop, O: Output, F: Output>(
    databases: &mut D,
    path: &str,
    output: &mut O,
    faults: &mut F,
) -> JobEnd
    ensures { WorksAt C.Database (D.is_at path.now) D.is_closed
        (PrintsAll C.Database O.Output output.old output.new)
        (streams_used O.Output F.Output output.old output.new faults.old faults.new) result }
{
    let mut registries = Alone;
    match registries.open(databases, path) {
        Ok(mut registry) => {
            let printed = registry.export_rows(output);
            registries.close(databases, registry);
            end_of_export(printed)
        }
        Err(why) => report_unopened(why, faults),
    }
}

/// Prints the canonical text of a registry through a buffer, and hands back the writer that this is
/// over: if the end is `Exited(0)`, all of the text went there.
pub fn export<D: Databases<Connection = C>, C: WritableDatabase + Drop, O: Write + Drop, F: Output>(
    databases: &mut D,
    path: &str,
    buffer: BufWriter<O>,
    faults: &mut F,
) -> (JobEnd, O)
    ensures { ExportsThrough C.Database (D.is_at path.now) D.is_closed
        ⟦<Plain<BufWriter<O>> as Output>⟧ (use_of F.Output faults.old faults.new)
        (writer_contents O.contents buffer) (O.contents result.1) result.0 }
{
    let mut output = Plain::new(buffer);
    let end = print_all(databases, path, &mut output, faults);
    let mut buffer = output.into_inner();
    let end = if let (JobEnd::Exited(0), Err(_)) = (end, buffer.flush()) {
        JobEnd::FileFailed
    } else {
        end
    };
    let (output, _) = buffer.into_parts();
    (end, output)
}
