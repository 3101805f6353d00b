//! The migration of the tables at a path.
ghost use Rattle.std.specs.Prelude.{◌≡◌};
ghost use Rattle.pid_cli_jobs.specs.Lines.{streams_used};
ghost use Rattle.pid_cli.specs.Migrations.{Migrates, step_line};

use crate::alone::of_tables;
use pid_cli_jobs::{Databases, JobEnd, print_line, report_unopened};
use pid_ident::Output;
use pid_service::Step;
use pid_tables::WritableDatabase;

fn step_text(step: Step) -> &'static str
    ensures { result.now ≡ step_line step }
{
    match step {
        Step::Created => "created schema 2\n",
        Step::Moved => "moved to schema 2\n",
        Step::Already => "schema 2 already\n",
    }
}

/// Moves the tables at a path to the newest schema, or creates them; opens no registry. Prints what
/// was done, or reports why not.
pub fn migrate<D: Databases<Connection = C>, C: WritableDatabase + Drop, O: Output, F: Output>(
    databases: &mut D,
    path: &str,
    output: &mut O,
    faults: &mut F,
) -> JobEnd
    ensures { Migrates C.Database (D.is_at path.now) D.is_closed
        (streams_used O.Output F.Output output.old output.new faults.old faults.new) result }
{
    let conn = match databases.open(path) {
        Ok(conn) => conn,
        Err(why) => return report_unopened(why, faults),
    };
    match pid_service::migrate(databases.alloc(), conn) {
        Ok((conn, step)) => {
            let end = print_line(step_text(step).as_bytes(), 0, output);
            databases.close(&mut Some(conn));
            end
        }
        Err((fault, refused)) => {
            drop(refused);
            report_unopened(of_tables(fault), faults)
        }
    }
}
