//! The job that the arguments name.
use crate::alone::Alone;
use crate::exporting::export;
use crate::migrating::migrate;
use pid_cli_args::Job;
use pid_cli_args::terminal::{Counted, Progress, Seen};
use pid_cli_jobs::{
    DatabaseFiles, Host, HostFolder, InMemory, JobEnd, Journaling, Machine, Registries, Unopened,
    answer_lookup, import, report_end, report_unopened, script, serve,
};
use pid_file::{TextEnd, Watched, report_text_end, run_check, run_tidy};
use pid_ident::{Output, Plain};
use pid_tables::WritableDatabase;
use std::io::{BufWriter, IsTerminal, Read, Write};

const BUFFER: usize = 65_536;

/// Does a job on the machine of the process, and returns the exit status. `files` is as for
/// `Host::new`.
///
/// Faults are found in this order: the folder of the journal; the account, the key and the values of
/// a lookup; the opening of the pci.ids file; the database; the journal; the port; the rest.
pub fn run_on_host<P: DatabaseFiles, I: Read, O: Write, F: Write>(
    rt: &HostRuntime,
    files: P,
    job: Job<'_>,
    input: &mut I,
    output: &mut O,
    faults: &mut F,
) -> u8 {
    run_on_machine(rt, &mut Host::new(rt, files), job, input, output, faults)
}

// Does a job on any machine. The runtime shows the progress and has the folders of journals, and is
// asked for nothing else.
fn run_on_machine<M: Machine, I: Read, O: Write, F: Write>(
    rt: &HostRuntime,
    machine: &mut M,
    job: Job<'_>,
    input: &mut I,
    output: &mut O,
    faults: &mut F,
) -> u8
where
    M::Connection: WritableDatabase,
{
    let mut output = Watched::new(output);
    let end = run_with_journal(rt, machine, Alone, job, input, &mut output, faults);
    report_end(end, output.is_unread(), &mut Plain::new(faults))
}

// Does a job with a journal in front of its registry, if the arguments name one.
fn run_with_journal<M: Machine, G, I: Read, O: Write, F: Write>(
    rt: &HostRuntime,
    machine: &mut M,
    mut registries: G,
    job: Job<'_>,
    input: &mut I,
    output: &mut O,
    faults: &mut F,
) -> JobEnd
where
    M::Connection: WritableDatabase,
    G: Registries<M> + Registries<InMemory> + Copy,
{
    let Some(path) = job.journal() else {
        return run_job(rt, machine, &mut registries, job, input, output, faults);
    };
    let Some(folder) = HostFolder::at(rt, path) else {
        return report_unopened(Unopened::JournalFailed, &mut Plain::new(faults));
    };
    let registries = &mut Journaling::new(registries, folder);
    run_job(rt, machine, registries, job, input, output, faults)
}

// Does a job. If it is on a registry, `registries` opens that; a script without a file has one in
// memory.
fn run_job<M: Machine, G: Registries<M> + Registries<InMemory>, I: Read, O: Write, F: Write>(
    rt: &HostRuntime,
    machine: &mut M,
    registries: &mut G,
    job: Job<'_>,
    input: &mut I,
    output: &mut O,
    faults: &mut F,
) -> JobEnd
where
    M::Connection: WritableDatabase,
{
    let alloc = machine.alloc();
    let memory = &mut InMemory(alloc);
    let lines = &mut Plain::new(&mut *input);
    let (to, errors) = (&mut Plain::new(&mut *output), &mut Plain::new(&mut *faults));
    match job {
        Job::Tidy => JobEnd::Exited(run_tidy(alloc, input, output, faults).0),
        Job::Check => JobEnd::Exited(run_check(alloc, input, output, faults).0),
        Job::Lookup(words) => answer_lookup(machine, &words, to, errors),
        Job::Script { db: Some(db), .. } => script(machine, registries, db, lines, to, errors),
        Job::Script { db: None, .. } => script(memory, registries, "", lines, to, errors),
        Job::Import(words) => {
            let progress = &mut Progress::new(rt, "importing", rt.stderr().is_terminal());
            import(machine, registries, progress, &words, to, errors)
        }
        Job::Export { db } => run_export(rt, machine, db, output, errors),
        Job::Serve(words) => serve(machine, registries, &words, to, errors),
        Job::Migrate { db } => migrate(machine, db, to, errors),
    }
}

fn run_export<M: Machine, O: Write, F: Output>(
    rt: &HostRuntime,
    machine: &mut M,
    db: &str,
    output: &mut O,
    faults: &mut F,
) -> JobEnd
where
    M::Connection: WritableDatabase,
{
    let is_told = rt.stderr().is_terminal() && !rt.stdout().is_terminal();
    let mut progress = Progress::new(rt, "exporting", is_told);
    let output = Seen::new(output, Counted(&mut progress));
    let Ok(buffer) = BufWriter::with_capacity(machine.alloc(), BUFFER, output) else {
        return JobEnd::Exited(report_text_end(TextEnd::Memory, faults));
    };
    export(machine, db, buffer, faults).0
}
