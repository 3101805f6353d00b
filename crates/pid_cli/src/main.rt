//! `pciids`: checks and prints pci.ids files, and keeps a moderated registry of PCI IDs.
#![tactic(auto)]

mod alone;
mod exporting;
pub mod laws;
mod migrating;
mod running;

use crate::running::run_on_host;
use pid_cli_args::terminal::Run;
use pid_cli_args::{job_of, report_no_job};
use pid_cli_help::Met;
use pid_cli_jobs::HostFiles;
use pid_file::report_no_words;
use sqlite_disk::Unknown;
use std::process::ExitCode;
use std::{env, io};

fn main(rt: HostRuntime) -> ExitCode {
    let words = match words_given(&rt) {
        Ok(words) => words,
        Err(error) => return ExitCode::from(report_no_words(error.kind(), rt.stderr())),
    };
    let words = words.as_slice();
    let job = match job_of(rt.alloc(), words) {
        Ok(job) => job,
        Err(error) => {
            let (output, faults) = (&mut rt.stdout(), &mut rt.stderr());
            return ExitCode::from(report_no_job(&error, words, output, faults));
        }
    };
    // Where a person reads standard error, it says more.
    let run = Run::begin(&rt, job);
    let (mut read, mut written) = (Met::new(), Met::new());
    let status = run_on_host(
        &rt,
        HostFiles::new(&rt, Unknown),
        job,
        &mut run.input(&mut read),
        &mut run.output(&mut written),
        &mut run.faults(),
    );
    run.end(status, &read, &written);
    ExitCode::from(status)
}

fn words_given(rt: &HostRuntime) -> io::Result<Vec<String>> {
    Ok(env::args(rt)?.collect(rt.alloc())?)
}
