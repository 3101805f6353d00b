//! The first program: no arguments, `tidy`, `check`, help and the version.
//!
//! The script `pciids` builds it in minutes and runs it until the whole program, `pid_cli`, is
//! built. It answers with the whole program's texts, byte for byte, and leaves all else to it. What
//! it does is in `pid_file`, what it says in `pid_cli_help`.
#![tactic(auto)]

use pid_cli_help::{
    FirstJob, Met, Noted, explain_streams, first_job_of, is_for_a_person, refuse_argument,
    refuse_command, report_input, words_given,
};
use pid_file::{NO_JOB, report_no_words, run_check, run_tidy, show};
use std::process::ExitCode;

// The exit status if only the whole program can do the job. Nothing was read or written.
const OTHER_JOB: u8 = 4;

fn main(rt: HostRuntime) -> ExitCode {
    ExitCode::from(match words_given(&rt) {
        Ok(words) => run(&rt, first_job_of(words.as_slice())),
        Err(error) => report_no_words(error.kind(), rt.stderr()),
    })
}

// Does the job, and at a terminal says more.
fn run(rt: &HostRuntime, job: FirstJob<'_>) -> u8 {
    let has_reader = is_for_a_person(rt);
    if has_reader && matches!(job, FirstJob::Tidy | FirstJob::Check) {
        report_input(rt, "a pci.ids file");
    }
    let (mut read, mut written) = (Met::new(), Met::new());
    let status = do_job(rt, job, &mut read, &mut written);
    if has_reader {
        explain_streams(rt, status, &read, &written);
    }
    status
}

fn do_job(rt: &HostRuntime, job: FirstJob<'_>, read: &mut Met, written: &mut Met) -> u8 {
    let alloc = rt.alloc();
    let faults = rt.stderr();
    match job {
        FirstJob::Tidy => {
            let input = Noted::new(rt.stdin(), read);
            run_tidy(alloc, input, Noted::new(rt.stdout(), written), faults).0
        }
        FirstJob::Check => {
            let input = Noted::new(rt.stdin(), read);
            run_check(alloc, input, Noted::new(rt.stdout(), written), faults).0
        }
        FirstJob::Show(page) => show(page, Noted::new(rt.stdout(), written), faults),
        FirstJob::NoCommand(word) => {
            refuse_command(rt, word);
            NO_JOB
        }
        FirstJob::NoArgument { command, word } => {
            refuse_argument(rt, command, word);
            NO_JOB
        }
        FirstJob::Other => OTHER_JOB,
    }
}
