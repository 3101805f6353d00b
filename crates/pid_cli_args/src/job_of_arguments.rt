//! The job that the arguments name.
ghost use Rattle.std.specs.Prelude.{◌≡◌, IfOk, codes, map, string_bytes};
ghost use Rattle.clap.specs.Walk.{first_of, rows_of};
ghost use Rattle.clap.specs.Words.{FailsBy, found_of, subcommand_rows_of};
ghost use Rattle.pid_cli_args.specs.Commands.{of_import, of_lookup};
ghost use Rattle.pid_cli_args.specs.Jobs.{
  argument_values,
  faults_of,
  import_values,
  lookup_values,
  needed,
  number_given,
  task_given,
  task_meant,
  task_named,
  task_of,
  text_given,
};

use crate::command_table::commands;
use crate::job::{ImportArgs, Job, LookupArgs, ServeArgs};
use clap::{ArgMatches, Error};
use std::alloc::Global;

// The value of a required option.
fn needed_text<'a>(given: &ArgMatches<'a>, name: &str) -> &'a str
    ensures { result.now ≡ needed name.now (rows_of (found_of given.now)) }
{
    given.get_str(name).unwrap_or("")
}

fn text<'a>(given: &ArgMatches<'a>, name: &str) -> Option<&'a str>
    ensures { text_given result ≡ first_of name.now (rows_of (found_of given.now)) }
{
    given.get_str(name)
}

fn lookup_args<'a>(given: &ArgMatches<'a>) -> LookupArgs<'a>
    ensures { lookup_values result ≡ argument_values of_lookup (rows_of (found_of given.now)) }
{
    LookupArgs {
        ids: needed_text(given, "ids"),
        flags: needed_text(given, "flags"),
        size: text(given, "size"),
        vendor: text(given, "vendor"),
        device: text(given, "device"),
        subvendor: text(given, "subvendor"),
        subdevice: text(given, "subdevice"),
        class: text(given, "class"),
        progif: text(given, "progif"),
    }
}

fn import_words<'a>(given: &ArgMatches<'a>) -> ImportArgs<'a>
    ensures { import_values result ≡ argument_values of_import (rows_of (found_of given.now)) }
{
    ImportArgs {
        db: needed_text(given, "db"),
        journal: text(given, "journal"),
        account: needed_text(given, "account"),
        key: text(given, "key"),
        ids: needed_text(given, "ids"),
    }
}

// The number that a required option, or one with a default, has as its value.
fn port_given(given: &ArgMatches<'_>) -> u16
    ensures { result ≡ number_given 16 (codes "port") (rows_of (found_of given.now)) }
{
    given.get_one("port").unwrap_or(0)
}

fn connections_given(given: &ArgMatches<'_>) -> u32
    ensures { result ≡ number_given 32 (codes "connections") (rows_of (found_of given.now)) }
{
    given.get_one("connections").unwrap_or(0)
}

fn job_named<'a>(name: &str, given: &ArgMatches<'a>) -> Job<'a>
    ensures { task_of result ≡ task_named name.now (rows_of (found_of given.now)) }
{
    match name {
        "check" => Job::Check,
        "lookup" => Job::Lookup(lookup_args(given)),
        "script" => Job::Script {
            db: text(given, "db"),
            journal: text(given, "journal"),
        },
        "import" => Job::Import(import_words(given)),
        "export" => Job::Export {
            db: needed_text(given, "db"),
        },
        "serve" => Job::Serve(ServeArgs {
            db: needed_text(given, "db"),
            journal: text(given, "journal"),
            port: port_given(given),
            connections: connections_given(given),
        }),
        "migrate" => Job::Migrate {
            db: needed_text(given, "db"),
        },
        _ => Job::Tidy,
    }
}

fn job_given<'a>(matches: &ArgMatches<'a>) -> Job<'a>
    ensures { task_of result ≡ task_given (subcommand_rows_of matches.now) }
{
    match matches.subcommand() {
        Some((name, given)) => job_named(name, given),
        None => Job::Tidy,
    }
}

/// The job that the arguments name. The first of them is the program's name; if it is the only one,
/// the job is `tidy`. The error is out of memory, or of a kind that the arguments have.
pub fn job_of<'a>(alloc: Global, words: &'a [String]) -> Result<Job<'a>, Error>
    ensures job { IfOk result (λ job. task_of job ≡ task_meant (map string_bytes words.now)) }
    ensures fails { FailsBy (faults_of (map string_bytes words.now)) result }
{
    let matches = commands(alloc)?.try_get_matches_from(words)?;
    Ok(job_given(&matches))
}
