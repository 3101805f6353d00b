//! What the arguments ask the first program for.
use crate::pages::{HELP, VERSION_PAGE, page_of};
use std::{env, io};

/// What the first program can do by itself, and what it leaves to the whole program.
#[derive(Clone, Copy)]
pub enum FirstJob<'a> {
    Tidy,
    Check,
    /// Shows a page of help, or the version.
    Show(&'static str),
    /// The first argument is no command.
    NoCommand(&'a str),
    /// `tidy` and `check` take no argument. A common mistake is the name of a file.
    NoArgument { command: &'a str, word: &'a str },
    /// Anything else: the whole program does it, or says what is wrong with it.
    Other,
}

/// The arguments of the process, the first of which is the program's name.
pub fn words_given(rt: &HostRuntime) -> io::Result<Vec<String>> {
    Ok(env::args(rt)?.collect(rt.alloc())?)
}

/// What the arguments ask for. The first of them is the program's name.
pub fn first_job_of<'a>(words: &'a [String]) -> FirstJob<'a> {
    match words {
        [] | [_] => FirstJob::Tidy,
        [_, word] => match word.as_str() {
            "tidy" => FirstJob::Tidy,
            "check" => FirstJob::Check,
            "--version" | "-V" => FirstJob::Show(VERSION_PAGE),
            "--help" | "-h" | "help" => FirstJob::Show(HELP),
            word => job_of_more(word),
        },
        [_, first, second] => job_of_two(first.as_str(), second.as_str()),
        [_, first, ..] => job_of_more(first.as_str()),
    }
}

fn job_of_two<'a>(first: &'a str, second: &'a str) -> FirstJob<'a> {
    match (first, second) {
        ("help", command) | (command, "--help" | "-h") => match page_of(command) {
            Some(page) => FirstJob::Show(page),
            None => FirstJob::Other,
        },
        ("tidy" | "check", word) if !matches!(word.as_bytes(), [b'-', ..]) => FirstJob::NoArgument {
            command: first,
            word,
        },
        _ => job_of_more(first),
    }
}

// An option is left to the whole program, and so is a command.
fn job_of_more<'a>(first: &'a str) -> FirstJob<'a> {
    if matches!(first.as_bytes(), [b'-', ..]) || first == "help" || page_of(first).is_some() {
        return FirstJob::Other;
    }
    FirstJob::NoCommand(first)
}
