//! What the first program says of arguments that name no job.
use crate::explaining::say;
use crate::pages::USAGE_PAGE;
use crate::similar::similar_commands;

/// Reports that a word is no command, with a tip if there is memory for it.
pub fn refuse_command(rt: &HostRuntime, word: &str) {
    say(rt, &["error: unrecognized subcommand '", word, "'\n\n"]);
    if let Ok(similar) = similar_commands(rt.alloc(), word) {
        report_tip(rt, similar.as_slice());
    }
    say(
        rt,
        &[
            USAGE_PAGE,
            "To read a file, redirect standard input: pciids < FILE\n",
        ],
    );
}

fn report_tip(rt: &HostRuntime, similar: &[(f64, &'static str)]) {
    let mut front = match similar {
        [] => return,
        [_] => "  tip: a similar subcommand exists: '",
        _ => "  tip: some similar subcommands exist: '",
    };
    for (_, command) in similar {
        say(rt, &[front, *command]);
        front = "', '";
    }
    say(rt, &["'\n\n"]);
}

/// Reports that a command takes no argument, as the name of a file.
pub fn refuse_argument(rt: &HostRuntime, command: &str, word: &str) {
    say(
        rt,
        &[
            "error: unexpected argument '",
            word,
            "' found\n\nUsage: pciids ",
            command,
            " < FILE\n\nFor more information, try '--help'.\n\
             To read a file, redirect standard input: pciids ",
            command,
            " < FILE\n",
        ],
    );
}
