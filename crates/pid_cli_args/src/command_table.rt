//! The commands of the program. Their help is in `pid_cli_help`.
ghost use Rattle.std.specs.Prelude.{◌≡◌, IfOk};
ghost use Rattle.clap.specs.Words.{app_of};
ghost use Rattle.pid_cli_args.specs.Commands.{commands as the_commands, program as the_program};

use crate::command_building::{Argument, Row, with_rows};
use clap::Command;
use pid_cli_help::{
    CHECK, EXPORT, HELP, IMPORT, LOOKUP, MIGRATE, SCRIPT, SERVE, TIDY, USAGE, VERSION,
};
use std::alloc::{AllocError, Global};

const DB: Argument<'static> = Argument::Needed("db", "FILE");

const JOURNAL: Argument<'static> = Argument::Spare("journal", "FOLDER");

const OF_LOOKUP: [Argument<'static>; 9] = [
    Argument::Needed("ids", "FILE"),
    Argument::Needed("flags", "HEX"),
    Argument::Spare("size", "N"),
    Argument::Spare("vendor", "HEX"),
    Argument::Spare("device", "HEX"),
    Argument::Spare("subvendor", "HEX"),
    Argument::Spare("subdevice", "HEX"),
    Argument::Spare("class", "HEX"),
    Argument::Spare("progif", "HEX"),
];

const OF_IMPORT: [Argument<'static>; 5] = [
    DB,
    JOURNAL,
    Argument::Needed("account", "ACCOUNT"),
    Argument::Spare("key", "KEY"),
    Argument::Operand("ids", "IDS"),
];

const OF_SERVE: [Argument<'static>; 4] = [DB, JOURNAL, Argument::Port, Argument::Connections];

pub(crate) const COMMANDS: [Row<'static>; 8] = [
    Row("check", Some("pciids check < FILE"), CHECK, &[]),
    Row("lookup", None, LOOKUP, &OF_LOOKUP),
    Row(
        "script",
        None,
        SCRIPT,
        &[Argument::Spare("db", "FILE"), JOURNAL],
    ),
    Row("import", None, IMPORT, &OF_IMPORT),
    Row("export", None, EXPORT, &[DB]),
    Row("serve", None, SERVE, &OF_SERVE),
    Row("migrate", None, MIGRATE, &[DB]),
    Row("tidy", Some("pciids tidy < FILE"), TIDY, &[]),
];

// The program's own command, without those below it.
fn program<'a>(alloc: Global) -> Command<'a>
    ensures { app_of result ≡ the_program }
{
    Command::new(alloc, "pciids")
        .version(VERSION)
        .override_usage(USAGE)
        .override_help(HELP)
}

/// The commands of the program.
pub fn commands<'a>(alloc: Global) -> Result<Command<'a>, AllocError>
    ensures { IfOk result (λ c. app_of c ≡ the_commands) }
{
    let command = program(alloc).bin_name("pciids")?;
    with_rows(alloc, command, &COMMANDS)
}
