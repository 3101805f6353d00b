//! Commands and their arguments, as tables describe them.
ghost use Rattle.std.specs.Prelude.{◌≡◌, false, IfOk};
ghost use Rattle.std.specs.List.{fold};
ghost use Rattle.clap.specs.Words.{app_of};
ghost use Rattle.clap.specs.declared.builder.command.Command.TheViews.{out-Command};
ghost use Rattle.pid_cli_args.specs.Commands.{option, rule_of};
ghost use Rattle.pid_cli_args.specs.Steps.Tables.{IsArg, IsCommand, app_of_row, parameter_of};
ghost use Rattle.pid_cli_args.specs.Steps.Tables.{with_argument, with_row};

use clap::{Arg, Command, value_parser};
use std::alloc::{AllocError, Global};

/// An argument of a command: its name, and that of its value in messages.
pub(crate) enum Argument<'a> {
    /// An option that must be given.
    Needed(&'a str, &'a str),
    /// An option that may be left out.
    Spare(&'a str, &'a str),
    /// A value that must be given, without a name before it.
    Operand(&'a str, &'a str),
    /// The option `--port N`, which must be given: 1 to 65,535.
    Port,
    /// The option `--connections N`: 1 to 1,000,000, which is the default.
    Connections,
}

/// A command below the program's own: its name; its usage, where that is not the one that `clap`
/// makes; its help; its arguments.
pub(crate) struct Row<'a>(
    pub(crate) &'a str,
    pub(crate) Option<&'a str>,
    pub(crate) &'a str,
    pub(crate) &'a [Argument<'a>],
);

fn option_of<'a>(alloc: Global, name: &'a str, value: &'a str) -> Arg<'a>
    ensures { IsArg (option name.now) result }
{
    Arg::new(alloc, name).value_name(value).long(name)
}

fn arg_of<'a>(alloc: Global, argument: &Argument<'a>) -> Arg<'a>
    ensures { IsArg (rule_of (parameter_of argument.now)) result }
{
    match *argument {
        Argument::Needed(name, value) => option_of(alloc, name, value).required(true),
        Argument::Spare(name, value) => option_of(alloc, name, value),
        Argument::Operand(name, value) => Arg::new(alloc, name).value_name(value).required(true),
        Argument::Port => option_of(alloc, "port", "N")
            .required(true)
            .value_parser(value_parser!(u16).range(1..=65535)),
        Argument::Connections => option_of(alloc, "connections", "N")
            .value_parser(value_parser!(u32).range(1..=1000000))
            .default_value("1000000"),
    }
}

fn with_arguments<'a>(
    alloc: Global,
    mut command: Command<'a>,
    arguments: &[Argument<'a>],
) -> Result<Command<'a>, AllocError>
    requires { (out-Command command).has_globals ≡ false }
    ensures { IfOk result (IsCommand (fold with_argument (app_of command.entry) arguments.now)) }
{
    for argument in arguments {
        command = command.arg(arg_of(alloc, argument))?;
    }
    Ok(command)
}

fn command_of<'a>(alloc: Global, row: &Row<'a>) -> Result<Command<'a>, AllocError>
    ensures { IfOk result (IsCommand (app_of_row row.now)) }
{
    let Row(name, usage, help, arguments) = *row;
    let command = Command::new(alloc, name).override_help(help);
    let command = match usage {
        Some(usage) => command.override_usage(usage),
        None => command,
    };
    with_arguments(alloc, command, arguments)
}

/// The command with those of the rows below it, in this order.
pub(crate) fn with_rows<'a>(
    alloc: Global,
    mut command: Command<'a>,
    rows: &[Row<'a>],
) -> Result<Command<'a>, AllocError>
    ensures { IfOk result (λ c. app_of c ≡ fold with_row (app_of command.entry) rows.now) }
{
    for row in rows {
        let Ok(below) = command_of(alloc, row) else {
            drop(command);
            return Err(AllocError);
        };
        command = command.subcommand(below)?;
    }
    Ok(command)
}
