//! The answer to a line.
ghost use Rattle.pid_script.specs.ScriptLines as asks;
ghost use Rattle.pid_script.specs.ScriptLines.{ask_of};
ghost use Rattle.pid_script.specs.Steps.Output.{LeavesAnswer, out};

use crate::fields::{read_command, read_path};
use crate::line_end::LineEnd;
use crate::lookup::read_lookup;
use crate::output::flush;
use crate::reply::{
    refuse_long, send_answer, send_bad_text, send_found, send_name, stop_for_memory,
};
use crate::script_line::{LineRequest, line_request};
use pid_ident::Output;
use pid_moderation::Verb;
use pid_service_laws::{ExportFault, RegistryCalls};
use std::alloc::Global;

// Obeys the command that a form says.
fn obey<R: RegistryCalls, O: Output>(
    alloc: Global,
    registry: &mut R,
    output: &mut O,
    held: &mut Vec<u8>,
    verb: Verb,
    account: &str,
    form: &str,
) -> Result<(), LineEnd>
    ensures { LeavesAnswer R.RegistryCalls result (asks.AsksCommand verb account.now form.now)
        registry.old (out O.Output output.old held.old.items) registry.new
        (out O.Output output.new held.new.items) }
{
    match read_command(alloc, verb, account, form) {
        Ok(command) => {
            let answer = registry.obey(command);
            send_answer(output, held, answer)
        }
        Err(refusal) => send_answer(output, held, Err(refusal)),
    }
}

// Says the name of the path that a form says.
fn read<R: RegistryCalls, O: Output>(
    alloc: Global,
    registry: &mut R,
    output: &mut O,
    held: &mut Vec<u8>,
    form: &str,
) -> Result<(), LineEnd>
    ensures { LeavesAnswer R.RegistryCalls result (asks.AsksName form.now)
        registry.old (out O.Output output.old held.old.items) registry.new
        (out O.Output output.new held.new.items) }
{
    match read_path(alloc, form) {
        Ok(path) => {
            let name = registry.read(&path);
            send_name(output, held, &name)
        }
        Err(refusal) => send_answer(output, held, Err(refusal)),
    }
}

// Answers the look-up that a form says.
fn lookup<R: RegistryCalls, O: Output>(
    alloc: Global,
    registry: &mut R,
    output: &mut O,
    held: &mut Vec<u8>,
    form: &str,
) -> Result<(), LineEnd>
    ensures { LeavesAnswer R.RegistryCalls result (asks.AsksLookup form.now)
        registry.old (out O.Output output.old held.old.items) registry.new
        (out O.Output output.new held.new.items) }
{
    match read_lookup(alloc, form) {
        Ok(Some((flags, args, size))) => {
            let found = registry.lookup(flags, &args, size);
            send_found(output, held, &found)
        }
        Ok(None) => send_bad_text(output, held),
        Err(_) => Err(stop_for_memory(output, held)),
    }
}

// Writes the canonical text, after what is held.
fn export<R: RegistryCalls, O: Output>(
    registry: &mut R,
    output: &mut O,
    held: &mut Vec<u8>,
) -> Result<(), LineEnd>
    ensures { LeavesAnswer R.RegistryCalls result asks.AsksExport
        registry.old (out O.Output output.old held.old.items) registry.new
        (out O.Output output.new held.new.items) }
{
    if let Err(end) = flush(output, held) {
        return Err(end);
    }
    match registry.export(output) {
        Ok(()) => Ok(()),
        Err(ExportFault::Write(_)) => Err(LineEnd::WriteFault),
        Err(ExportFault::Refused(refusal)) => send_answer(output, held, Err(refusal)),
    }
}

/// Answers a line, whose CR is dropped.
pub fn answer_line<R: RegistryCalls, O: Output>(
    alloc: Global,
    registry: &mut R,
    output: &mut O,
    held: &mut Vec<u8>,
    line: &[u8],
) -> Result<(), LineEnd>
    ensures { LeavesAnswer R.RegistryCalls result (ask_of line.now)
        registry.old (out O.Output output.old held.old.items) registry.new
        (out O.Output output.new held.new.items) }
{
    match line_request(line) {
        LineRequest::Nothing => Ok(()),
        LineRequest::Command {
            verb,
            account,
            form,
        } => obey(alloc, registry, output, held, verb, account, form),
        LineRequest::Export => export(registry, output, held),
        LineRequest::Read(form) => read(alloc, registry, output, held, form),
        LineRequest::Lookup(form) => lookup(alloc, registry, output, held, form),
        LineRequest::Unclear => send_bad_text(output, held),
        LineRequest::TooLong => Err(refuse_long(output, held)),
    }
}
