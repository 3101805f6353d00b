//! Lookups in a pci.ids file.
ghost use Rattle.std.specs.Prelude.{◌≡◌, ◌++◌, [], IfOk, OnOk};
ghost use Rattle.pid_lookup.specs.Fields.{bytes_of};
ghost use Rattle.pid_cli_args.specs.Jobs.{text_given};
ghost use Rattle.pid_cli_jobs.specs.Jobs.{
  IsReadFrom,
  LooksUpInFile,
  LooksUpText,
  field_given,
  fields_given,
};
ghost use Rattle.pid_cli_jobs.specs.Lines.{streams_used};

use crate::job_end::{JobEnd, report_memory};
use crate::lines::{print_answer, print_reply};
use crate::machine::Machine;
use pid_cli_args::LookupArgs;
use pid_file::{LARGEST, TextEnd, report_unread};
use pid_ident::{Input, Output, Plain};
use pid_lookup::{Args, BadField, args_of, lookup_in};
use pid_moderation::Refusal;
use std::alloc::{AllocError, Global};

// Adds a field if its value is given.
fn push_given(
    alloc: Global,
    fields: &mut Vec<(String, String)>,
    name: &str,
    value: Option<&str>,
) -> Result<(), AllocError>
    ensures { OnOk result (bytes_of fields.new.items
        ≡ bytes_of fields.old.items ++ field_given name.now (text_given value.entry)) }
{
    let Some(value) = value else {
        return Ok(());
    };
    let name = String::from_str(alloc, name)?;
    let value = String::from_str(alloc, value)?;
    fields.push((name, value))?;
    Ok(())
}

// Adds the fields that the arguments give.
fn push_fields(
    alloc: Global,
    fields: &mut Vec<(String, String)>,
    words: &LookupArgs<'_>,
) -> Result<(), AllocError>
    ensures { fields.old.items ≡ []
        → OnOk result (bytes_of fields.new.items ≡ fields_given words.now) }
{
    push_given(alloc, fields, "flags", Some(words.flags))?;
    push_given(alloc, fields, "size", words.size)?;
    push_given(alloc, fields, "vendor", words.vendor)?;
    push_given(alloc, fields, "device", words.device)?;
    push_given(alloc, fields, "subvendor", words.subvendor)?;
    push_given(alloc, fields, "subdevice", words.subdevice)?;
    push_given(alloc, fields, "class", words.class)?;
    push_given(alloc, fields, "progif", words.progif)?;
    Ok(())
}

// Checks the values of the arguments and returns the flags, the arguments and the size that they say.
fn read_words(
    alloc: Global,
    words: &LookupArgs<'_>,
) -> Result<Result<(u32, Args, u32), BadField>, AllocError>
    ensures { IfOk result (IsReadFrom (fields_given words.now)) }
{
    let mut fields = Vec::new(alloc);
    push_fields(alloc, &mut fields, words)?;
    Ok(args_of(&fields))
}

// Answers a lookup in the text of the input, or reports the fault of the text.
fn look_up<I: Input, O: Output, F: Output>(
    alloc: Global,
    lookup: &(u32, Args, u32),
    input: &mut I,
    output: &mut O,
    faults: &mut F,
) -> JobEnd
    ensures { LooksUpText lookup.now (I.to_come input.old)
        (streams_used O.Output F.Output output.old output.new faults.old faults.new) result }
{
    let (flags, args, size) = *lookup;
    match lookup_in(alloc, LARGEST, input, flags, &args, size) {
        Ok(found) => print_answer(found, output, faults),
        Err(end) => match report_unread(end, faults) {
            TextEnd::ReadFault | TextEnd::WriteFault => JobEnd::FileFailed,
            end => JobEnd::Exited(end.status()),
        },
    }
}

/// Answers the lookup of the arguments in the file that they name; bad values get a refusal.
pub fn answer_lookup<M: Machine, O: Output, F: Output>(
    machine: &mut M,
    words: &LookupArgs<'_>,
    output: &mut O,
    faults: &mut F,
) -> JobEnd
    ensures { LooksUpInFile (M.is_text words.now.ids.now) M.Opened.remaining (fields_given words.now)
        (streams_used O.Output F.Output output.old output.new faults.old faults.new) result }
{
    let alloc = machine.alloc();
    let lookup = match read_words(alloc, words) {
        Ok(Ok(lookup)) => lookup,
        Ok(Err(_)) => return print_reply(Err(Refusal::BadText), output),
        Err(_) => return report_memory(faults),
    };
    match machine.open_text(words.ids) {
        Some(file) => look_up(alloc, &lookup, &mut Plain::new(file), output, faults),
        None => JobEnd::FileFailed,
    }
}
