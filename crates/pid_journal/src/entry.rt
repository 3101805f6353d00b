//! Entries and marks that read back.
ghost use Rattle.std.specs.Prelude.{◌≡◌, IfOk, IfSome, MatchResult, string_bytes};
ghost use Rattle.pid_moderation.specs.Faults.{IsMemoryOrStore};
ghost use Rattle.pid_moderation.specs.Files.{asks};
ghost use Rattle.pid_moderation.specs.RegistryStatus.{registry_status_of};
ghost use Rattle.pid_journal.specs.Journals.{IsEntry, IsNote};
ghost use Rattle.pid_journal.specs.Steps.Notes.{IsMark, counts_in};

use crate::composing::{compose, compose_mark};
use crate::counts::{Counts, counts_said};
use crate::sameness::is_same;
use crate::status_counts::counts_of;
use pid_moderation::{Command, Refusal, Status};
use pid_reader::{split_line, without_cr};
use pid_script::command_in_line;
use std::alloc::Global;

// A comment has some hundred bytes, and a script passes over it.
const LONGEST_COMMENT: usize = 1_000;

// What a comment says that has a line below it, and that line.
fn read_noted(alloc: Global, text: &[u8]) -> Result<(Counts, &[u8]), Refusal>
    ensures { IfOk result (λ said. IsNote text.now said.0 said.1.now) }
{
    let Some((comment, rest)) = split_line(text) else {
        return Err(Refusal::Store);
    };
    let Some((line, behind)) = split_line(rest) else {
        return Err(Refusal::Store);
    };
    if !behind.is_empty() {
        return Err(Refusal::Store);
    }
    let short = without_cr(comment);
    if LONGEST_COMMENT < short.len() {
        return Err(Refusal::Store);
    }
    let Some(counts) = counts_said(alloc, short)? else {
        return Err(Refusal::Store);
    };
    Ok((counts, without_cr(line)))
}

// What an entry says that is a comment and one line: counts and a command.
fn read_entry(alloc: Global, entry: &[u8]) -> Result<(Counts, Command), Refusal>
    ensures { IfOk result (λ said. IsEntry entry.now said.0 (asks said.1)) }
{
    let (counts, line) = read_noted(alloc, entry)?;
    let command = command_in_line(alloc, line)?;
    Ok((counts, command))
}

// The counts of a mark, if the text is one.
fn read_mark(alloc: Global, mark: &[u8]) -> Option<Counts>
    ensures { IfSome result (IsMark mark.now) }
{
    match read_noted(alloc, mark) {
        Ok((counts, [])) => Some(counts),
        _ => None,
    }
}

/// The mark of a command that has ended, which says what the registry holds then. None if memory
/// runs out.
pub fn mark_of(alloc: Global, status: &Status) -> Option<String>
    ensures { IfSome result
        (λ mark. IsMark (string_bytes mark) (counts_in (registry_status_of status.now))) }
{
    let Ok(mark) = compose_mark(alloc, status) else {
        return None;
    };
    let counts = read_mark(alloc, mark.as_bytes())?;
    if counts == counts_of(status) {
        Some(mark)
    } else {
        None
    }
}

/// The entry of a command, from which a script reads this command. `Store` if there is none: no
/// line says a submission with the number 0. `Memory` if memory runs out.
pub fn entry_of(
    alloc: Global,
    seconds: u64,
    status: &Status,
    command: &Command,
) -> Result<String, Refusal>
    ensures { MatchResult result (λ entry. IsEntry (string_bytes entry)
        (counts_in (registry_status_of status.now)) (asks command.now)) IsMemoryOrStore }
{
    let entry = compose(alloc, seconds, status, command)?;
    match read_entry(alloc, entry.as_bytes()) {
        Ok((counts, read)) => {
            if counts == counts_of(status) && is_same(&read, command) {
                Ok(entry)
            } else {
                Err(Refusal::Store)
            }
        }
        Err(Refusal::Memory) => Err(Refusal::Memory),
        Err(_) => Err(Refusal::Store),
    }
}
