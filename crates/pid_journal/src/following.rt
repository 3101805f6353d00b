//! The lines of a journal, obeyed by a registry that does not have them yet.
ghost use Rattle.std.specs.Prelude.{◌≡◌, ◌≢◌, ◌⊎◌, [], IfOk, IsErr, IsOkAnd, drop};
ghost use Rattle.pid_moderation.specs.Faults.{IsMemoryOrStore};
ghost use Rattle.pid_service_laws.specs.CallLaws.{StaysClean};
ghost use Rattle.pid_journal.specs.Steps.Following.{FollowsLine, FollowsLines};
ghost use Rattle.pid_journal.specs.Steps.Places.{IsOpenEnd};
ghost use Rattle.pid_journal.specs.Steps.Reads.{OfText, OnlyReads, left_in};

use crate::folder::JournalFolder;
use crate::segment_text::SegmentText;
use pid_moderation::Refusal;
use pid_reader::without_cr;
use pid_script::command_in_line;
use pid_service_laws::RegistryCalls;
use std::alloc::Global;

// A line that says no command asks nothing.
fn unless_memory(refusal: Refusal) -> Result<(), Refusal>
    ensures { IsOkAnd result (λ x. refusal ≢ Refusal.Memory) ⊎ IsErr result }
{
    match refusal {
        Refusal::Memory => Err(refusal),
        _ => Ok(()),
    }
}

// A command that is refused by judgement was obeyed.
fn unless_stop(refusal: Refusal) -> Result<(), Refusal>
    ensures { IsOkAnd result (λ x. IsMemoryOrStore refusal → ⊥) ⊎ IsErr result }
{
    match refusal {
        Refusal::Memory | Refusal::Store | Refusal::Failed => Err(refusal),
        _ => Ok(()),
    }
}

// Obeys the command of a line, if it has one. One that is refused was refused before.
fn follow_line<R: RegistryCalls>(
    alloc: Global,
    registry: &mut R,
    line: &[u8],
) -> Result<(), Refusal>
    ensures honest { StaysClean R.showing registry.old registry.new }
    ensures obeyed { FollowsLine R.showing registry.old registry.new line.now result }
{
    let command = match command_in_line(alloc, line) {
        Ok(command) => command,
        Err(refusal) => return unless_memory(refusal),
    };
    match registry.obey(command) {
        Ok(_reply) => Ok(()),
        Err(refusal) => unless_stop(refusal),
    }
}

/// Obeys the commands of the whole lines that are left of a segment. The folder of the journal
/// hears of each.
pub fn follow<R: RegistryCalls, F: JournalFolder>(
    alloc: Global,
    registry: &mut R,
    folder: &mut F,
    text: &mut SegmentText,
) -> Result<(), Refusal>
    ensures honest { StaysClean R.showing registry.old registry.new }
    ensures reads { OnlyReads F.JournalFolder folder.old folder.new text.old text.new }
    ensures ended { IfOk result (λ x. OfText F.JournalFolder folder.old text.old (λ all.
        IsOpenEnd (left_in text.old all) (left_in text.new all) × (drop text.new.read all ≡ []))) }
    ensures obeyed { OfText F.JournalFolder folder.old text.old (λ all.
        FollowsLines R.showing registry.old registry.new (left_in text.old all) result) }
{
    let mut line = Vec::new(alloc);
    for _turn in 0..u64::MAX {
        let whole = match text.take_line(folder, &mut line) {
            Ok(whole) => whole,
            Err(refusal) => return Err(refusal),
        };
        if !whole {
            return Ok(());
        }
        if let Err(refusal) = follow_line(alloc, registry, without_cr(&line)) {
            return Err(refusal);
        }
        folder.replayed();
    }
    Err(Refusal::Store)
}
