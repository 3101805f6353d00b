//! Imports that have no entry: no line says them, and no history accepts them.
ghost use Rattle.std.specs.Prelude.{◌≡◌, true, IsSome, MatchResult};
ghost use Rattle.pid_file.specs.Reading.{refused};
ghost use Rattle.pid_moderation.specs.Faults.{IsMemoryOrStore};
ghost use Rattle.pid_moderation.specs.Files.{asks};
ghost use Rattle.pid_moderation.specs.History.{History};
ghost use Rattle.pid_moderation.specs.Judgement.{after};

use pid_moderation::{Act, Command, Refusal};
use pid_reader::{ReadRefusal, read_ids};
use std::alloc::Global;

// Whether the text of a file is refused.
fn is_refused(alloc: Global, text: &[u8]) -> Result<bool, Refusal>
    ensures { MatchResult result (λ b. b ≡ true → IsSome (refused text.now)) IsMemoryOrStore }
{
    match read_ids(alloc, text) {
        Ok(_) => Ok(false),
        Err(ReadRefusal::Memory) => Err(Refusal::Memory),
        Err(ReadRefusal::Line { .. } | ReadRefusal::TooManyEntries) => Ok(true),
    }
}

/// Whether a command is an import whose file is not UTF-8. It changes nothing.
pub fn has_no_line(alloc: Global, command: &Command) -> Result<bool, Refusal>
    ensures { MatchResult result
        (λ b. b ≡ true → (h : History) → after h (asks command.now) ≡ h) IsMemoryOrStore }
{
    let Act::Import { file } = &command.act else {
        return Ok(false);
    };
    if str::from_utf8(file.as_bytes()).is_ok() {
        return Ok(false);
    }
    is_refused(alloc, file.as_bytes())
}
