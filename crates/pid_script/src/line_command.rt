//! The command that a line says, for those who keep lines and obey them later.
ghost use Rattle.std.specs.Prelude.{◌≡◌, ◌≢◌, [], ◌∷◌, IfOk, IfErr};
ghost use Rattle.pid_moderation.specs.Files.{asks};
ghost use Rattle.pid_script.specs.Replies.{command_of};
ghost use Rattle.pid_script.specs.ScriptLines.{ask_of};

use crate::fields::read_command;
use crate::script_line::{LineRequest, line_request};
use pid_moderation::{Command, Refusal};
use std::alloc::Global;

/// The command that a script obeys for a line whose CR is dropped. `Memory` if memory runs out; any
/// other refusal if the line is no command, or is one that breaks its form.
pub fn command_in_line(alloc: Global, line: &[u8]) -> Result<Command, Refusal>
    ensures said { IfOk result (λ c. command_of (ask_of line.now) ≡ asks c ∷ []) }
    ensures none { IfErr result (λ e. e ≢ Refusal.Memory → command_of (ask_of line.now) ≡ []) }
{
    match line_request(line) {
        LineRequest::Command {
            verb,
            account,
            form,
        } => read_command(alloc, verb, account, form),
        LineRequest::Nothing => Err(Refusal::BadText),
        LineRequest::Export => Err(Refusal::BadText),
        LineRequest::Read(_) => Err(Refusal::BadText),
        LineRequest::Lookup(_) => Err(Refusal::BadText),
        LineRequest::Unclear => Err(Refusal::BadText),
        LineRequest::TooLong => Err(Refusal::BadText),
    }
}
