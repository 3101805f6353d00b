//! A list of commands in one call.
ghost use Rattle.std.specs.Prelude.{◌≡◌, IfSome};
ghost use Rattle.pid_service.specs.Histories.{IsMemoryOrStore};
ghost use Rattle.pid_service.specs.Running.{IsRun};
ghost use Rattle.pid_service.specs.Steps.Running.{fault_in};

use crate::registry::Registry;
use pid_moderation::{Command, Refusal, Reply};
use pid_tables::WritableDatabase;

/// What came of a list of commands.
#[derive(Drop)]
pub struct RunReport {
    /// The reply or the refusal of each command that was obeyed, from the first one on.
    pub replies: Vec<Result<Reply, Refusal>>,
    /// `Memory` or `Store` at the command after these, or `Failed` of a registry that had failed
    /// before; none if all were obeyed.
    pub fault: Option<Refusal>,
}

fn fault_of(outcome: Result<Reply, Refusal>) -> Option<Refusal>
    ensures told { result ≡ fault_in outcome }
    ensures fault { IfSome result IsMemoryOrStore }
{
    match outcome {
        Err(Refusal::Memory) => Some(Refusal::Memory),
        Err(Refusal::Store) => Some(Refusal::Store),
        _ => None,
    }
}

impl<C: WritableDatabase + Drop> Registry<C> {
    /// Obeys commands in order, up to the first at which memory runs out or the store fails.
    ///
    /// Each is obeyed as by `obey`, whose clauses say what its reply and the fault stand for. The
    /// memory for the replies is taken first, so that none is lost. A registry that has failed obeys
    /// nothing, with the fault `Failed`.
    pub fn run(&mut self, commands: &[Command]) -> RunReport
        ensures { IsRun C.Database self.old self.new commands.now result }
    {
        if !self.live {
            return RunReport {
                replies: Vec::new(self.alloc),
                fault: Some(Refusal::Failed),
            };
        }
        let Ok(mut replies) = Vec::with_capacity(self.alloc, commands.len()) else {
            return RunReport {
                replies: Vec::new(self.alloc),
                fault: Some(Refusal::Memory),
            };
        };
        for command in commands {
            let outcome = self.obey_lent(command);
            let fault = fault_of(outcome);
            if fault.is_some() {
                return RunReport { replies, fault };
            }
            if replies.push(outcome).is_err() {
                return RunReport {
                    replies,
                    fault: Some(Refusal::Memory),
                };
            }
        }
        RunReport {
            replies,
            fault: None,
        }
    }
}
