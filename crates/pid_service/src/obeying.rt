//! One command: it is judged, and what comes of it is written.
ghost use Rattle.std.specs.Prelude.{◌≡◌, Ok};
ghost use Rattle.pid_service.specs.Obeying.{IsObeyed, Obeys};
ghost use Rattle.pid_service.specs.Steps.Obeying.{LivesOrFails, WhereComes};

use crate::importing::without_body_fault;
use crate::judging::{Judged, judge};
use crate::registry::Registry;
use pid_moderation::{Act, Command, Refusal, Reply, breaks_form};
use pid_reader::SliceInput;
use pid_tables::{WritableDatabase, refusal_of};

impl<C: WritableDatabase + Drop> Registry<C> {
    // Writes the change of a command that is accepted; at a fault the registry has failed. A reply
    // that was kept writes nothing.
    fn carry_out(&mut self, judged: &Judged) -> Result<Reply, Refusal>
        ensures obeyed { WhereComes C.Database self.old judged.now
            (Obeys C.Database result self.new) }
        ensures repeated { (reply : Reply) → judged.now ≡ Judged.Kept reply → result ≡ Ok reply }
        ensures held { LivesOrFails C.Database result self.old self.new }
    {
        match judged {
            Judged::Kept(reply) => Ok(*reply),
            Judged::Accepted { change, reply } => {
                self.kept.follow(self.alloc, change);
                match self.tables.conn.write(self.alloc, change) {
                    Ok(()) => Ok(*reply),
                    Err(fault) => {
                        self.live = false;
                        self.kept.clear();
                        Err(refusal_of(fault))
                    }
                }
            }
        }
    }

    // Obeys a command that stays with the caller.
    pub(crate) fn obey_lent(&mut self, command: &Command) -> Result<Reply, Refusal>
        ensures { IsObeyed C.Database self.old self.new command.now result }
    {
        pid_moderation::laws::command_is_well_made(command); // proof only
        if !self.live {
            return Err(Refusal::Failed);
        }
        if breaks_form(command) {
            return Err(Refusal::BadText);
        }
        if let Act::Import { file } = &command.act {
            let mut input = SliceInput::new(file.as_bytes());
            return without_body_fault(self.import_act(command, &mut input));
        }
        match judge(&mut self.tables, self.alloc, command) {
            Err(refusal) => Err(refusal),
            Ok(judged) => {
                let answer = self.carry_out(&judged);
                drop(judged);
                answer
            }
        }
    }
}
