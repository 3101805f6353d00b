//! A registry with a journal in front of it as one under moderation, which scripts ask.
ghost use Rattle.std.specs.Prelude.{◌≡◌};
ghost use Rattle.pid_journal.specs.Pairs.{pair_is_live, pair_showing};
ghost use Rattle.pid_journal.specs.Steps.Living.{both_live, either_fails};

use crate::file::JournalFile;
use crate::journaled::Journaled;
use pid_ident::{Name, Output, Path};
use pid_lookup::{Answer, Args, LookupRefusal};
use pid_moderation::{Command, Refusal, Reply};
use pid_service_laws::{ExportFault, RegistryCalls, RegistryQueries};

// Questions and exports go past the journal.
impl<R: RegistryQueries, J: JournalFile> RegistryCalls for Journaled<R, J> {
    ghost showing = { pair_showing R.RegistryCalls J.JournalFile };

    ghost is_live = { pair_is_live R.RegistryCalls J.JournalFile };

    ghost lives = { record {
      shown = λ p h shows. both_live p.failed (R.is_live p.registry) shows.1.settled
          (R.lives.shown p.registry h shows.1.shown);
      fallen = λ p h next fails. either_fails p.failed (R.is_live p.registry) fails.1.fails
          (λ down. R.lives.fallen p.registry h next down.1);
    } };

    fn obey(&mut self, command: Command) -> Result<Reply, Refusal> {
        Journaled::obey(self, command)
    }

    fn read(&mut self, path: &Path) -> Result<Option<Name>, Refusal> {
        if self.failed {
            return Err(Refusal::Failed);
        }
        self.registry.read(path)
    }

    fn lookup(
        &mut self,
        flags: u32,
        args: &Args,
        size: u32,
    ) -> Result<Answer, LookupRefusal<Refusal>> {
        if self.failed {
            return Err(LookupRefusal::Names(Refusal::Failed));
        }
        self.registry.lookup(flags, args, size)
    }

    fn export<O: Output>(&mut self, out: &mut O) -> Result<(), ExportFault> {
        if self.failed {
            return Err(ExportFault::Refused(Refusal::Failed));
        }
        self.registry.export(out)
    }
}
