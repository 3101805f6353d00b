//! What scripts ask of the registry of this crate: each call, with all that it promises.
ghost use Rattle.std.specs.Prelude.{◌≡◌};
ghost use Rattle.pid_ident.specs.PathTexts.{path_text};
ghost use Rattle.pid_moderation.specs.Files.{asks};
ghost use Rattle.pid_moderation.specs.Items.{name_at};
ghost use Rattle.pid_moderation.specs.Views.{items_of};
ghost use Rattle.pid_service_laws.specs.Calls.{obeyed};
ghost use Rattle.pid_service_laws.specs.Registries.{Does};
ghost use Rattle.pid_service.specs.Asking.{Answers};
ghost use Rattle.pid_service.specs.Exporting.{IsExported};
ghost use Rattle.pid_service.specs.Sessions.{showing as registry_showing};
ghost use Rattle.pid_service.specs.LookingUp.{IsLookedUp};
ghost use Rattle.pid_service.specs.Obeying.{IsObeyed};
ghost use Rattle.pid_service.specs.Registries.{is_live as registry_is_live};

use crate::reading::fault_as_refusal;
use crate::registry::Registry;
use pid_ident::{Name, Output, Path};
use pid_lookup::{Answer, Args, LookupRefusal, lookup};
use pid_moderation::{Command, Refusal, Reply};
use pid_service_laws::{ExportFault, RegistryCalls, RegistryQueries};
use pid_tables::WritableDatabase;

impl<C: WritableDatabase + Drop> RegistryCalls for Registry<C> {
    ghost showing = { registry_showing C.Database };

    ghost is_live = { λ r. registry_is_live r };

    ghost lives = { record {
      shown = λ r h shows. shows.lives;
      fallen = λ r h next fails. fails.has_failed;
    } };

    /// One transaction with one commit, in which the receipt of the command is kept too.
    ///
    /// `Failed` of a registry that has failed, and of no other. `BadText` of an empty comment or
    /// reason and of a file that is too long, which are found before all else. `Memory` and `Store`
    /// of a registry that stays live and shows what it did, or has failed. Every other refusal is
    /// that of the judgement, and changes nothing.
    fn obey(&mut self, command: Command) -> Result<Reply, Refusal>
        ensures calls { Does (registry_showing C.Database) self.old
            (obeyed (asks command) result (registry_is_live self.new)) self.new }
        ensures own { IsObeyed C.Database self.old self.new command result }
    {
        let answer = self.obey_lent(&command);
        drop(command);
        answer
    }

    /// It asks the tables, whatever names are kept in memory.
    fn read(&mut self, path: &Path) -> Result<Option<Name>, Refusal>
        ensures { Answers C.Database self.old self.new result
            (λ h name. name ≡ name_at (path_text path.now) (items_of h)) }
    {
        if !self.live {
            return Err(Refusal::Failed);
        }
        fault_as_refusal(self.tables.item(self.alloc, path))
    }

    /// A registry that has failed answers `Names(Failed)`, before bad flags.
    fn lookup(
        &mut self,
        flags: u32,
        args: &Args,
        size: u32,
    ) -> Result<Answer, LookupRefusal<Refusal>>
        ensures { IsLookedUp C.Database self.old self.new flags args.now size result }
    {
        if !self.live {
            return Err(LookupRefusal::Names(Refusal::Failed));
        }
        lookup(self.alloc, self, flags, args, size)
    }

    /// The text that is kept in memory, or one that is printed while the items are read one by one.
    ///
    /// A registry that has failed writes nothing and answers `Refused(Failed)`. If memory runs out
    /// or the store fails, `Refused` has `Memory` or `Store`, and the first lines were written, or
    /// none, each of them whole. If the writer fails, `Write` has its fault, and a prefix of the
    /// text was written, which may end within a line. In all of these cases the registry shows the
    /// history as before, and is live or has failed as before.
    fn export<O: Output>(&mut self, out: &mut O) -> Result<(), ExportFault>
        ensures { IsExported C.Database O.Output self.old self.new out.old out.new result }
    {
        // So the text is kept in memory and goes out whole. If it can't be, it goes out in parts.
        let _ = self.export_length();
        self.export_rows(out)
    }
}
