//! What a script asks of a registry.
ghost use Rattle.std.specs.Prelude.{◌≡◌, Bool, false, Err, IsSome, IsErrOf};
ghost use Rattle.pid_ident.specs.PathTexts.{path_text};
ghost use Rattle.pid_lookup.specs.declared.answering.LookupRefusal.TheVariants as lookups;
ghost use Rattle.pid_file.specs.Printing.{print};
ghost use Rattle.pid_moderation.specs.Files.{asks};
ghost use Rattle.pid_moderation.specs.History.{History};
ghost use Rattle.pid_moderation.specs.Items.{name_at};
ghost use Rattle.pid_moderation.specs.Views.{items_of};
ghost use Rattle.pid_moderation.specs.Writes.{tree_of};
ghost use Rattle.pid_moderation.specs.declared.refusal.Refusal.TheVariants.{Failed};
ghost use Rattle.pid_service_laws.specs.Calls.{nothing_sent, obeyed};
ghost use Rattle.pid_service_laws.specs.Moderating.{ExportsText, LooksUp};
ghost use Rattle.pid_service_laws.specs.Questions.{IsAnswered};
ghost use Rattle.pid_service_laws.specs.Registries.{
  CommandLeaves,
  Does,
  GoesOnShowing,
  Showing,
};

use crate::faults::ExportFault;
use pid_ident::{Name, Output, Path};
use pid_lookup::{Answer, Args, LookupRefusal};
use pid_moderation::{Command, Refusal, Reply};

/// A registry under moderation, as scripts call it.
///
/// What it answers and shows holds if its store returned what was written to it, as the call
/// ends. A registry that has failed answers `Failed` to all and stays as it is.
pub trait RegistryCalls {
    ghost use Rattle.pid_service_laws.specs.Questions.{ShowsWhileLive};
    ghost use Rattle.pid_service_laws.specs.Registries.{Showing};

    /// Whether its store returned what was written to it, which history it shows, and between
    /// which two it has failed.
    ghost showing: { Showing Self };

    /// Neither memory nor its store has failed it while it wrote.
    ghost is_live: { Self → Bool };

    /// Obeys a command, or says why not.
    fn obey(&mut self, command: Command) -> Result<Reply, Refusal>
        ensures honest { showing.is_clean self.new → showing.is_clean self.old }
        // In a session it is the call that obeys the command, with this answer.
        ensures calls { Does showing self.old
            (obeyed (asks command) result (is_live self.new)) self.new }
        ensures obeys { showing.is_clean self.new → (h : History) → showing.shows self.old h
            → CommandLeaves showing result self.new h (asks command) }
        ensures failed { is_live self.old ≡ false
            → (result ≡ Err Failed) × (self.new ≡ self.old) };

    /// The name of the item at a path, if there is one.
    fn read(&mut self, path: &Path) -> Result<Option<Name>, Refusal>
        ensures { IsAnswered showing is_live self.old self.new result
            (λ h name. name ≡ name_at (path_text path.now) (items_of h)) };

    /// The text that libpci's `pci_lookup_name` returns for flags and arguments over the names of
    /// the registry, for a buffer of `size` bytes.
    fn lookup(
        &mut self,
        flags: u32,
        args: &Args,
        size: u32,
    ) -> Result<Answer, LookupRefusal<Refusal>>
        ensures honest { showing.is_clean self.new → showing.is_clean self.old }
        ensures calls { Does showing self.old nothing_sent self.new }
        ensures kept { GoesOnShowing showing self.old self.new }
        ensures told { showing.is_clean self.new → (h : History) → showing.shows self.old h
            → LooksUp result (tree_of h) flags args.now size }
        ensures failed { is_live self.old ≡ false
            → (result ≡ Err (lookups.Names Failed)) × (self.new ≡ self.old) };

    /// Writes the canonical text of all items. If it is refused, what was written is whole lines of
    /// it, or nothing; if the writer failed, what was written may end within a line.
    fn export<O: Output>(&mut self, out: &mut O) -> Result<(), ExportFault>
        ensures calls { Does showing self.old nothing_sent self.new }
        ensures kept { GoesOnShowing showing self.old self.new }
        ensures told { showing.is_clean self.new → (h : History) → showing.shows self.old h
            → ExportsText result (O.taken out.old) (O.taken out.new) (print (tree_of h)) }
        ensures fault { (f : _) → IsErrOf result (ExportFault.Write f)
            → IsSome (O.write_fault out.new) }
        ensures failed { is_live self.old ≡ false
            → (result ≡ Err (ExportFault.Refused Failed)) × (self.new ≡ self.old)
            × (O.taken out.new ≡ O.taken out.old) };

    /// One that shows a history is live, and one that has failed between two is not.
    ghost lives: { ShowsWhileLive showing is_live };
}
