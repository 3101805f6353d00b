//! A registry as a holder of names, for look-ups. Names that were asked for it keeps in memory.
use crate::registry::Registry;
use pid_ident::{Name, Path};
use pid_lookup::Names;
use pid_moderation::Refusal;
use pid_tables::{Database, refusal_of};

impl<C: Database + Drop> Names for Registry<C> {
    ghost use Rattle.std.specs.Prelude.{◌≡◌, true};
    ghost use Rattle.pid_moderation.specs.History.{History};
    ghost use Rattle.pid_moderation.specs.Writes.{tree_of};
    ghost use Rattle.pid_service.specs.Asking.{FaultIsCaused, MayGive};
    ghost use Rattle.pid_service.specs.Histories.{Shows};
    ghost use Rattle.pid_service.specs.Registries.{HasCleanDisk, is_live};
    ghost use Rattle.pid_service.specs.Steps.Asking.{OnlyAsked};

    type Fault = Refusal;

    ghost Shown = { History };

    ghost map_of = { tree_of };

    ghost shows = { λ r h. Shows C.Database r h };

    ghost is_honest = { λ r. HasCleanDisk C.Database r };

    ghost may_give = { λ r f. MayGive (is_live r) f };

    ghost may_tell = { λ r. is_live r ≡ true };

    ghost has_cause = { FaultIsCaused C.Database };

    ghost only_asked = { OnlyAsked C.Database };

    fn name_of(&mut self, path: &Path) -> Result<Option<Name>, Refusal> {
        if !self.live {
            return Err(Refusal::Failed);
        }
        match self.kept.items.names.get(path) {
            Ok(Some(name)) => Ok(name),
            Err(_) => Err(Refusal::Memory),
            Ok(None) => match self.tables.item(self.alloc, path) {
                Ok(name) => {
                    self.kept.items.names.put(path, &name);
                    Ok(name)
                }
                Err(fault) => Err(refusal_of(fault)),
            },
        }
    }
}
