//! What a registry says of itself, and its end.
ghost use Rattle.std.specs.Prelude.{◌≡◌, ◌≤◌, false, length};
ghost use Rattle.pid_moderation.specs.History.{History};
ghost use Rattle.pid_moderation.specs.Views.{views_of};
ghost use Rattle.pid_tables.specs.Rows.Clauses.{AtRest};
ghost use Rattle.pid_service.specs.Histories.{Shows};
ghost use Rattle.pid_service.specs.KeptViews.{kept_by};
ghost use Rattle.pid_service.specs.Registries.{connection, is_live as lives};

use crate::registry::Registry;
use pid_tables::Database;

impl<C: Database + Drop> Registry<C> {
    /// Whether the registry is live: one that has failed answers `Failed` until it is opened again.
    pub fn is_live(&self) -> bool
        ensures { result ≡ lives self.now }
    {
        self.live
    }

    /// How many paths it keeps in memory, each with its name or the absence of one: at most 1,024.
    pub fn cached(&self) -> u32
        ensures count { result ≡ length (kept_by self.now).names }
        ensures limit { result ≤ 1024 }
    {
        self.kept.items.names.len()
    }

    /// Hands the connection back, outside a transaction. If the registry has failed, open the files
    /// again.
    pub fn close(self) -> C
        ensures same { result ≡ connection self }
        ensures settled { (C.state result).in_transaction ≡ false }
        // Of a registry that shows a history the tables show it.
        ensures shown { (h : History) → Shows C.Database self h
            → AtRest C.state result (views_of h) }
    {
        let Registry { tables, kept, .. } = self;
        drop(kept);
        tables.into_conn()
    }
}
