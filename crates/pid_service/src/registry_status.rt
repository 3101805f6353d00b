//! How much a registry holds.
ghost use Rattle.std.specs.Prelude.{◌≡◌};
ghost use Rattle.pid_moderation.specs.RegistryStatus.{IsStatusIn, registry_status_of};
ghost use Rattle.pid_service.specs.KeptViews.{HoldsAccounts, HoldsPending};
ghost use Rattle.pid_service.specs.Steps.Asking.{ReadsIn};

use crate::accounts::count_accounts;
use crate::pending_numbers::count_pending;
use pid_moderation::Status;
use pid_tables::{Database, TableFault, Tables};
use std::alloc::Global;

/// The status, by the numbers of what is pending and how many accounts there are, if that is kept.
pub(crate) fn status_by<C: Database + Drop>(
    tables: &mut Tables<C>,
    alloc: Global,
    numbers: &Option<Vec<u32>>,
    accounts: Option<u64>,
) -> Result<Status, TableFault>
    ensures { ReadsIn C.Database tables.old tables.new result
        (λ v status. HoldsPending numbers.now v → HoldsAccounts accounts v
        → IsStatusIn v (registry_status_of status)) }
{
    let pending = count_pending(tables, alloc, numbers)?;
    let accounts = count_accounts(tables, accounts)?;
    let items = tables.items()?;
    let revision = tables.revision()?;
    let submissions = tables.submissions()?;
    Ok(Status {
        accounts,
        items,
        pending,
        revision,
        submissions,
    })
}
