//! How many accounts there are, as a registry keeps it in memory.
ghost use Rattle.std.specs.Prelude.{◌≡◌, ◌+◌, ℕ, IfSome};
ghost use Rattle.pid_moderation.specs.Changes.{FitsEffect, affected};
ghost use Rattle.pid_moderation.specs.Views.{Views};
ghost use Rattle.pid_tables.specs.Rows.Accounts.{HasAccounts};
ghost use Rattle.pid_service.specs.KeptViews.{HoldsAccounts};
ghost use Rattle.pid_service.specs.Steps.Asking.{ReadsIn};

use pid_moderation::Effect;
use pid_tables::{Database, TableFault, Tables};

/// How many accounts there are after a change.
pub(crate) fn accounts_after(count: Option<u64>, effect: &Effect) -> Option<u64>
    ensures { (n : ℕ) (v : Views) → FitsEffect effect.now v → HoldsAccounts count v
        → HoldsAccounts result (affected n effect.now v) }
{
    let count = count?;
    match effect {
        Effect::Ranked { is_new, .. } => if *is_new {
            count.checked_add(1)
        } else {
            Some(count)
        },
        Effect::Nothing
        | Effect::Submitted { .. }
        | Effect::Remarked { .. }
        | Effect::Decided { .. }
        | Effect::Imported { .. } => Some(count),
    }
}

/// How many accounts there are, by the number that is kept; if none is, their rows are counted.
pub(crate) fn count_accounts<C: Database + Drop>(
    tables: &mut Tables<C>,
    kept: Option<u64>,
) -> Result<u64, TableFault>
    ensures { ReadsIn C.Database tables.old tables.new result
        (λ v n. HoldsAccounts kept v → HasAccounts v n) }
{
    match kept {
        Some(count) => Ok(count),
        None => tables.accounts(),
    }
}
