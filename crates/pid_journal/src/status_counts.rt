//! The counts of a status.
ghost use Rattle.std.specs.Prelude.{◌≡◌};
ghost use Rattle.pid_moderation.specs.RegistryStatus.{registry_status_of};
ghost use Rattle.pid_journal.specs.Steps.Notes.{counts_in};

use crate::counts::Counts;
use pid_moderation::Status;

/// What a comment says of a registry with this status.
pub fn counts_of(status: &Status) -> Counts
    ensures { result ≡ counts_in (registry_status_of status.now) }
{
    Counts {
        revision: status.revision,
        accounts: status.accounts,
        items: u64::from(status.items),
        submissions: u64::from(status.submissions),
    }
}
