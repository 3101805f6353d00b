//! Faults of the tables as refusals.
ghost use Rattle.std.specs.Prelude.{◌≡◌, ◌≢◌};
ghost use Rattle.pid_tables.specs.Faults.{IsMemoryOrStore, refusal_for};

use crate::rows::TableFault;
use pid_moderation::Refusal;

/// No memory is answered as such, and every other fault as one of the store.
pub fn refusal_of(fault: TableFault) -> Refusal
    ensures same { result ≡ refusal_for fault }
    ensures fault { IsMemoryOrStore result }
    ensures alive { result ≢ Refusal.Failed }
{
    match fault {
        TableFault::Memory => Refusal::Memory,
        TableFault::Store | TableFault::NewerSchema(_) | TableFault::Damaged => Refusal::Store,
    }
}
