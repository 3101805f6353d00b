//! Lists that grow one by one.
ghost use Rattle.std.specs.Prelude.{◌≡◌, ◌∷◌, ◌++◌, [], OnOk, IfErr};
ghost use Rattle.pid_tables.specs.declared.rows.fault.TableFault.TheVariants as faults;

use crate::rows::TableFault;

// Adds an element after the last one.
pub(crate) fn push_last<T: Drop>(list: &mut Vec<T>, element: T) -> Result<(), TableFault>
    ensures items { OnOk result (list.new.items ≡ list.old.items ++ element ∷ []) }
    ensures full { IfErr result (λ fault. fault ≡ faults.Memory) }
{
    match list.push(element) {
        Ok(()) => Ok(()),
        Err(_) => Err(TableFault::Memory),
    }
}
