//! The items of a registry as the text of their tree.
ghost use Rattle.pid_service.specs.Exporting.{IsExported};
ghost use Rattle.pid_service.specs.Steps.Exporting.{IsToldAs};

use crate::item_text::export_items;
use crate::registry::Registry;
use pid_ident::{Output, WriteFault, write_all};
use pid_moderation::Refusal;
use pid_service_laws::ExportFault;
use pid_tables::{Database, EachEnd, refusal_of};

fn export_fault(end: EachEnd<WriteFault>) -> ExportFault
    ensures { IsToldAs end result }
{
    match end {
        EachEnd::Tables(fault) => ExportFault::Refused(refusal_of(fault)),
        EachEnd::Fault(fault) => ExportFault::Write(fault),
    }
}

impl<C: Database + Drop> Registry<C> {
    /// Writes the canonical text of all items as `export` does, but keeps none in memory.
    pub fn export_rows<W: Output>(&mut self, output: &mut W) -> Result<(), ExportFault>
        ensures { IsExported C.Database W.Output self.old self.new output.old output.new result }
    {
        if !self.live {
            return Err(ExportFault::Refused(Refusal::Failed));
        }
        if let Some(text) = &self.kept.items.text {
            return match write_all(output, text.bytes.as_slice()) {
                Ok(()) => Ok(()),
                Err(fault) => Err(ExportFault::Write(fault)),
            };
        }
        match export_items(&mut self.tables, output) {
            Ok(()) => Ok(()),
            Err(end) => Err(export_fault(end)),
        }
    }
}
