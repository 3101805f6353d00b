//! All items of the tables, written as a canonical text.
ghost use Rattle.pid_service.specs.Steps.Exports.{PrintsItems};

use crate::export_sink::ExportSink;
use pid_file::write_header;
use pid_ident::{Output, WriteFault};
use pid_tables::{Database, EachEnd, Tables};

/// Writes the header and then the lines of each item in the canonical order, while the item is lent
/// by the connection: no list of items is made, and none is held.
///
/// The tables stay as they are. If they can't be read on, what was written ends with a whole line;
/// if the writer fails (`Fault`), maybe within one. It keeps what it took until then.
pub fn export_items<C: Database + Drop, W: Output>(
    tables: &mut Tables<C>,
    out: &mut W,
) -> Result<(), EachEnd<WriteFault>>
    ensures { PrintsItems C.Database W.Output tables.old tables.new out.old out.new result }
{
    match write_header(out) {
        Err(fault) => Err(EachEnd::Fault(fault)),
        Ok(()) => {
            let mut sink = ExportSink::new(out);
            tables.each_item(&mut sink)
        }
    }
}
