//! Items, printed one by one.
ghost use Rattle.std.specs.Prelude.{◌≡◌, None};

use pid_file::write_after;
use pid_ident::{Output, Path, WriteFault};
use pid_reader::{Entry, Sink};

/// Writes the lines of each item that it takes after those of the one before.
#[derive(Drop)]
pub(crate) struct ExportSink<'w, W: Output> {
    out: &'w mut W,
    before: Option<Path>,
}

impl<'w, W: Output> ExportSink<'w, W> {
    pub(crate) fn new(out: &'w mut W) -> ExportSink<'w, W>
        ensures same_reference { result.out.ghost_name ≡ out.entry.ghost_name }
        ensures now { result.out.now ≡ out.old }
        ensures first { result.before ≡ None }
    {
        ExportSink { out, before: None }
    }
}

impl<W: Output> Sink for ExportSink<'_, W> {
    ghost use Rattle.pid_service.specs.Steps.ExportSinks.{PrintsItem, StopsWithin};

    type Fault = WriteFault;

    ghost takes = { PrintsItem W.taken };

    ghost faults = { StopsWithin W.taken W.write_fault };

    fn entry(&mut self, entry: &Entry<'_>) -> Result<(), WriteFault> {
        write_after(self.before, &entry.path, entry.name, self.out)?;
        self.before = Some(entry.path);
        Ok(())
    }
}
