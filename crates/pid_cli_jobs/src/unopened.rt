//! Why no registry was opened, and the line that says so.
ghost use Rattle.std.specs.Prelude.{◌≡◌, Some, IfErr};
ghost use Rattle.pid_file.specs.Sending.{Sends};
ghost use Rattle.pid_file.specs.Writing.{use_of};
ghost use Rattle.pid_cli_jobs.specs.Lines.{Reports, unopened_line, unopened_word};

use crate::job_end::JobEnd;
use crate::lines::write_count;
use pid_cli_args::fault_lines::{
    JOURNAL_ANOTHER, JOURNAL_FAILED, JOURNAL_MISSING, OPEN_DAMAGED, OPEN_STORE,
};
use pid_file::FAILED;
use pid_ident::{Output, WriteFault, write_all};

/// Why no registry was opened.
#[derive(Clone, Copy)]
pub enum Unopened {
    Memory,
    /// There is no such file, it is not one for this program, or the disk failed.
    Store,
    /// The file begins as a database, and it or its tables do not keep their conditions.
    Damaged,
    /// The tables are of a later schema, of this number.
    NewerSchema(u64),
    /// The journal is that of another registry.
    AnotherJournal,
    /// The journal lacks segments that the registry needs.
    SegmentsMissing,
    /// The folder of the journal failed, or a file in it.
    JournalFailed,
}

fn unopened_reason(fault: Unopened) -> &'static str
    ensures { result.now ≡ unopened_word fault }
{
    match fault {
        Unopened::Memory => "open: Memory\n",
        Unopened::Store => OPEN_STORE,
        Unopened::Damaged => OPEN_DAMAGED,
        Unopened::NewerSchema(_) => "open: NewerSchema ",
        Unopened::AnotherJournal => JOURNAL_ANOTHER,
        Unopened::SegmentsMissing => JOURNAL_MISSING,
        Unopened::JournalFailed => JOURNAL_FAILED,
    }
}

fn write_unopened<F: Output>(fault: Unopened, faults: &mut F) -> Result<(), WriteFault>
    ensures sent { Sends result (F.taken faults.old) (F.taken faults.new) (unopened_line fault) }
    ensures fault { IfErr result (λ f. F.write_fault faults.new ≡ Some f) }
{
    let reason = unopened_reason(fault);
    let Unopened::NewerSchema(schema) = fault else {
        return write_all(faults, reason.as_bytes());
    };
    write_count(reason, schema, faults)
}

/// Reports why a registry was not opened.
pub fn report_unopened<F: Output>(fault: Unopened, faults: &mut F) -> JobEnd
    ensures { Reports (unopened_line fault) (use_of F.Output faults.old faults.new) result }
{
    let _ = write_unopened(fault, faults);
    JobEnd::Exited(FAILED)
}
