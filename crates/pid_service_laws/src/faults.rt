//! Why an export was not written whole, or an import has no reply.
use pid_ident::WriteFault;
use pid_moderation::Refusal;
use thiserror::Error;

/// Why not all items were written.
///
/// - `Refused`: of `Failed` nothing was written; of `Memory` and `Store` whole lines.
/// - `Write`: the writer failed, maybe within a line.
#[derive(Clone, Copy, Debug, Error)]
pub enum ExportFault {
    #[error("{0}")]
    Refused(Refusal),
    #[error("the writer failed")]
    Write(WriteFault),
}

impl ExportFault {
    ghost use Rattle.std.specs.Prelude.{◌≡◌};
    ghost use Rattle.pid_service_laws.specs.FaultNumbers.{export_fault_number};

    /// Its number: 1 `Refused`, 2 `Write`.
    pub fn number(self) -> u8
        ensures { result ≡ export_fault_number self }
    {
        match self {
            ExportFault::Refused(_) => 1,
            ExportFault::Write(_) => 2,
        }
    }
}

/// Why an import whose file comes as an input has no reply.
#[derive(Clone, Copy, Debug, Error)]
pub enum ImportEnd {
    #[error("{0}")]
    Refused(Refusal),
    #[error("the input failed")]
    Body,
}

impl ImportEnd {
    ghost use Rattle.std.specs.Prelude.{◌≡◌};
    ghost use Rattle.pid_service_laws.specs.FaultNumbers.{import_end_number};

    /// Its number: 1 `Refused`, 2 `Body`.
    pub fn number(self) -> u8
        ensures { result ≡ import_end_number self }
    {
        match self {
            ImportEnd::Refused(_) => 1,
            ImportEnd::Body => 2,
        }
    }
}
