//! Faults of the tables.
ghost use Rattle.std.specs.Prelude.{◌≡◌};
ghost use Rattle.pid_tables.specs.declared.rows.fault.TableFault.TheVariants as variants;
ghost use Rattle.pid_tables.specs.Rows.Steps.Faults.{fault_of_sql, fault_of_word};

use pid_ident::WordFault;
use sqlite::{Error as SqlError, ErrorCode};
use sqlite_resolve::CompileError;
use std::alloc::AllocError;
use thiserror::Error;

/// Why a call on the tables has no answer. Whatever it is, the tables keep what was committed.
///
/// - `Memory`: out of memory. The same call may succeed later.
/// - `Store`: the disk failed or refused; an earlier fault has shut the connection; the connection's
///   limit of steps was reached; or the database refused the statement: a key that is there twice, a
///   row that another needs, or a number that it does not hold.
/// - `NewerSchema`: the tables are of a later schema, of this number.
/// - `Damaged`: a table, a row or a value is not one that this program writes.
#[derive(Clone, Copy, Debug, Error)]
pub enum TableFault {
    #[error("no memory")]
    Memory,
    #[error("the store failed or refused")]
    Store,
    #[error("the tables are of schema {0}")]
    NewerSchema(u64),
    #[error("the tables do not keep their conditions")]
    Damaged,
}

impl TableFault {
    ghost use Rattle.std.specs.Prelude.{◌≡◌};
    ghost use Rattle.pid_tables.specs.Rows.Faults.{table_fault_number};

    /// 1 to 4, in the order above.
    pub fn number(self) -> u8
        ensures { result ≡ table_fault_number self }
    {
        match self {
            TableFault::Memory => 1,
            TableFault::Store => 2,
            TableFault::NewerSchema(_) => 3,
            TableFault::Damaged => 4,
        }
    }
}

impl From<AllocError> for TableFault {
    ghost from_gives = { λ _ fault. fault ≡ variants.Memory };

    fn from(_error: AllocError) -> TableFault {
        TableFault::Memory
    }
}

impl From<SqlError> for TableFault {
    ghost from_gives = { λ e fault. fault ≡ fault_of_sql e };

    fn from(error: SqlError) -> TableFault {
        match error {
            SqlError::SqliteFailure(ErrorCode::OutOfMemory)
            | SqlError::SqlInputError(CompileError::OutOfMemory) => TableFault::Memory,
            SqlError::SqlInputError(_)
            | SqlError::InvalidColumnIndex(_)
            | SqlError::InvalidColumnType(_, _)
            | SqlError::IntegralValueOutOfRange(_)
            | SqlError::Utf8Error(_) => TableFault::Damaged,
            _ => TableFault::Store,
        }
    }
}

/// A word in a row that breaks its rule is damage.
impl From<WordFault> for TableFault {
    ghost from_gives = { λ e fault. fault ≡ fault_of_word e };

    fn from(fault: WordFault) -> TableFault {
        match fault {
            WordFault::Bad => TableFault::Damaged,
            WordFault::Memory => TableFault::Memory,
        }
    }
}
