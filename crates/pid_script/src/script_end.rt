//! How a script ends.
ghost use Rattle.std.specs.Prelude.{◌≡◌};
ghost use Rattle.pid_script.specs.EndStatus.{script_status};

/// How a script ends.
#[derive(Clone, Copy, Debug, PartialEq, Eq)]
pub enum ScriptEnd {
    /// All lines were answered.
    Done,
    /// The reader failed.
    ReadFault,
    /// The writer failed, or took no byte.
    WriteFault,
    /// A line of more than 16,777,216 bytes, its CR not counted.
    TooLong,
    /// Memory or the store refused, or the registry had failed.
    Stopped,
    /// As many reads were made as are allowed.
    TurnsSpent,
}

impl ScriptEnd {
    /// The status of a process whose script ends so: 0 if all lines were answered, whatever was
    /// refused on the way, 1 if a line is too long, else 3.
    pub fn status(self) -> u8
        ensures { result ≡ script_status self }
    {
        match self {
            ScriptEnd::Done => 0,
            ScriptEnd::TooLong => 1,
            ScriptEnd::Stopped
            | ScriptEnd::ReadFault
            | ScriptEnd::WriteFault
            | ScriptEnd::TurnsSpent => 3,
        }
    }
}
