//! A segment of a journal as a file of the process.
use pid_ident::WriteFault;
use pid_journal::JournalFile;
use std::fs::File;
use std::io::Write;
use std::time::{SystemTime, UNIX_EPOCH};

/// A segment, which is open for appending. What the file holds is in no clause.
#[derive(Drop)]
pub struct HostSegment<'r> {
    rt: &'r HostRuntime,
    file: File,
    // How many bytes it holds, but for what a fault left after them.
    length: u64,
    // A mark may have left a part of itself after them.
    is_torn: bool,
}

impl<'r> HostSegment<'r> {
    /// The segment that is in this file. The file is written at its end.
    pub fn of(rt: &'r HostRuntime, file: File) -> Option<HostSegment<'r>> {
        let length = file.metadata().ok()?.len();
        Some(HostSegment {
            rt,
            file,
            length,
            is_torn: false,
        })
    }
}

impl JournalFile for HostSegment<'_> {
    ghost use Rattle.std.specs.Prelude.{None};

    ghost safe = { λ _. None };

    // 0 if the clock fails.
    fn seconds(&self) -> u64 {
        let Ok(now) = SystemTime::now(self.rt) else {
            return 0;
        };
        match now.duration_since(UNIX_EPOCH) {
            Ok(passed) => passed.as_secs(),
            Err(_) => 0,
        }
    }

    fn count(&self) -> u64 {
        self.length
    }

    fn append(&mut self, bytes: &[u8]) -> Result<(), WriteFault> {
        if self.is_torn {
            self.cut(self.length)?;
        }
        if self.file.write_all(bytes).is_err() || self.file.sync_data().is_err() {
            return Err(WriteFault::Device);
        }
        self.length = self.length.saturating_add(bytes.len() as u64);
        Ok(())
    }

    // What a fault leaves of it is cut off before the next append.
    fn mark(&mut self, bytes: &[u8]) {
        if self.is_torn || self.file.write_all(bytes).is_err() {
            self.is_torn = true;
            return;
        }
        self.length = self.length.saturating_add(bytes.len() as u64);
    }

    fn cut(&mut self, count: u64) -> Result<(), WriteFault> {
        if self.file.set_len(count).is_err() || self.file.sync_all().is_err() {
            return Err(WriteFault::Device);
        }
        self.length = count;
        self.is_torn = false;
        Ok(())
    }
}
