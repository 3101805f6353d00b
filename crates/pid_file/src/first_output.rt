//! What the first program prints besides the result of `tidy` and `check`.
ghost use Rattle.std.specs.Prelude.{◌≡◌, ◌⊎◌};

use crate::plain::Plain;
use crate::process::{NO_JOB, report_failed, report_text_end};
use crate::text_end::TextEnd;
use crate::watched::Watched;
use crate::writing::write_all;
use std::io::{ErrorKind, Write};

/// Prints a page on `output`, and returns the exit status: 0, or 3 if it can't be written.
pub fn show<O: Write + Drop, F: Write + Drop>(page: &str, output: O, faults: F) -> u8
    ensures { (result ≡ 0) ⊎ (result ≡ 3) }
{
    let mut output = Plain::new(Watched::new(output));
    match write_all(&mut output, page.as_bytes()) {
        Ok(()) => 0,
        Err(_) => report_failed(output.into_inner().is_unread(), &mut Plain::new(faults)),
    }
}

/// Reports that the arguments can't be read, and returns the exit status.
pub fn report_no_words<F: Write + Drop>(kind: ErrorKind, faults: F) -> u8
    ensures { (result ≡ 2) ⊎ (result ≡ 3) }
{
    match kind {
        ErrorKind::OutOfMemory => report_text_end(TextEnd::Memory, &mut Plain::new(faults)),
        _ => {
            let _ = write_all(
                &mut Plain::new(faults),
                b"error: an argument is not valid UTF-8\n",
            );
            NO_JOB
        }
    }
}
