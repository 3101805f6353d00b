//! What takes the entries of a text.
ghost use Rattle.std.specs.Prelude.{◌≡◌, IsTrue, OnOk, IfErr};
ghost use Rattle.pid_file.specs.Words.{is_name};
ghost use Rattle.pid_file.specs.Numbered.{as_numbered};

use crate::path::Path;
use crate::refusal::ReadRefusal;

/// An entry of a text: the number of its line, counted from 1, its path and its name.
#[derive(Clone, Copy)]
pub struct Entry<'a> {
    pub line: usize,
    pub path: Path,
    pub name: &'a str,
}

/// What takes entries one by one, and may fault.
pub trait Sink {
    ghost use Rattle.pid_file.specs.Numbered.{Numbered};

    type Fault;

    /// The sink before, an entry (the number of its line, and with it the text of its path and its
    /// name), and the sink after.
    ghost takes: { Self → Numbered → Self → Type 0 };

    /// The sink before, an entry, the fault, and the sink after.
    ghost faults: { Self → Numbered → Self.Fault → Self → Type 0 };

    /// Takes an entry, or fails with a fault.
    fn entry(&mut self, entry: &Entry<'_>) -> Result<(), Self::Fault>
        requires { IsTrue (is_name entry.now.name.now) }
        ensures taken { OnOk result (takes self.old (as_numbered entry.now) self.new) }
        ensures fault { IfErr result (λ f. faults self.old (as_numbered entry.now) f self.new) };
}

/// Why no more of a text is read: the text is refused, or the sink faulted.
#[derive(Drop)]
pub enum CutEnd<F> {
    /// The text is refused.
    Refused(ReadRefusal),
    /// The sink faulted.
    Fault(F),
}
