//! A text in chunks, line by line, into a sink.
ghost use Rattle.std.specs.Prelude.{◌≡◌, ◌++◌, ℕ, [], List, Err, OnOk, IfErr};
ghost use Rattle.pid_file.specs.Lines.{lines_of};
ghost use Rattle.pid_file.specs.WholeLines.{whole_lines};
ghost use Rattle.pid_file.specs.Numbered.{numbered_of};
ghost use Rattle.pid_file.specs.Sinks.{Took, Ends};
ghost use Rattle.pid_reader.specs.Cutters.{Holds, IsStopped, left_by};
ghost use Rattle.pid_file.specs.declared.sink.CutEnd.TheVariants.{Refused};

use pid_file::{CutEnd, OpenText, ReadRefusal, Sink};
use std::alloc::Global;

/// Reads a text that comes in chunks, and hands its entries to a sink.
#[derive(Drop)]
pub struct Cutter {
    text: OpenText,
    stopped: Option<ReadRefusal>,
}

impl Cutter {
    /// A cutter to which no byte of a text came yet.
    pub fn new(alloc: Global) -> Cutter
        ensures { Holds result [] }
    {
        Cutter {
            text: OpenText::new(alloc),
            stopped: None,
        }
    }

    /// Takes the next piece of the text, and hands the entries of the lines whose LF has come to
    /// the sink, up to the first line that is refused.
    ///
    /// After an error nothing more is read: `feed` and `finish` leave the sink as it is and answer
    /// that refusal from then on, or `Memory` if the sink faulted.
    pub fn feed<S: Sink>(&mut self, piece: &[u8], sink: &mut S) -> Result<(), CutEnd<S::Fault>>
        ensures stopped { (r : ReadRefusal) → IsStopped self.old r
            → (result ≡ Err (Refused r)) × (sink.new ≡ sink.old) × IsStopped self.new r }
        ensures stops { IfErr result (λ e. IsStopped self.new (left_by e)) }
        ensures holds { (text : List ℕ) → Holds self.old text
            → OnOk result (Holds self.new (text ++ piece.now)) }
        ensures ends { (text : List ℕ) (start : S) → Holds self.old text
            → Took S.takes start (numbered_of (whole_lines text)) sink.old →
            Ends S.takes S.faults result start (whole_lines (text ++ piece.now)) sink.new }
    {
        if let Some(refusal) = self.stopped {
            return Err(CutEnd::Refused(refusal));
        }
        match self.text.take(piece, sink) {
            Ok(()) => Ok(()),
            Err(CutEnd::Refused(refusal)) => {
                self.stopped = Some(refusal);
                Err(CutEnd::Refused(refusal))
            }
            Err(CutEnd::Fault(fault)) => {
                self.stopped = Some(ReadRefusal::Memory);
                Err(CutEnd::Fault(fault))
            }
        }
    }

    /// The text has ended: a last line without LF is read too. After an error of `feed` it answers
    /// its refusal again, or `Memory` if the sink faulted, and the sink stays as it is.
    pub fn finish<S: Sink>(self, sink: &mut S) -> Result<(), CutEnd<S::Fault>>
        ensures stopped { (r : ReadRefusal) → IsStopped self r
            → (result ≡ Err (Refused r)) × (sink.new ≡ sink.old) }
        ensures ends { (text : List ℕ) (start : S) → Holds self text
            → Took S.takes start (numbered_of (whole_lines text)) sink.old →
            Ends S.takes S.faults result start (lines_of text) sink.new }
    {
        let Cutter { text, stopped } = self;
        if let Some(refusal) = stopped {
            return Err(CutEnd::Refused(refusal));
        }
        text.end(sink)
    }
}
