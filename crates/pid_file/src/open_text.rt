//! A text that comes in chunks, line by line, into a sink.
ghost use Rattle.std.specs.Prelude.{◌≡◌, ◌∷◌, ◌++◌, ℕ, [], List, OnOk, reverse};
ghost use Rattle.pid_file.specs.Lines.{drop_cr, lines_of};
ghost use Rattle.pid_file.specs.WholeLines.{ended_pieces, open_part, whole_lines};
ghost use Rattle.pid_file.specs.Numbered.{numbered_of};
ghost use Rattle.pid_file.specs.Sinks.{Took, Ends};
ghost use Rattle.pid_file.specs.OpenTexts.{IsLeftOpen};
ghost use Rattle.pid_file.specs.LinesRead.{Shows};
ghost use Rattle.pid_file.specs.Steps.LineEnds.{LineEnds};

use crate::entry_line::NamedPath;
use crate::line::without_cr;
use crate::lines_read::LinesRead;
use crate::pieces::split_line;
use crate::refusal::ReadRefusal;
use crate::sink::{CutEnd, Entry, Sink};
use std::alloc::Global;

/// A text of which some chunks have come: its last line, which is still open, and what is kept of
/// the lines before it.
#[derive(Drop)]
pub struct OpenText {
    line: Vec<u8>,
    progress: LinesRead,
}

// Reads one more line.
fn take_line<S: Sink>(
    progress: &mut LinesRead,
    line: &[u8],
    sink: &mut S,
) -> Result<(), CutEnd<S::Fault>>
    ensures shows { (earlier : List (List ℕ)) → Shows progress.old earlier
        → OnOk result (Shows progress.new (line.now ∷ earlier)) }
    ensures ends { (earlier : List (List ℕ)) → Shows progress.old earlier
        → LineEnds S.takes S.faults result earlier line.now sink.old sink.new }
{
    match progress.judge(line) {
        Err(refusal) => Err(CutEnd::Refused(refusal)),
        Ok(None) => Ok(()),
        Ok(Some((line, named))) => {
            let NamedPath { path, name } = named;
            match sink.entry(&Entry { line, path, name }) {
                Ok(()) => Ok(()),
                Err(fault) => Err(CutEnd::Fault(fault)),
            }
        }
    }
}

impl OpenText {
    /// A text of which no byte has come.
    pub fn new(alloc: Global) -> OpenText
        ensures { IsLeftOpen result [] }
    {
        OpenText {
            line: Vec::new(alloc),
            progress: LinesRead::new(alloc),
        }
    }

    // The open line ends with these bytes.
    fn end_line<S: Sink>(&mut self, front: &[u8], sink: &mut S) -> Result<(), CutEnd<S::Fault>>
        requires { ended_pieces front.now ≡ [] }
        ensures holds { (text : List ℕ) → IsLeftOpen self.old text
            → OnOk result (IsLeftOpen self.new (text ++ (front.now ++ 10 ∷ []))) }
        ensures ends { (text : List ℕ) → IsLeftOpen self.old text
            → LineEnds S.takes S.faults result (reverse (whole_lines text))
            (drop_cr (open_part text ++ front.now)) sink.old sink.new }
    {
        if self.line.is_empty() {
            return take_line(&mut self.progress, without_cr(front), sink);
        }
        if self.line.extend_from_slice(front).is_err() {
            return Err(CutEnd::Refused(ReadRefusal::Memory));
        }
        take_line(&mut self.progress, without_cr(&self.line), sink)?;
        self.line.clear();
        Ok(())
    }

    /// Takes the next chunk, if nothing was refused, and hands the entries of the lines whose LF
    /// has come to the sink, up to the first line that is refused.
    pub fn take<S: Sink>(&mut self, piece: &[u8], sink: &mut S) -> Result<(), CutEnd<S::Fault>>
        ensures holds { (text : List ℕ) → IsLeftOpen self.old text
            → OnOk result (IsLeftOpen self.new (text ++ piece.now)) }
        ensures ends { (text : List ℕ) (start : S) → IsLeftOpen self.old text
            → Took S.takes start (numbered_of (whole_lines text)) sink.old →
            Ends S.takes S.faults result start (whole_lines (text ++ piece.now)) sink.new }
    {
        let mut rest = piece;
        while let Some((front, behind)) = split_line(rest) {
            self.end_line(front, sink)?;
            rest = behind;
        }
        if self.line.extend_from_slice(rest).is_err() {
            return Err(CutEnd::Refused(ReadRefusal::Memory));
        }
        Ok(())
    }

    /// The text has ended: a last line without LF is read too.
    pub fn end<S: Sink>(self, sink: &mut S) -> Result<(), CutEnd<S::Fault>>
        ensures { (text : List ℕ) (start : S) → IsLeftOpen self text
            → Took S.takes start (numbered_of (whole_lines text)) sink.old →
            Ends S.takes S.faults result start (lines_of text) sink.new }
    {
        let OpenText { line, mut progress } = self;
        if line.is_empty() {
            return Ok(());
        }
        take_line(&mut progress, without_cr(&line), sink)
    }
}
