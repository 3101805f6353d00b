//! A text as a tree, whole or in chunks of any size.
ghost use Rattle.std.specs.Prelude.{◌≡◌, ◌++◌, ℕ, [], List, None, Err, OnOk, IfOk, IfErr};
ghost use Rattle.pid_file.specs.Reading.{Reads, refused, refusal_of};
ghost use Rattle.pid_file.specs.WholeLines.{whole_lines};
ghost use Rattle.pid_file.specs.Refusals.{IsRefusal};
ghost use Rattle.pid_reader.specs.Cutters.{left_by};
ghost use Rattle.pid_reader.specs.Feeders.{Feeds, GaveUp};
ghost use Rattle.pid_reader.specs.Steps.Feeders.{IsTreeEnd};
ghost use Rattle.pid_file.specs.declared.sink.CutEnd.TheVariants.{Refused};

use crate::cutter::Cutter;
use pid_file::{CutEnd, ReadRefusal, Tree, TreeFault, TreeSink};
use std::alloc::{AllocError, Global};

/// Reads a text that comes in chunks of any size as a tree.
#[derive(Drop)]
pub struct Feeder {
    cutter: Cutter,
    sink: TreeSink,
}

impl Feeder {
    /// A feeder to which no byte of a text came yet.
    pub fn new(alloc: Global) -> Feeder
        ensures { Feeds result [] }
    {
        Feeder {
            cutter: Cutter::new(alloc),
            sink: TreeSink::new(alloc),
        }
    }

    /// Takes the next chunk of the text. The error is the first refusal among the lines whose LF
    /// has come, or `Memory`; `feed` and `finish` answer it from then on.
    pub fn feed(&mut self, piece: &[u8]) -> Result<(), ReadRefusal>
        ensures feeds { (text : List ℕ) → Feeds self.old text
            → OnOk result (Feeds self.new (text ++ piece.now)
            × (refusal_of (whole_lines (text ++ piece.now)) ≡ None)) }
        ensures refused { (text : List ℕ) → Feeds self.old text
            → IfErr result (λ r. IsRefusal r (refusal_of (whole_lines (text ++ piece.now)))) }
        ensures stops { IfErr result (λ r. GaveUp self.new r) }
        ensures stopped { (r : ReadRefusal) → GaveUp self.old r → result ≡ Err r }
    {
        match self.cutter.feed(piece, &mut self.sink) {
            Ok(()) => Ok(()),
            Err(CutEnd::Refused(refusal)) => Err(refusal),
            Err(CutEnd::Fault(AllocError)) => Err(ReadRefusal::Memory),
        }
    }

    // The tree of the whole text, in which no parent is missing.
    fn end(self) -> Result<Tree, CutEnd<TreeFault>>
        ensures read { (text : List ℕ) → Feeds self text
            → IfOk result (λ t. Reads text t × (refused text ≡ None)) }
        ensures ends { (text : List ℕ) → Feeds self text
            → IfErr result (λ e. IsTreeEnd e (refused text)) }
        ensures stopped { (r : ReadRefusal) → GaveUp self r → result ≡ Err (Refused r) }
    {
        let Feeder { cutter, mut sink } = self;
        match cutter.finish(&mut sink) {
            Ok(()) => match sink.into_tree() {
                Ok(tree) => Ok(tree),
                Err(fault) => Err(CutEnd::Fault(fault)),
            },
            Err(CutEnd::Refused(refusal)) => Err(CutEnd::Refused(refusal)),
            Err(CutEnd::Fault(AllocError)) => Err(CutEnd::Fault(TreeFault::Memory)),
        }
    }

    /// The text has ended: its tree; or its first refusal, or `Memory`. After an error of `feed`
    /// that is given again.
    pub fn finish(self) -> Result<Tree, ReadRefusal>
        ensures read { (text : List ℕ) → Feeds self text
            → IfOk result (λ t. Reads text t × (refused text ≡ None)) }
        ensures refused { (text : List ℕ) → Feeds self text
            → IfErr result (λ r. IsRefusal r (refused text)) }
        ensures stopped { (r : ReadRefusal) → GaveUp self r → result ≡ Err r }
    {
        match self.end() {
            Ok(tree) => Ok(tree),
            Err(CutEnd::Refused(refusal)) => Err(refusal),
            Err(CutEnd::Fault(_)) => Err(ReadRefusal::Memory),
        }
    }
}

/// The tree of a text; or its first refusal, or `Memory`.
pub fn read_ids(alloc: Global, text: &[u8]) -> Result<Tree, ReadRefusal>
    ensures read { IfOk result (λ t. Reads text.now t) }
    ensures counted { IfOk result (λ t. refused text.now ≡ None) }
    ensures refused { IfErr result (λ r. IsRefusal r (refused text.now)) }
{
    let mut feeder = Feeder::new(alloc);
    feeder.feed(text)?;
    feeder.finish()
}
