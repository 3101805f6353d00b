//! What the text of an input says: its tree, and the number of its entries.
ghost use Rattle.std.specs.Prelude.{◌≡◌, ◌↔◌, Err, IfSome};
ghost use Rattle.pid_file.specs.Reading.{Reads};
ghost use Rattle.pid_file.specs.InputTexts.{HasEntries, ReadsInput};
ghost use Rattle.pid_file.specs.WholeInputs.{LeavesInput};
ghost use Rattle.pid_file.specs.Steps.InputTexts.{without_fault};

use crate::counter::{Counter, Never};
use crate::io::Input;
use crate::refusal::ReadRefusal;
use crate::sink::CutEnd;
use crate::tree::Tree;
use crate::tree_sink::TreeSink;
use crate::whole_input::{InputEnd, cut_input};
use std::alloc::{AllocError, Global};

/// The end of an input whose sink can only run out of memory: a fault of the sink is the refusal
/// `Memory`.
pub fn end_without_fault(end: InputEnd<AllocError>) -> InputEnd<Never>
    ensures end { result ≡ without_fault end }
    ensures fault { (result ≡ InputEnd.ReadFault) ↔ (end ≡ InputEnd.ReadFault) }
{
    match end {
        InputEnd::ReadFault => InputEnd::ReadFault,
        InputEnd::TooLong => InputEnd::TooLong,
        InputEnd::Cut(CutEnd::Refused(refusal)) => InputEnd::Cut(CutEnd::Refused(refusal)),
        InputEnd::Cut(CutEnd::Fault(AllocError)) => {
            InputEnd::Cut(CutEnd::Refused(ReadRefusal::Memory))
        }
    }
}

/// The tree of the input's text. A fault of the input is answered before all else; then that the
/// text has more than `limit` bytes; then what is refused in it. At most one byte past the limit
/// is read, to know that there is one.
pub fn read_input<I: Input>(
    alloc: Global,
    limit: usize,
    input: &mut I,
) -> Result<Tree, InputEnd<Never>>
    ensures end { IfSome (I.to_come input.old) (λ text. ReadsInput Reads limit result text) }
    ensures leaves { LeavesInput I.Input limit input.old input.new
        (result ≡ Err InputEnd.ReadFault) }
{
    let mut sink = TreeSink::new(alloc);
    match cut_input(alloc, limit, input, &mut sink) {
        Ok(()) => match sink.into_tree() {
            Ok(tree) => Ok(tree),
            Err(_) => Err(InputEnd::Cut(CutEnd::Refused(ReadRefusal::Memory))),
        },
        Err(end) => Err(end_without_fault(end)),
    }
}

/// The number of the entries of the input's text, without keeping their names. Its faults come in
/// the order of `read_input`, and it reads as much.
pub fn count_input<I: Input>(
    alloc: Global,
    limit: usize,
    input: &mut I,
) -> Result<u64, InputEnd<Never>>
    ensures end { IfSome (I.to_come input.old) (λ text. ReadsInput HasEntries limit result text) }
    ensures leaves { LeavesInput I.Input limit input.old input.new
        (result ≡ Err InputEnd.ReadFault) }
{
    let mut counter = Counter { count: 0 };
    match cut_input(alloc, limit, input, &mut counter) {
        Ok(()) => Ok(counter.count),
        Err(end) => Err(end),
    }
}
