//! The names of an input's text.
ghost use Rattle.std.specs.Prelude.{◌≡◌, Err, IfSome, IfOk};
ghost use Rattle.pid_file.specs.InputTexts.{ReadsInput};
ghost use Rattle.pid_file.specs.WholeInputs.{LeavesInput};
ghost use Rattle.pid_lookup.specs.Steps.AskedNames.{HasAsked, HasOnly, asked_paths};
ghost use Rattle.pid_lookup.specs.Steps.Kept.{kept_map};

use crate::args::Args;
use crate::asked_names::AskedNames;
use pid_file::end_without_fault;
use pid_ident::Input;
use pid_reader::{InputEnd, Never, cut_input};
use std::alloc::{AllocError, Global};

/// The names of the input's text that a look-up with these arguments can ask for, and no others.
/// Faults are those of `read_input`, and as much is read.
pub fn names_in<I: Input>(
    alloc: Global,
    limit: usize,
    args: &Args,
    input: &mut I,
) -> Result<AskedNames, InputEnd<Never>>
    ensures names { IfSome (I.to_come input.old)
        (λ text. ReadsInput (HasAsked args.now) limit result text) }
    ensures no_others { IfOk result (λ names. HasOnly (asked_paths args.now) (kept_map names)) }
    ensures leaves { LeavesInput I.Input limit input.old input.new
        (result ≡ Err InputEnd.ReadFault) }
{
    let mut names = AskedNames::new(alloc, args);
    match cut_input(alloc, limit, input, &mut names) {
        Ok(()) => Ok(names),
        Err(end) => Err(end_without_fault(end)),
    }
}
