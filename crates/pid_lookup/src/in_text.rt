//! A look-up in the text of an input.
ghost use Rattle.std.specs.Prelude.{◌≡◌, ◌↔◌, true, Err, IfSome, IfOk, IsErrOf};
ghost use Rattle.pid_lookup.specs.Flags.{is_bad};
ghost use Rattle.pid_file.specs.InputTexts.{ReadsInput};
ghost use Rattle.pid_file.specs.WholeInputs.{LeavesInput};
ghost use Rattle.pid_lookup.specs.InText.{IsAnswerOfText};

use crate::answer::Answer;
use crate::answering::{LookupRefusal, lookup};
use crate::args::Args;
use crate::laws;
use crate::names_in_text::names_in;
use pid_ident::Input;
use pid_reader::{InputEnd, Never};
use std::alloc::{AllocError, Global};

/// The answer to a look-up in the tree of the input's text, of which only the names are kept that
/// it can ask for. Faults of the text come as from `read_input`, and before those of the look-up.
pub fn lookup_in<I: Input>(
    alloc: Global,
    limit: usize,
    input: &mut I,
    flags: u32,
    args: &Args,
    size: u32,
) -> Result<Result<Answer, LookupRefusal<AllocError>>, InputEnd<Never>>
    ensures answer { IfSome (I.to_come input.old)
        (λ text. ReadsInput (IsAnswerOfText flags args.now size) limit result text) }
    ensures bad_flags { IfOk result (λ found. IsErrOf found LookupRefusal.BadFlags
        ↔ (is_bad flags ≡ true)) }
    ensures leaves { LeavesInput I.Input limit input.old input.new
        (result ≡ Err InputEnd.ReadFault) }
{
    laws::other_names_do_not_matter(); // proof only
    match names_in(alloc, limit, args, input) {
        Ok(names) => {
            let mut names = names;
            Ok(lookup(alloc, &mut names, flags, args, size))
        }
        Err(end) => Err(end),
    }
}
