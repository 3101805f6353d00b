//! The texts that libpci's `pci_lookup_name` returns.
ghost use Rattle.std.specs.Prelude.{◌≡◌, ◌≢◌, ◌↔◌, true, false, Err, IfOk, IsErrOf};
ghost use Rattle.std.specs.List.{flat_map};
ghost use Rattle.pid_lookup.specs.declared.answering.LookupRefusal.TheVariants.{Memory};
ghost use Rattle.pid_lookup.specs.Answers.{answer_of, cut_answer};
ghost use Rattle.pid_lookup.specs.Answers.{request_number, request_text, request_word};
ghost use Rattle.pid_lookup.specs.Cut.{cut as cut_text};
ghost use Rattle.pid_lookup.specs.Flags.{is_bad};
ghost use Rattle.pid_lookup.specs.Found.{name_in_map};
ghost use Rattle.pid_lookup.specs.Questions.{HaveCauses, IsStill, OfShown};
ghost use Rattle.pid_lookup.specs.Steps.Answering.{in_memory};
ghost use Rattle.pid_lookup.specs.Steps.FoundTexts.{found_text};
ghost use Rattle.pid_lookup.specs.Steps.Styles.{switches};
ghost use Rattle.pid_lookup.specs.Told.{AsksWhereNeeded, TellsOnlyIf};

use crate::answer::{Answer, AnswerText};
use crate::args::Args;
use crate::cut::cut;
use crate::digits::Digits;
use crate::find::{Found, find};
use crate::flags::{Request, Style, read_flags};
use crate::layout::found_parts;
use crate::names::Names;
use std::alloc::{AllocError, Global};
use thiserror::Error;

/// Why a look-up has no answer. A reply to a client says so by another number: `Unanswered` has
/// that of bad flags, the holder's fault its own.
#[derive(Debug, Drop, Error)]
pub enum LookupRefusal<F> {
    #[error("the flags ask for numbers alone and for no numbers, or have an unknown bit")]
    BadFlags,
    /// The holder of the names failed with a fault.
    #[error("the names could not be read")]
    Names(F),
    #[error("no memory")]
    Memory,
}

impl<F> LookupRefusal<F> {
    ghost use Rattle.pid_lookup.specs.LookupRefusals.{lookup_refusal_number};

    /// 1 to 3, in the order above.
    pub fn number(&self) -> u8
        ensures { result ≡ lookup_refusal_number self.now }
    {
        match self {
            LookupRefusal::BadFlags => 1,
            LookupRefusal::Names(_) => 2,
            LookupRefusal::Memory => 3,
        }
    }
}

impl<F> From<AllocError> for LookupRefusal<F> {
    ghost from_gives = { λ _ e. e ≡ Memory };

    fn from(_error: AllocError) -> LookupRefusal<F> {
        LookupRefusal::Memory
    }
}

/// The text for the flags and the arguments, as it fits into a buffer of `size` bytes.
///
/// The low 16 bits of the flags say what is looked up, as libpci's `PCI_LOOKUP_VENDOR` and its kin
/// do; above these `PCI_LOOKUP_NUMERIC`, `PCI_LOOKUP_NO_NUMBERS` and `PCI_LOOKUP_MIXED` say how.
///
/// `BadFlags` comes exactly when the flags ask for numbers alone and for no numbers, or have an
/// unknown bit. `Names` is a fault of the holder, and comes only if a name must be asked for;
/// `Memory` comes if there is none for the answer. After an error, as after an answer, the
/// holder shows what it showed.
///
/// If the flags are good and a name must be asked for, an answer comes only of a holder that may
/// answer; of another its fault is all that comes.
pub fn lookup<N: Names>(
    alloc: Global,
    names: &mut N,
    flags: u32,
    args: &Args,
    size: u32,
) -> Result<Answer, LookupRefusal<N::Fault>>
    ensures answer { OfShown N.Names names.old names.new (λ s.
        IfOk result (λ answer. answer ≡ answer_of (N.map_of s) flags args.now size)) }
    ensures bad_flags { IsErrOf result LookupRefusal.BadFlags ↔ (is_bad flags ≡ true) }
    ensures asks { AsksWhereNeeded (N.may_give names.old) (N.may_tell names.old) flags result }
    ensures caused { HaveCauses N.Names names.old names.new
        (λ f. IsErrOf result (LookupRefusal.Names f)) }
    ensures kept { IsStill N.Names names.old names.new }
{
    let Some(flags) = read_flags(flags) else {
        return Err(LookupRefusal::BadFlags);
    };
    match flags.request {
        Some(request) => answer_request(alloc, names, request, flags.style, args, size),
        None => or_memory(answer_whole(alloc, b"<pci_lookup_name: invalid request>")),
    }
}

// An answer, if there was memory for it.
fn or_memory<F>(answer: Result<Answer, AllocError>) -> Result<Answer, LookupRefusal<F>>
    ensures { result ≡ in_memory answer }
{
    match answer {
        Ok(answer) => Ok(answer),
        Err(_) => Err(LookupRefusal::Memory),
    }
}

// A text that is answered whole.
fn answer_whole(alloc: Global, text: &[u8]) -> Result<Answer, AllocError>
    ensures { IfOk result (λ answer. answer ≡ Answer.Text text.now) }
{
    Ok(Answer::Text(AnswerText::of(Vec::from_slice(alloc, text)?)))
}

fn answer_request<N: Names>(
    alloc: Global,
    names: &mut N,
    request: Request,
    style: Style,
    args: &Args,
    size: u32,
) -> Result<Answer, LookupRefusal<N::Fault>>
    ensures answer { OfShown N.Names names.old names.new (λ s.
        IfOk result (λ answer. answer ≡ cut_answer
        (request_text (name_in_map (N.map_of s)) (switches style) request args.now) size)) }
    ensures good_flags { result ≢ Err LookupRefusal.BadFlags }
    ensures told { (switches style).numeric ≡ false → TellsOnlyIf (N.may_tell names.old) result }
    ensures unasked { (switches style).numeric ≡ true → (f : _)
        → result ≢ Err (LookupRefusal.Names f) }
    ensures fault { (f : _) → IsErrOf result (LookupRefusal.Names f) → N.may_give names.old f }
    ensures caused { HaveCauses N.Names names.old names.new
        (λ f. IsErrOf result (LookupRefusal.Names f)) }
    ensures kept { IsStill N.Names names.old names.new }
{
    match style {
        Style::Numeric => or_memory(show_number(alloc, request, args, size)),
        _ => match find(names, request, args) {
            Ok(found) => {
                let shown = show_found(alloc, style, request, args, &found, size);
                drop(found);
                or_memory(shown)
            }
            Err(fault) => Err(LookupRefusal::Names(fault)),
        },
    }
}

// The number alone.
fn show_number(
    alloc: Global,
    request: Request,
    args: &Args,
    size: u32,
) -> Result<Answer, AllocError>
    ensures { IfOk result (λ answer. answer
        ≡ Answer.Text (cut_text (request_number request args.now) size)) }
{
    let number = Digits::of(request, args);
    show_parts(alloc, &[number.as_bytes()], size)
}

// What was found.
fn show_found(
    alloc: Global,
    style: Style,
    request: Request,
    args: &Args,
    found: &Found,
    size: u32,
) -> Result<Answer, AllocError>
    ensures { IfOk result (λ answer. answer ≡ cut_answer (found_text (switches style)
        (request_number request args.now) (request_word request) found.now) size) }
{
    let number = Digits::of(request, args);
    match found_parts(style, number.as_bytes(), request.word(), found) {
        Some(parts) => show_parts(alloc, &parts.slices, size),
        None => Ok(Answer::NoAnswer),
    }
}

fn show_parts(alloc: Global, parts: &[&[u8]], size: u32) -> Result<Answer, AllocError>
    ensures { IfOk result (λ answer. answer
        ≡ Answer.Text (cut_text (flat_map (λ part. part.now) parts.now) size)) }
{
    Ok(Answer::Text(AnswerText::of(cut(alloc, parts, size)?)))
}
