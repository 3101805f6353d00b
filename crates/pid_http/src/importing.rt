//! Imports, whose file is the body of the request, read as it comes.
ghost use Rattle.std.specs.Prelude.{◌≡◌, Err, IfSome, option_copied};
ghost use Rattle.pid_moderation.specs.Files.{file_reading};
ghost use Rattle.pid_moderation.specs.BeforeFile.{import_of};
ghost use Rattle.pid_http_stream.specs.Replies.{Answer};
ghost use Rattle.pid_http.specs.Api.Outcomes.{outcome_answer};
ghost use Rattle.pid_http.specs.Api.Replying.{MakesReply};
ghost use Rattle.pid_http.specs.Api.Senders.{sending_in};
ghost use Rattle.pid_http.specs.Answering as meanings;
ghost use Rattle.pid_http.specs.Answering.{import_meaning};
ghost use Rattle.pid_http.specs.Steps.Replying.{AnswersAfter, RepliesToFile};

use crate::api::{Format, Sender, outcome_reply, refusal_reply};
use pid_http_stream::{HttpReply, LONGEST_BODY, NoReply};
use pid_ident::{Account, Input, Key};
use pid_moderation::Refusal;
use pid_reader::skip_input;
use pid_service_laws::{ImportEnd, RegistryQueries};
use std::alloc::{AllocError, Global};

// The reply, if there was memory for it.
fn made(reply: Result<HttpReply, AllocError>) -> Result<HttpReply, NoReply>
    ensures { (given : Answer) → MakesReply reply given → MakesReply result given }
{
    match reply {
        Ok(reply) => Ok(reply),
        Err(_) => Err(NoReply),
    }
}

// Refuses an import: what is left of its file is read to its end.
fn refuse<B: Input>(
    alloc: Global,
    format: Format,
    refusal: Refusal,
    body: &mut B,
) -> Result<HttpReply, NoReply>
    ensures { AnswersAfter B.Input body.old body.new (outcome_answer format (Err refusal)) result }
{
    match skip_input(LONGEST_BODY, body) {
        Ok(()) => made(refusal_reply(alloc, format, refusal)),
        Err(_) => Err(NoReply),
    }
}

// Has an import obeyed.
fn take_in<R: RegistryQueries, B: Input>(
    alloc: Global,
    registry: &mut R,
    format: Format,
    account: Account,
    key: Option<Key>,
    body: &mut B,
) -> Result<HttpReply, NoReply>
    ensures { RepliesToFile R.RegistryCalls B.Input registry.old registry.new body.old body.new
        (λ file. meanings.Obeys (import_of account key (file_reading file)) format) result }
{
    match registry.import_from(account, key, body) {
        Ok(reply) => made(outcome_reply(alloc, format, Ok(reply))),
        Err(ImportEnd::Refused(refusal)) => refuse(alloc, format, refusal, body),
        Err(ImportEnd::Body) => Err(NoReply),
    }
}

// The account and the key of a sender; none if there is no memory for them.
fn owner_of(alloc: Global, sender: Sender<'_>) -> Option<(Account, Option<Key>)>
    ensures { IfSome result (λ owner. (owner.0 ≡ sender.entry.account.now)
        × (owner.1 ≡ option_copied sender.entry.key)) }
{
    let Ok(account) = Account::of(alloc, sender.account) else {
        return None;
    };
    match sender.key {
        None => Some((account, None)),
        Some(text) => match Key::of(alloc, text) {
            Ok(key) => Some((account, Some(key))),
            Err(_) => None,
        },
    }
}

/// Has an import obeyed whose file is the body. The sender is judged first, but a refusal is
/// answered only after the body.
pub(crate) fn import<R: RegistryQueries, B: Input>(
    alloc: Global,
    registry: &mut R,
    format: Format,
    sender: Option<Sender<'_>>,
    body: &mut B,
) -> Result<HttpReply, NoReply>
    ensures { RepliesToFile R.RegistryCalls B.Input registry.old registry.new body.old body.new
        (import_meaning format (sending_in sender.entry)) result }
{
    match sender {
        None => refuse(alloc, format, Refusal::BadText, body),
        Some(sender) => match owner_of(alloc, sender) {
            None => refuse(alloc, format, Refusal::Memory, body),
            Some((account, key)) => take_in(alloc, registry, format, account, key, body),
        },
    }
}
