//! The command that a request makes.
ghost use Rattle.std.specs.Prelude.{◌≡◌, ◌≢◌, nat_lt, length, IfOk, IfErr, Ok, Err};
ghost use Rattle.form_urlencoded.specs.Form.{raw_pairs as pairs_in};
ghost use Rattle.pid_http.specs.Api.Commands.{command_made};
ghost use Rattle.pid_http.specs.Api.Senders.{sending_of};

use crate::api::sender::Sender;
use crate::api::text::text_of;
use form_urlencoded::raw_pairs;
use pid_form::fields_of;
use pid_moderation::{Command, Refusal, Verb, command_of};
use std::alloc::Global;

// The most fields that a command has.
const MOST_FIELDS: usize = 3;

// Whether a form has more fields than any command: then none of them is decoded.
fn has_too_many_fields(form: &str) -> bool
    ensures { result ≡ nat_lt MOST_FIELDS (length (pairs_in form.now)) }
{
    raw_pairs(form.as_bytes()).nth(MOST_FIELDS).is_some()
}

/// The command of a sender that the form in a body makes, or the first check that fails: that of
/// the text, and then those of the form. It is also refused if memory runs out.
#[tactic(auto, unfolding(crate::specs::Api::Commands::command_made))]
pub fn command_in(
    alloc: Global,
    verb: Verb,
    sender: Sender,
    body: &[u8],
) -> Result<Command, Refusal>
    ensures ok { IfOk result (λ command. command_made verb (sending_of sender.entry) body.now
        ≡ Ok command) }
    ensures err { IfErr result (λ refusal. refusal ≢ Refusal.Memory
        → command_made verb (sending_of sender.entry) body.now
        ≡ Err refusal) }
{
    let Some(form) = text_of(body) else {
        return Err(Refusal::BadText);
    };
    if has_too_many_fields(form) {
        return Err(Refusal::BadText);
    }
    let fields = fields_of(alloc, form)?;
    command_of(alloc, verb, sender.account, sender.key, &fields)
}
