//! Who sends a command.
ghost use Rattle.std.specs.Prelude.{◌≡◌};
ghost use Rattle.httparse.specs.Grammar.{RequestHead};
ghost use Rattle.pid_http_stream.specs.HeadParts.{IsHeadOf};
ghost use Rattle.pid_http_stream.specs.Requests.{fields_of};
ghost use Rattle.pid_http.specs.Api.Senders.{sender, sending_in};

use crate::api::text::text_of;
use pid_http_stream::Head;
use pid_ident::{is_account, is_key};

/// Who sends a command, and under which key.
#[derive(Clone, Copy)]
pub struct Sender<'a> {
    pub account: &'a str,
    pub key: Option<&'a str>,
}

/// The sender that a head names: X-Account once, and X-Key at most once, each of which keeps its
/// rule.
pub fn sender_of<'b>(head: &Head<'b>) -> Option<Sender<'b>>
    ensures { (h : RequestHead) → IsHeadOf head.now h
        → sender (fields_of h) ≡ sending_in result }
{
    if head.count_named(b"x-account") > 1 {
        return None;
    }
    if head.count_named(b"x-key") > 1 {
        return None;
    }
    let account = text_of(head.first_named(b"x-account")?)?;
    if !is_account(account) {
        return None;
    }
    let Some(key) = head.first_named(b"x-key") else {
        return Some(Sender { account, key: None });
    };
    let key = text_of(key)?;
    if !is_key(key) {
        return None;
    }
    Some(Sender {
        account,
        key: Some(key),
    })
}
