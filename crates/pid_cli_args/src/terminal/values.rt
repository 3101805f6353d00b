//! Which values of the arguments break their rules.

use crate::job::{ImportArgs, LookupArgs};
use crate::terminal::write_parts;
use pid_ident::{is_account, is_key};

/// Says which values of a lookup break their rules.
pub fn explain_lookup(rt: &HostRuntime, words: &LookupArgs<'_>) {
    explain_digits(rt, "flags", Some(words.flags), (1, 8), "1 to 8 hex digits");
    explain_digits(rt, "size", words.size, (1, 9), "1 to 9 decimal digits");
    explain_ids(rt, words);
    explain_digits(rt, "progif", words.progif, (2, 2), "2 hex digits");
}

fn explain_ids(rt: &HostRuntime, words: &LookupArgs<'_>) {
    explain_digits(rt, "vendor", words.vendor, (4, 4), "4 hex digits");
    explain_digits(rt, "device", words.device, (4, 4), "4 hex digits");
    explain_digits(rt, "subvendor", words.subvendor, (4, 4), "4 hex digits");
    explain_digits(rt, "subdevice", words.subdevice, (4, 4), "4 hex digits");
    explain_digits(rt, "class", words.class, (4, 4), "4 hex digits");
}

fn explain_digits(
    rt: &HostRuntime,
    name: &str,
    value: Option<&str>,
    (least, most): (usize, usize),
    rule: &str,
) {
    let Some(value) = value else {
        return;
    };
    let is_hex = name != "size";
    if value.len() < least || value.len() > most || !are_digits(value, is_hex) {
        let is_marked = is_hex && matches!(value.as_bytes(), [b'0', b'x' | b'X', ..]);
        let hint = if is_marked { ", without 0x" } else { "" };
        explain(rt, name, rule, hint, value);
    }
}

fn are_digits(value: &str, is_hex: bool) -> bool {
    value.bytes().all(|it| it.is_ascii_digit() || is_hex && it.is_ascii_hexdigit())
}

/// Says whether the account or the key of an import breaks its rule.
pub fn explain_sender(rt: &HostRuntime, words: &ImportArgs<'_>) {
    if !is_account(words.account) {
        explain(rt, "account", ACCOUNT, "", words.account);
    }
    if let Some(key) = words.key {
        if !is_key(key) {
            explain(rt, "key", KEY, "", key);
        }
    }
}

const ACCOUNT: &str = "1 to 32 of a to z, 0 to 9 and -";

const KEY: &str = "1 to 64 visible ASCII characters";

fn explain(rt: &HostRuntime, name: &str, rule: &str, hint: &str, value: &str) {
    write_parts(
        rt,
        &[
            "pciids: --",
            name,
            " takes ",
            rule,
            hint,
            ": not '",
            value,
            "'\n",
        ],
    );
}
