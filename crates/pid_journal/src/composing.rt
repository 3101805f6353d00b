//! The entry of a command: a comment, and below it the line that a script obeys.
use form_urlencoded::Serializer;
use pid_ident::PathText;
use pid_moderation::{Act, Command, Expected, Proposal, Status, Verb};
use std::alloc::{AllocError, Global};

fn verb_of(act: &Act) -> Verb {
    match act {
        Act::Account { .. } => Verb::Account,
        Act::Submit { .. } => Verb::Submit,
        Act::Comment { .. } => Verb::Comment,
        Act::Withdraw { .. } => Verb::Withdraw,
        Act::Approve { expected, .. } => match expected {
            Expected::Anything => Verb::Approve,
            Expected::Absent => Verb::Confirm,
            Expected::Named(_) => Verb::Confirm,
        },
        Act::Reject { .. } => Verb::Reject,
        Act::Import { .. } => Verb::Import,
    }
}

fn put_number(form: &mut Serializer, alloc: Global, number: u32) -> Result<(), AllocError> {
    let digits = format!(in alloc; "{number}")?;
    form.append_pair("num", digits.as_str())
}

fn put_proposal(form: &mut Serializer, proposal: &Proposal) -> Result<(), AllocError> {
    match proposal {
        Proposal::Name(name) => form.append_pair("name", name.as_str()),
        Proposal::Removal => form.append_pair("remove", "yes"),
    }
}

fn put_expected(form: &mut Serializer, expected: &Expected) -> Result<(), AllocError> {
    match expected {
        Expected::Anything => Ok(()),
        Expected::Absent => form.append_pair("was", ""),
        Expected::Named(name) => form.append_pair("was", name.as_str()),
    }
}

// A file that is not UTF-8 has no text, so that its field is empty.
fn put_file(form: &mut Serializer, bytes: &[u8]) -> Result<(), AllocError> {
    match str::from_utf8(bytes) {
        Ok(text) => form.append_pair("file", text),
        Err(_) => form.append_pair("file", ""),
    }
}

fn put_act(form: &mut Serializer, alloc: Global, act: &Act) -> Result<(), AllocError> {
    match act {
        Act::Account { who, rank } => {
            form.append_pair("who", who.as_str())?;
            let digits = format!(in alloc; "{}", rank.number())?;
            form.append_pair("rank", digits.as_str())
        }
        Act::Submit {
            path,
            proposal,
            note,
        } => {
            let text = path.path_text(alloc)?;
            form.append_pair("path", text.as_str())?;
            put_proposal(form, proposal)?;
            form.append_pair("note", note.as_str())
        }
        Act::Comment { number, text } => {
            put_number(form, alloc, *number)?;
            form.append_pair("text", text.as_str())
        }
        Act::Withdraw { number } => put_number(form, alloc, *number),
        Act::Approve { number, expected } => {
            put_number(form, alloc, *number)?;
            put_expected(form, expected)
        }
        Act::Reject { number, reason } => {
            put_number(form, alloc, *number)?;
            form.append_pair("reason", reason.as_str())
        }
        Act::Import { file } => put_file(form, file.as_bytes()),
    }
}

fn form_of(alloc: Global, command: &Command) -> Result<String, AllocError> {
    let mut form = Serializer::new(String::new(alloc));
    put_act(&mut form, alloc, &command.act)?;
    if let Some(key) = &command.key {
        form.append_pair("key", key.as_str())?;
    }
    Ok(form.finish())
}

fn counts_text(alloc: Global, status: &Status) -> Result<String, AllocError> {
    let revision = status.revision;
    let accounts = status.accounts;
    let items = status.items;
    let submissions = status.submissions;
    let rest = format!(in alloc; "accounts={accounts}&items={items}&submissions={submissions}")?;
    format!(in alloc; "revision={revision}&{rest}")
}

// The comment, and its LF.
fn comment_of(alloc: Global, seconds: u64, status: &Status) -> Result<String, AllocError> {
    let counts = counts_text(alloc, status)?;
    format!(in alloc; "# time={seconds}&{counts}\n")
}

/// The mark below the entry of a command that has ended: a comment with what the registry holds
/// then, and an empty line.
pub fn compose_mark(alloc: Global, status: &Status) -> Result<String, AllocError> {
    let counts = counts_text(alloc, status)?;
    format!(in alloc; "# ended&{counts}\n\n")
}

/// The entry of a command: a comment with the time, in seconds since the beginning of 1970, and
/// what the registry holds before the command; and the line of the command.
pub fn compose(
    alloc: Global,
    seconds: u64,
    status: &Status,
    command: &Command,
) -> Result<String, AllocError> {
    let form = form_of(alloc, command)?;
    let word = verb_of(&command.act).word();
    let account = command.account.as_str();
    let mut entry = comment_of(alloc, seconds, status)?;
    entry.push_str(word)?;
    entry.push_str(" ")?;
    entry.push_str(account)?;
    entry.push_str(" ")?;
    entry.push_str(form.as_str())?;
    entry.push_str("\n")?;
    Ok(entry)
}
