//! What the rows of these tests ask of a registry, and what it answers, as one line.
//!
//! A row is a command, as `comment alice num=1&text=seen`, where the key of a caller is before a
//! slash; or `import`, the caller and the file, which comes whole, or in chunks with `slowly`; or a
//! question: `export`, `submission` and `pending` with a number, `changes` with a revision, `lookup`
//! with its fields. In a row `;` ends a line of a file and `>` is a tab.
use crate::service::rows::{command_in, fields_of};
use pid_doubles::{FaultyInput, FaultyOutput};
use pid_ident::{Account, Input, Key, Path, PathText};
use pid_lookup::{Answer, LookupRefusal, args_of};
use pid_moderation::{
    Changes, Discussion, Pending, Proposal, Refusal, Reply, State, Submission, reply_line,
};
use pid_service::{ExportFault, ImportEnd, Registry, RegistryCalls, RegistryQueries, open};
use pid_tables::WritableDatabase;
use sqlite::{Connection, MemStore};
use std::alloc::Global;
use std::process::Abort;
use std::test::Fail;

// A connection within a transaction is refused too.
pub(crate) fn opened<C: WritableDatabase + Drop>(
    alloc: Global,
    conn: C,
) -> Result<Registry<C>, Fail> {
    match open(alloc, conn) {
        Ok(registry) => Ok(registry),
        Err((fault, _)) => Err(Fail::from(fault)),
    }
}

// A new registry in memory.
pub(crate) fn new_in_memory(alloc: Global) -> Result<Registry<Connection<MemStore>>, Fail> {
    opened(alloc, Connection::open_in_memory(alloc)?)
}

pub(crate) fn expect_line(rt: &impl Abort, found: &str, expected: &str, at: &str) {
    assert_eq!(rt; found, expected, "at {at}");
}

pub(crate) fn owned(alloc: Global, text: &str) -> Result<String, Fail> {
    Ok(String::from_str(alloc, text)?)
}

// The first word of a row, and what follows it.
pub(crate) fn first_word(row: &str) -> (&str, &str) {
    row.split_once(' ').unwrap_or((row, ""))
}

// What a row asks, and what is answered.
pub(crate) fn halves(row: &str) -> Result<(&str, &str), Fail> {
    match row.split_once(" | ") {
        Some(halves) => Ok(halves),
        None => Err(Fail::new("a row without an answer")),
    }
}

// The text with two other letters in place of two letters.
fn with_letters(
    alloc: Global,
    text: &str,
    from: (char, char),
    to: (char, char),
) -> Result<String, Fail> {
    let mut written = String::new(alloc);
    for letter in text.chars() {
        written.push(if letter == from.0 {
            to.0
        } else if letter == from.1 {
            to.1
        } else {
            letter
        })?;
    }
    Ok(written)
}

// Who sends a file, and the file.
fn sent(row: &str) -> Result<(&str, &str), Fail> {
    match row.split_once(' ') {
        Some(sent) => Ok(sent),
        None => Err(Fail::new("a row without a file")),
    }
}

// The bytes of a file that a row writes on one line.
fn file_of(alloc: Global, row: &str) -> Result<String, Fail> {
    with_letters(alloc, row, (';', '>'), ('\n', '\t'))
}

// The caller of an import: an account, and a key before a slash.
fn caller_of(alloc: Global, caller: &str) -> Result<(Account, Option<Key>), Fail> {
    let Some((key, account)) = caller.split_once('/') else {
        return Ok((Account::of(alloc, caller)?, None));
    };
    Ok((Account::of(alloc, account)?, Some(Key::of(alloc, key)?)))
}

pub(crate) fn line_of(alloc: Global, outcome: Result<Reply, Refusal>) -> Result<String, Fail> {
    let line = reply_line(alloc, outcome)?;
    owned(alloc, line.as_str().trim_end())
}

fn refused(alloc: Global, refusal: Refusal) -> Result<String, Fail> {
    line_of(alloc, Err(refusal))
}

// What the import of a whole file is answered.
fn imported<C: WritableDatabase + Drop>(
    registry: &mut Registry<C>,
    alloc: Global,
    caller: &str,
    file: &[u8],
) -> Result<String, Fail> {
    let (account, key) = caller_of(alloc, caller)?;
    line_of(alloc, registry.import(account, key, file))
}

// What an import is answered whose file comes in chunks.
pub(crate) fn imported_from<C: WritableDatabase + Drop, I: Input>(
    registry: &mut Registry<C>,
    alloc: Global,
    caller: &str,
    input: &mut I,
) -> Result<String, Fail> {
    let (account, key) = caller_of(alloc, caller)?;
    match registry.import_from(account, key, input) {
        Ok(reply) => line_of(alloc, Ok(reply)),
        Err(ImportEnd::Refused(refusal)) => refused(alloc, refusal),
        Err(ImportEnd::Body) => owned(alloc, "body"),
    }
}

fn import<C: WritableDatabase + Drop>(
    registry: &mut Registry<C>,
    alloc: Global,
    rest: &str,
) -> Result<String, Fail> {
    let (caller, file) = sent(rest)?;
    let file = file_of(alloc, file)?;
    imported(registry, alloc, caller, file.as_bytes())
}

// An import whose file comes in chunks of at most seven bytes.
fn slowly<C: WritableDatabase + Drop>(
    registry: &mut Registry<C>,
    alloc: Global,
    rest: &str,
) -> Result<String, Fail> {
    let (caller, file) = sent(rest)?;
    let file = file_of(alloc, file)?;
    let mut input = FaultyInput::new(file.as_bytes(), 7);
    imported_from(registry, alloc, caller, &mut input)
}

fn obey<C: WritableDatabase + Drop>(
    registry: &mut Registry<C>,
    alloc: Global,
    row: &str,
) -> Result<String, Fail> {
    match command_in(alloc, row)? {
        Ok(command) => line_of(alloc, registry.obey(command)),
        Err(refusal) => refused(alloc, refusal),
    }
}

fn export<C: WritableDatabase + Drop>(
    registry: &mut Registry<C>,
    alloc: Global,
) -> Result<String, Fail> {
    let mut output = FaultyOutput::new(alloc, 4_096);
    match registry.export(&mut output) {
        Ok(()) => {
            let text = str::from_utf8(output.taken.as_slice()).unwrap_or("not UTF-8");
            with_letters(alloc, text, ('\n', '\t'), (';', '>'))
        }
        Err(ExportFault::Refused(refusal)) => refused(alloc, refusal),
        Err(ExportFault::Write(_)) => Err(Fail::new("a write fault")),
    }
}

// An item, after the text that comes before it.
fn item_line(alloc: Global, before: &str, path: Path, name: &str) -> Result<String, Fail> {
    let path = path.path_text(alloc)?;
    Ok(format!(in alloc; "{before}{} {name};", path.as_str())?)
}

fn proposed(proposal: &Proposal) -> &str {
    match proposal {
        Proposal::Name(name) => name.as_str(),
        Proposal::Removal => "remove",
    }
}

fn pending_line(alloc: Global, found: &Pending) -> Result<String, Fail> {
    let submission = &found.submission;
    let before = format!(in alloc; "{} {} ", found.number, submission.author.as_str())?;
    let name = proposed(&submission.proposal);
    item_line(alloc, before.as_str(), submission.path, name)
}

fn pending<C: WritableDatabase + Drop>(
    registry: &mut Registry<C>,
    alloc: Global,
    after: &str,
) -> Result<String, Fail> {
    let page = match registry.pending(after.parse::<u32>()?) {
        Ok(page) => page,
        Err(refusal) => return refused(alloc, refusal),
    };
    let mut told = String::new(alloc);
    for pending in &page {
        told.push_str(pending_line(alloc, pending)?.as_str())?;
    }
    Ok(told)
}

fn state_line(alloc: Global, state: &State) -> Result<String, Fail> {
    match state {
        State::Pending => owned(alloc, "pending"),
        State::Approved { decider } => {
            Ok(format!(in alloc; "approved by {}", decider.as_str())?)
        }
        State::Rejected { decider, reason } => {
            let decider = decider.as_str();
            Ok(format!(in alloc; "rejected by {decider}: {}", reason.as_str())?)
        }
        State::Withdrawn => owned(alloc, "withdrawn"),
    }
}

fn submission_line(alloc: Global, found: &Submission) -> Result<String, Fail> {
    let before = format!(in alloc; "{} ", found.author.as_str())?;
    let name = proposed(&found.proposal);
    let item = item_line(alloc, before.as_str(), found.path, name)?;
    let state = state_line(alloc, &found.state)?;
    Ok(format!(in alloc; "{}{}", item.as_str(), state.as_str())?)
}

fn discussion_line(alloc: Global, found: &Discussion) -> Result<String, Fail> {
    let mut told = submission_line(alloc, &found.submission)?;
    for remark in &found.remarks {
        let author = remark.author.as_str();
        told.push_str(format!(in alloc; ";{author} {}", remark.text.as_str())?.as_str())?;
    }
    Ok(told)
}

fn submission<C: WritableDatabase + Drop>(
    registry: &mut Registry<C>,
    alloc: Global,
    number: &str,
) -> Result<String, Fail> {
    match registry.submission(number.parse::<u32>()?) {
        Ok(found) => discussion_line(alloc, &found),
        Err(refusal) => refused(alloc, refusal),
    }
}

fn changes_line(alloc: Global, found: &Changes) -> Result<String, Fail> {
    let mut told = format!(in alloc; "revision {};", found.revision)?;
    for item in &found.items {
        let since = format!(in alloc; "{} ", item.since)?;
        let line = item_line(alloc, since.as_str(), item.path, item.name.as_str())?;
        told.push_str(line.as_str())?;
    }
    Ok(told)
}

// The revision, and the items that were named after a revision.
fn changes<C: WritableDatabase + Drop>(
    registry: &mut Registry<C>,
    alloc: Global,
    since: &str,
) -> Result<String, Fail> {
    match registry.changes(since.parse::<u64>()?, None) {
        Ok(found) => changes_line(alloc, &found),
        Err(refusal) => refused(alloc, refusal),
    }
}

fn lookup<C: WritableDatabase + Drop>(
    registry: &mut Registry<C>,
    alloc: Global,
    fields: &str,
) -> Result<String, Fail> {
    let fields = fields_of(alloc, fields)?;
    let (flags, args, size) = args_of(fields.as_slice())?;
    match registry.lookup(flags, &args, size) {
        Ok(Answer::Text(text)) => {
            owned(
                alloc,
                str::from_utf8(text.as_bytes()).unwrap_or("not UTF-8"),
            )
        }
        Ok(Answer::NoAnswer) => owned(alloc, "none"),
        Err(LookupRefusal::BadFlags) => owned(alloc, "bad flags"),
        Err(LookupRefusal::Memory) => refused(alloc, Refusal::Memory),
        Err(LookupRefusal::Names(refusal)) => refused(alloc, refusal),
    }
}

// What the registry answers to a row.
pub(crate) fn told<C: WritableDatabase + Drop>(
    registry: &mut Registry<C>,
    alloc: Global,
    row: &str,
) -> Result<String, Fail> {
    let (verb, rest) = first_word(row);
    match verb {
        "import" => import(registry, alloc, rest),
        "slowly" => slowly(registry, alloc, rest),
        "export" => export(registry, alloc),
        "pending" => pending(registry, alloc, rest),
        "submission" => submission(registry, alloc, rest),
        "lookup" => lookup(registry, alloc, rest),
        "changes" => changes(registry, alloc, rest),
        _ => obey(registry, alloc, row),
    }
}

// Asserts what the registry answers to a row.
pub(crate) fn expect_answer<C: WritableDatabase + Drop>(
    rt: &impl Abort,
    alloc: Global,
    registry: &mut Registry<C>,
    asked: &str,
    expected: &str,
) -> Result<(), Fail> {
    let line = told(registry, alloc, asked)?;
    expect_line(rt, line.as_str(), expected, asked);
    Ok(())
}

// The same, row by row.
pub(crate) fn expect_told<C: WritableDatabase + Drop>(
    rt: &impl Abort,
    alloc: Global,
    registry: &mut Registry<C>,
    rows: &str,
) -> Result<(), Fail> {
    for row in rows.lines() {
        let (asked, expected) = halves(row)?;
        expect_answer(rt, alloc, registry, asked, expected)?;
    }
    Ok(())
}
