//! What rows are made of: a command is a line such as `comment alice num=1&text=seen`. And the
//! statements that make a registry of schema 1.
use pid_moderation::{Command, Refusal, Verb, command_of};
use std::alloc::Global;
use std::test::Fail;

// The statements that make a registry of schema 1 (docs/STORAGE.md): a vendor that alice submitted
// and root approved. tests/support/old_files.py takes the rows from here.
pub(crate) const OLDER: &str = "\
CREATE TABLE meta (label TEXT NOT NULL PRIMARY KEY, value INTEGER NOT NULL) STRICT;
CREATE TABLE account (name TEXT NOT NULL PRIMARY KEY, rank INTEGER NOT NULL CHECK (rank BETWEEN 0 AND 3)) STRICT;
CREATE TABLE item (path TEXT NOT NULL PRIMARY KEY, name TEXT NOT NULL) STRICT;
CREATE TABLE submission (num INTEGER NOT NULL PRIMARY KEY, author TEXT NOT NULL REFERENCES account(name),
    path TEXT NOT NULL, form INTEGER NOT NULL CHECK (form BETWEEN 0 AND 1), name TEXT NOT NULL, note TEXT NOT NULL,
    state INTEGER NOT NULL CHECK (state BETWEEN 0 AND 3), decider TEXT NOT NULL, reason TEXT NOT NULL) STRICT;
CREATE TABLE remark (num INTEGER NOT NULL REFERENCES submission(num), seq INTEGER NOT NULL,
    author TEXT NOT NULL REFERENCES account(name), body TEXT NOT NULL, PRIMARY KEY (num, seq)) STRICT;
CREATE TABLE receipt (account TEXT NOT NULL REFERENCES account(name), token TEXT NOT NULL, kind INTEGER NOT NULL,
    a INTEGER NOT NULL, b INTEGER NOT NULL, c INTEGER NOT NULL, PRIMARY KEY (account, token)) STRICT;
INSERT INTO meta VALUES ('schema', 1), ('items', 1), ('submissions', 1);
INSERT INTO account VALUES ('alice', 0), ('root', 3);
INSERT INTO item VALUES ('PC/8086', 'Intel Corporation');
INSERT INTO submission VALUES (1, 'alice', 'PC/8086', 0, 'Intel Corporation', '', 1, 'root', '');
";

// The fields of a row such as `num=1&text=seen`, which may be empty.
pub(crate) fn fields_of(alloc: Global, row: &str) -> Result<Vec<(String, String)>, Fail> {
    let mut fields = Vec::new(alloc);
    for pair in row.split('&') {
        if let Some((name, value)) = pair.split_once('=') {
            fields.push((
                String::from_str(alloc, name)?,
                String::from_str(alloc, value)?,
            ))?;
        }
    }
    Ok(fields)
}

// The command of a row. The key of a caller comes before a slash, as in `k1/alice`.
pub(crate) fn command_in(alloc: Global, row: &str) -> Result<Result<Command, Refusal>, Fail> {
    let (verb, rest) = row.split_once(' ').ok_or("a verb")?;
    let (caller, fields) = rest.split_once(' ').ok_or("an account")?;
    let verb = Verb::of_word(verb).ok_or("a verb")?;
    let fields = fields_of(alloc, fields)?;
    let (key, account) = match caller.split_once('/') {
        Some((key, account)) => (Some(key), account),
        None => (None, caller),
    };
    Ok(command_of(alloc, verb, account, key, fields.as_slice()))
}
