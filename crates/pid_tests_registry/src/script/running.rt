//! Scripts on new registries in memory, as rows.
//!
//! A row is a line, ` | ` and its reply; a row without ` | ` has no reply, and a row that begins
//! with `+` is one more line of the reply before.
use pid_doubles::{FaultyInput, FaultyOutput};
use pid_script::{ScriptEnd, run_script};
use pid_service::{Registry, open};
use sqlite::{Connection, MemStore};
use std::alloc::Global;
use std::test::Fail;

/// More reads than any script of these tests takes.
pub(crate) const TURNS: u64 = 1_000_000;

fn new_in_memory(alloc: Global) -> Result<Registry<Connection<MemStore>>, Fail> {
    let conn = Connection::open_in_memory(alloc)?;
    if !conn.is_autocommit() {
        return Err("a transaction is left")?;
    }
    match open(alloc, conn) {
        Ok(registry) => Ok(registry),
        Err((_, _)) => Err("no registry")?,
    }
}

/// Runs a script on a new registry, and then these lines, whose output is taken too.
pub(crate) fn run_and_ask(
    alloc: Global,
    input: &mut FaultyInput<'_>,
    output: &mut FaultyOutput,
    turns: u64,
    asked: &[u8],
    told: &mut FaultyOutput,
) -> Result<ScriptEnd, Fail> {
    let mut registry = new_in_memory(alloc)?;
    let end = run_script(alloc, &mut registry, input, output, turns);
    let mut lines = FaultyInput::new(asked, 4_096);
    if run_script(alloc, &mut registry, &mut lines, told, TURNS) == ScriptEnd::Done {
        Ok(end)
    } else {
        Err("the registry answers")?
    }
}

// The lines of the rows, and their replies.
pub(crate) fn script_and_replies(alloc: Global, rows: &str) -> Result<(String, String), Fail> {
    let mut script = String::new(alloc);
    let mut replies = String::new(alloc);
    for row in rows.lines() {
        if let Some(more) = row.strip_prefix('+') {
            replies.push_str(more)?;
            replies.push_str("\n")?;
            continue;
        }
        match row.split_once(" | ") {
            Some((line, reply)) => {
                script.push_str(line)?;
                replies.push_str(reply)?;
                replies.push_str("\n")?;
            }
            None => script.push_str(row)?,
        }
        script.push_str("\n")?;
    }
    Ok((script, replies))
}

/// Whether a script that is read by so many bytes ends with these replies.
pub(crate) fn are_replies(
    alloc: Global,
    script: &[u8],
    most: usize,
    replies: &[u8],
) -> Result<bool, Fail> {
    let mut input = FaultyInput::new(script, most);
    let mut output = FaultyOutput::new(alloc, 65_536);
    let mut told = FaultyOutput::new(alloc, 1);
    let end = run_and_ask(alloc, &mut input, &mut output, TURNS, b"", &mut told)?;
    Ok(end == ScriptEnd::Done && output.taken.as_slice() == replies)
}

/// The first name of a registry.
pub(crate) const FIRST_NAME: &str = "\
account root who=alice&rank=0 | ok
submit alice path=PC/8086&name=Intel+Corporation | ok 1
approve alice num=1 | refused 5 RankTooLow
approve root num=1 | ok
export | # PCI ID registry
+8086  Intel Corporation
";

/// A device that waits for its vendor.
pub(crate) const PARENT_FIRST: &str = "\
account root who=bob&rank=1 | ok
submit bob path=PC/8086/1237&name=440FX | ok 1
approve root num=1 | refused 11 ParentMissing
submit bob path=PC/8086&name=Intel | ok 2
approve root num=2 | ok
approve root num=1 | ok
export | # PCI ID registry
+8086  Intel
+\t1237  440FX
";

pub(crate) const IMPORTS: &str = "\
import root key=k1&file=8086++Intel%0A | ok added=1 renamed=0 same=0
import root key=k1&file=8086++Intel%0A | ok added=1 renamed=0 same=0
import root file=8086++Intel%0A | ok added=0 renamed=0 same=1
import root file=8086++Intel+Corporation | ok added=0 renamed=1 same=0
import root key=k1&file=8086++Intel%0A | ok added=1 renamed=0 same=0
read path=PC/8086 | name Intel Corporation
";

pub(crate) const REFUSALS: &str = "\
account root who=alice&rank=0 | ok
submit root path=PC/10ec&name=Realtek | ok 1
approve root num=1 | refused 10 OwnDecision
withdraw alice num=1 | refused 9 NotAuthor
comment alice num=1&text=seen | ok
account root who=root&rank=2 | refused 10 OwnDecision
account root who=alice&rank=0 | refused 13 NothingToDo
submit carol path=PC/10ec&name=X | refused 4 NoAccount
approve root num=2 | refused 7 NoSubmission
withdraw root num=1 | ok
withdraw root num=1 | refused 8 NotPending
withdraw alice num=1 | refused 9 NotAuthor
reject alice num=1&reason=no | refused 8 NotPending
";
