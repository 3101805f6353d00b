//! What no program asks: a list of commands at once, and a command that its caller made.
use crate::service::asking::{expect_line, expect_told, halves, line_of, new_in_memory};
use crate::service::rows::command_in;
use pid_ident::Text;
use pid_moderation::{Act, Command, Refusal, Reply};
use pid_service::{Registry, RegistryCalls};
use pid_tables::WritableDatabase;
use std::alloc::Global;
use std::process::Abort;
use std::test::Fail;

const DEVICE: &str = "\
account root who=bob&rank=1 | ok
submit bob path=PC/8086/1237&name=440FX | ok 1
approve root num=1 | refused 11 ParentMissing
submit bob path=PC/8086&name=Intel | ok 2
approve root num=2 | ok
approve root num=1 | ok
";

const REFUSALS: &str = "\
account root who=alice&rank=0 | ok
submit root path=PC/10ec&name=Realtek | ok 1
approve root num=1 | refused 10 OwnDecision
withdraw alice num=1 | refused 9 NotAuthor
comment alice num=1&text=seen | ok
account root who=root&rank=2 | refused 10 OwnDecision
account root who=alice&rank=0 | refused 13 NothingToDo
submit carol path=PC/10ec&name=X | refused 4 NoAccount
approve root num=2 | refused 7 NoSubmission
withdraw root num=1 | ok
withdraw root num=1 | refused 8 NotPending
withdraw alice num=1 | refused 9 NotAuthor
reject alice num=1&reason=no | refused 8 NotPending
";

// A rejection without a reason, or an empty comment, under a key that is used.
fn empty(alloc: Global, is_comment: bool) -> Result<Command, Fail> {
    let mut command = command_in(alloc, "reject k1/root num=1&reason=no")??;
    let (number, text) = (1, Text::of(alloc, "")?);
    command.act = if is_comment {
        Act::Comment { number, text }
    } else {
        Act::Reject {
            number,
            reason: text,
        }
    };
    Ok(command)
}

const KEPT: &str = "\
account k1/root who=bob&rank=2 | ok
submit root path=PC/8086&name=a | ok 1
";

const STILL_KEPT: &str = "\
reject k1/root num=1&reason=no | ok
submission 1 | root PC/8086 a;pending
";

fn expect_texts<C: WritableDatabase + Drop>(
    rt: &impl Abort,
    alloc: Global,
    registry: &mut Registry<C>,
) -> Result<(), Fail> {
    expect_told(rt, alloc, registry, KEPT)?;
    for is_comment in [false, true] {
        let outcome = registry.obey(empty(alloc, is_comment)?);
        assert!(rt; matches!(outcome, Err(Refusal::BadText)));
    }
    expect_told(rt, alloc, registry, STILL_KEPT)
}

// What breaks a rule of form is refused before the reply that is kept, whoever made the command.
#[test]
fn empty_texts_are_refused(rt: HostRuntime) -> Result<(), Fail> {
    let mut registry = new_in_memory(rt.alloc())?;
    expect_texts(&rt, rt.alloc(), &mut registry)
}

// The commands of a run.
fn commands_of(alloc: Global, rows: &str) -> Result<Vec<Command>, Fail> {
    let mut commands = Vec::new(alloc);
    for row in rows.lines() {
        commands.push(command_in(alloc, halves(row)?.0)??)?;
    }
    Ok(commands)
}

fn expect_reply(
    rt: &impl Abort,
    alloc: Global,
    reply: Result<Reply, Refusal>,
    row: &str,
) -> Result<(), Fail> {
    let line = line_of(alloc, reply)?;
    expect_line(rt, line.as_str(), halves(row)?.1, row);
    Ok(())
}

fn expect_replies(
    rt: &impl Abort,
    alloc: Global,
    replies: &[Result<Reply, Refusal>],
    rows: &str,
) -> Result<(), Fail> {
    let mut at: usize = 0;
    for row in rows.lines() {
        let reply = replies.get(at).copied().ok_or("a reply")?;
        expect_reply(rt, alloc, reply, row)?;
        at = at.saturating_add(1);
    }
    assert!(rt; at == replies.len());
    Ok(())
}

// The replies of one list are those of its rows.
fn expect_list<C: WritableDatabase + Drop>(
    rt: &impl Abort,
    alloc: Global,
    registry: &mut Registry<C>,
    rows: &str,
) -> Result<(), Fail> {
    let commands = commands_of(alloc, rows)?;
    let report = registry.run(commands.as_slice());
    assert!(rt; report.fault.is_none());
    expect_replies(rt, alloc, report.replies.as_slice(), rows)
}

// One list in place of single commands has the same replies.
#[test]
fn lists_are_obeyed(rt: HostRuntime) -> Result<(), Fail> {
    for run in [DEVICE, REFUSALS] {
        let mut registry = new_in_memory(rt.alloc())?;
        expect_list(&rt, rt.alloc(), &mut registry, run)?;
    }
    Ok(())
}
