//! Readers and writers that fail under worked scripts.
use crate::script::running::{
    FIRST_NAME, IMPORTS, PARENT_FIRST, REFUSALS, TURNS, run_and_ask, script_and_replies,
};
use pid_doubles::{FaultyInput, FaultyOutput};
use pid_ident::WriteFault;
use pid_script::ScriptEnd;
use std::alloc::Global;
use std::process::Abort;
use std::test::Fail;

// The first lines of a text.
fn first_lines(text: &str, count: usize) -> &str {
    let mut rest = text;
    for _ in 0..count {
        match rest.split_once('\n') {
            Some((_, behind)) => rest = behind,
            None => rest = "",
        }
    }
    text.strip_suffix(rest).unwrap_or(text)
}

fn lines_in(text: &[u8]) -> usize {
    let mut lines = 0usize;
    for byte in text {
        if *byte == b'\n' {
            lines = lines.saturating_add(1);
        }
    }
    lines
}

const WITHOUT: &str = "# PCI ID registry\n";

const WITH: &str = "# PCI ID registry\n8086  Intel Corporation\n";

// Whether after so many good reads of seven bytes the whole lines that came are answered, and what
// was answered stands. The fourth line is the approval.
fn answers_what_came(
    alloc: Global,
    script: &str,
    replies: &str,
    good: usize,
) -> Result<bool, Fail> {
    let came = &script.as_bytes()[..good.saturating_mul(7).min(script.len())];
    let lines = lines_in(came);
    let mut input = FaultyInput::new(script.as_bytes(), 7).failing_after(good as u64);
    let mut output = FaultyOutput::new(alloc, 64);
    let mut told = FaultyOutput::new(alloc, 4_096);
    let end = run_and_ask(
        alloc,
        &mut input,
        &mut output,
        TURNS,
        b"export\n",
        &mut told,
    )?;
    let text = if lines < 4 { WITHOUT } else { WITH };
    Ok(
        end == ScriptEnd::ReadFault
            && output.taken.as_slice() == first_lines(replies, lines).as_bytes()
            && told.taken.as_slice() == text.as_bytes(),
    )
}

// Reads of so many bytes, of which each one fails in turn.
#[test]
fn each_read_fails(rt: HostRuntime) -> Result<(), Fail> {
    let (script, replies) = script_and_replies(rt.alloc(), FIRST_NAME)?;
    let (script, replies) = (script.as_str(), replies.as_str());
    for good in 0..script.len().div_ceil(7) {
        assert!(rt;
            answers_what_came(rt.alloc(), script, replies, good)?,
            "{good}"
        );
    }
    Ok(())
}

// Whether a writer that takes a byte a call, and fails after so many, took the first replies, and
// the registry then answers so.
fn is_broken(
    alloc: Global,
    script: &str,
    most: usize,
    fault: WriteFault,
    taken: &[u8],
    asked: (&[u8], &[u8]),
) -> Result<bool, Fail> {
    let mut input = FaultyInput::new(script.as_bytes(), most);
    let mut output = FaultyOutput::new(alloc, 1).failing_after(taken.len() as u64, fault);
    let mut told = FaultyOutput::new(alloc, 4_096);
    let end = run_and_ask(alloc, &mut input, &mut output, TURNS, asked.0, &mut told)?;
    Ok(
        end == ScriptEnd::WriteFault
            && output.taken.as_slice() == taken
            && told.taken.as_slice() == asked.1,
    )
}

fn expect_broken(
    rt: &impl Abort,
    alloc: Global,
    rows: &str,
    fault: WriteFault,
) -> Result<(), Fail> {
    let (script, replies) = script_and_replies(alloc, rows)?;
    for good in 0..replies.len() {
        let taken = &replies.as_bytes()[..good];
        let script = script.as_str();
        assert!(rt;
            is_broken(alloc, script, 50, fault, taken, (b"", b""))?,
            "{good}"
        );
    }
    Ok(())
}

fn expect_all_broken(rt: &impl Abort, alloc: Global, fault: WriteFault) -> Result<(), Fail> {
    for rows in [FIRST_NAME, PARENT_FIRST, IMPORTS, REFUSALS] {
        expect_broken(rt, alloc, rows, fault)?;
    }
    Ok(())
}

#[test]
fn each_write_fails(rt: HostRuntime) -> Result<(), Fail> {
    expect_all_broken(&rt, rt.alloc(), WriteFault::Device)
}

#[test]
fn each_write_takes_nothing(rt: HostRuntime) -> Result<(), Fail> {
    expect_all_broken(&rt, rt.alloc(), WriteFault::Zero)
}

// What shows that the account of the first line, the submission of the second and the approval of
// the fourth stand: the lines that are asked after so many replies, and what they are answered.
fn shown(answered: usize) -> (&'static [u8], &'static [u8]) {
    match answered {
        0 => (b"", b""),
        1 => (
            b"account root who=alice&rank=0\n",
            b"refused 13 NothingToDo\n",
        ),
        2 | 3 => (
            b"account root who=alice&rank=0\ncomment root num=1&text=there\n",
            b"refused 13 NothingToDo\nok\n",
        ),
        _ => (
            b"account root who=alice&rank=0\ncomment root num=1&text=there\nread path=PC/8086\n",
            b"refused 13 NothingToDo\nok\nname Intel Corporation\n",
        ),
    }
}

// What was answered stands, whatever the writer did after it, and by whichever fault it did.
#[test]
fn answered_commands_stand(rt: HostRuntime) -> Result<(), Fail> {
    let (script, replies) = script_and_replies(rt.alloc(), FIRST_NAME)?;
    for good in 0..replies.len() {
        let (script, taken) = (script.as_str(), &replies.as_bytes()[..good]);
        for fault in [WriteFault::Zero, WriteFault::Device] {
            let asked = shown(lines_in(taken));
            assert!(rt;
                is_broken(rt.alloc(), script, 64, fault, taken, asked)?,
                "{good}"
            );
        }
    }
    Ok(())
}
