//! Scripts in chunks of several sizes, and few of them. `tests/test_scripts.py` has the worked ones.
use crate::script::running::{FIRST_NAME, are_replies, run_and_ask, script_and_replies};
use pid_doubles::{FaultyInput, FaultyOutput};
use pid_script::ScriptEnd;
use std::test::Fail;

// However a script is cut into pieces, its replies are the same.
#[test]
fn cuts_make_no_difference(rt: HostRuntime) -> Result<(), Fail> {
    let alloc = rt.alloc();
    let (script, replies) = script_and_replies(alloc, FIRST_NAME)?;
    for most in 1..script.len() {
        assert!(rt;
            are_replies(alloc, script.as_bytes(), most, replies.as_bytes())?,
            "{most}"
        );
    }
    Ok(())
}

const SCRIPT: &[u8] =
    b"account root who=alice&rank=0\nsubmit alice path=PC/8086&name=Intel\nread path=PC/8086\nnone";

#[test]
fn turns_are_spent(rt: HostRuntime) -> Result<(), Fail> {
    let alloc = rt.alloc();
    let mut input = FaultyInput::new(SCRIPT, 40);
    let mut output = FaultyOutput::new(alloc, 100);
    let mut told = FaultyOutput::new(alloc, 1);
    let end = run_and_ask(alloc, &mut input, &mut output, 2, b"", &mut told)?;
    assert!(rt; end == ScriptEnd::TurnsSpent);
    assert!(rt; input.reads == 2 && output.taken.as_slice() == b"ok\nok 1\n".as_slice());
    Ok(())
}
