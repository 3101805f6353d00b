//! Faults of the journal's file.
use crate::journal::paper::{is_told, on_paper};
use pid_ident::{Account, LineKind};
use pid_moderation::{Act, Command, File, FileFault, Refusal};
use std::alloc::Global;
use std::process::Abort;
use std::test::Fail;

const FIRST: &[u8] = b"account root who=bob&rank=1\n";

const SECOND: &[u8] = b"submit bob path=PC/8086&name=Intel\nread path=PC/8086\n";

const READ: &[u8] = b"read path=PC/8086\n";

// The command is answered 17 and was not done, and nothing of its entry is left.
#[test]
fn an_entry_that_is_not_written_is_cut_off(rt: HostRuntime) -> Result<(), Fail> {
    let alloc = rt.alloc();
    let mut registry = on_paper(alloc, 1, true)?;
    assert!(rt; is_told(alloc, &mut registry, FIRST, b"ok\n")?);
    assert!(rt; is_told(alloc, &mut registry, SECOND, b"refused 17 Store\n")?);
    assert!(rt; is_told(alloc, &mut registry, READ, b"refused 25 NoItem\n")?);
    let (_, paper) = registry.into_parts();
    let ended = b"account root who=bob&rank=1\n\
        # ended&revision=1&accounts=2&items=0&submissions=0\n\n";
    assert!(rt; paper.bytes.as_slice().ends_with(ended));
    Ok(())
}

// From then on it has failed, as a registry whose commit failed.
#[test]
fn an_entry_that_stays_fails_the_registry(rt: HostRuntime) -> Result<(), Fail> {
    let alloc = rt.alloc();
    let mut registry = on_paper(alloc, 1, false)?;
    assert!(rt; is_told(alloc, &mut registry, FIRST, b"ok\n")?);
    assert!(rt; is_told(alloc, &mut registry, SECOND, b"refused 17 Store\n")?);
    for line in [
        "read path=PC/8086\n",
        "export\n",
        "lookup vendor=8086&flags=1\n",
        "withdraw bob num=1\n",
    ] {
        assert!(rt;
            is_told(
                alloc,
                &mut registry,
                line.as_bytes(),
                b"refused 18 Failed\n"
            )?
        );
    }
    Ok(())
}

pub(crate) fn root_of(alloc: Global) -> Result<Account, Fail> {
    match Account::of(alloc, "root") {
        Ok(account) => Ok(account),
        Err(_) => Err("root is an account")?,
    }
}

// No line of a script says such a file, and it is answered as without a journal.
#[test]
fn a_file_that_is_not_utf8_has_no_line(rt: HostRuntime) -> Result<(), Fail> {
    let alloc = rt.alloc();
    let mut registry = on_paper(alloc, 10, true)?;
    let mut bytes = Vec::new(alloc);
    bytes.extend_from_slice(b"8086  Intel\n8087  Intel\xff\n")?;
    let command = Command {
        account: root_of(alloc)?,
        key: None,
        act: Act::Import {
            file: File::new(bytes),
        },
    };
    let answer = registry.obey(command);
    assert!(rt;
        matches!(
            answer,
            Err(Refusal::FileFault(FileFault::Line {
                line: 2,
                kind: LineKind::NotUtf8
            }))
        )
    );
    assert!(rt; is_told(alloc, &mut registry, READ, b"refused 25 NoItem\n")?);
    let (_, paper) = registry.into_parts();
    assert!(rt; paper.bytes.is_empty());
    Ok(())
}
