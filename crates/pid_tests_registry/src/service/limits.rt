//! A limit that no test can reach by commands.
use crate::service::rows::command_in;
use pid_moderation::{Facts, Rank, Refusal, Reply, decide};
use std::alloc::Global;
use std::test::Fail;

// What a contributor's submission is answered if there are so many.
fn answered(alloc: Global, submissions: u32) -> Result<Result<Reply, Refusal>, Fail> {
    let command = command_in(alloc, "submit alice path=PC/8086&name=a")??;
    let facts = Facts {
        rank: Some(Rank::Contributor),
        kept: None,
        revision: 0,
        who: None,
        submissions,
        items: 0,
        named: None,
        remarks: 0,
        present: None,
        has_parent: true,
        has_children: false,
        file: None,
    };
    Ok(decide(&facts, &command).map(|decided| decided.1))
}

#[test]
fn submissions_have_a_limit(rt: HostRuntime) -> Result<(), Fail> {
    let last = answered(rt.alloc(), 1_999_999_999)?;
    assert!(rt; matches!(last, Ok(Reply::Numbered(2_000_000_000))));
    let beyond = answered(rt.alloc(), 2_000_000_000)?;
    assert!(rt; matches!(beyond, Err(Refusal::Full)));
    Ok(())
}
