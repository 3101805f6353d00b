//! What HTTP asks of a registry with a journal in front of it, whose input fails, or which has
//! failed.
use crate::journal::faults::root_of;
use crate::journal::paper::on_paper;
use pid_doubles::FaultyInput;
use pid_moderation::Refusal;
use pid_service_laws::{ImportEnd, RegistryQueries};
use std::process::Abort;
use std::test::Fail;

const FILE: &[u8] = b"8086  Intel\n";

// Nothing is written of an input that fails.
#[test]
fn an_input_that_fails_has_no_line(rt: HostRuntime) -> Result<(), Fail> {
    let alloc = rt.alloc();
    let mut registry = on_paper(alloc, 10, true)?;
    let mut input = FaultyInput::new(FILE, 5).failing_after(1);
    let answer = registry.import_from(root_of(alloc)?, None, &mut input);
    assert!(rt; matches!(answer, Err(ImportEnd::Body)));
    assert!(rt; matches!(registry.status(), Ok(status) if status.items == 0));
    let (_, paper) = registry.into_parts();
    assert!(rt; paper.bytes.is_empty());
    Ok(())
}

// One that has failed answers nothing else.
#[test]
fn questions_find_out_that_it_has_failed(rt: HostRuntime) -> Result<(), Fail> {
    let alloc = rt.alloc();
    let mut registry = on_paper(alloc, 0, false)?;
    let mut input = FaultyInput::new(FILE, 5);
    let answer = registry.import_from(root_of(alloc)?, None, &mut input);
    assert!(rt; matches!(answer, Err(ImportEnd::Refused(Refusal::Store))));
    let mut input = FaultyInput::new(FILE, 5);
    let answer = registry.import_from(root_of(alloc)?, None, &mut input);
    assert!(rt; matches!(answer, Err(ImportEnd::Refused(Refusal::Failed))));
    assert!(rt; matches!(registry.status(), Err(Refusal::Failed)));
    assert!(rt; matches!(registry.children(None), Err(Refusal::Failed)));
    assert!(rt; matches!(registry.submission(1), Err(Refusal::Failed)));
    assert!(rt; matches!(registry.pending(0), Err(Refusal::Failed)));
    assert!(rt; matches!(registry.queue(0), Err(Refusal::Failed)));
    assert!(rt; matches!(registry.changes(0, None), Err(Refusal::Failed)));
    assert!(rt; matches!(registry.submissions(None, None, 0), Err(Refusal::Failed)));
    assert!(rt; matches!(registry.export_length(), Err(Refusal::Failed)));
    Ok(())
}
