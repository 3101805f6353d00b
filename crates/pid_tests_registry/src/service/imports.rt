//! How files are read, also by an input that fails, and exports that break off.
use crate::service::asking::{expect_line, expect_told, imported_from, new_in_memory};
use pid_doubles::{FaultyInput, FaultyOutput};
use pid_ident::WriteFault;
use pid_service::{ExportFault, Registry};
use pid_tables::WritableDatabase;
use std::alloc::Global;
use std::process::Abort;
use std::test::Fail;

fn expect_unchanged<C: WritableDatabase + Drop>(
    rt: &impl Abort,
    alloc: Global,
    registry: &mut Registry<C>,
    row: (&str, &str),
    reads: usize,
) -> Result<(), Fail> {
    let mut input = FaultyInput::new(row.1.as_bytes(), 1).failing_after(reads as u64);
    let line = imported_from(registry, alloc, row.0, &mut input)?;
    expect_line(rt, line.as_str(), "body", row.1);
    assert!(rt; registry.is_live());
    expect_told(rt, alloc, registry, "export | # PCI ID registry;\n")
}

// Whatever else holds, a fault of the input is answered, and nothing of the file stays.
#[test]
fn a_failing_input_changes_nothing(rt: HostRuntime) -> Result<(), Fail> {
    for row in [
        ("root", "8086  I\n"),
        ("carol", "8086  I\n"),
        ("root", "8086  I\n8086  I\n"),
    ] {
        for reads in 0..row.1.len() {
            let mut registry = new_in_memory(rt.alloc())?;
            expect_unchanged(&rt, rt.alloc(), &mut registry, row, reads)?;
        }
    }
    Ok(())
}

// A file of 9,000 bytes is read to its end, by three reads and the one that finds the end, whatever
// the import comes to.
fn expect_emptied<C: WritableDatabase + Drop>(
    rt: &impl Abort,
    alloc: Global,
    registry: &mut Registry<C>,
    file: &str,
    row: (&str, &str),
) -> Result<(), Fail> {
    let mut input = FaultyInput::new(file.as_bytes(), 65_536);
    let line = imported_from(registry, alloc, row.0, &mut input)?;
    expect_line(rt, line.as_str(), row.1, file);
    assert!(rt; input.rest.is_empty() && input.reads == 4, "{file}");
    Ok(())
}

#[test]
fn files_are_read_to_their_end(rt: HostRuntime) -> Result<(), Fail> {
    let alloc = rt.alloc();
    let mut registry = new_in_memory(alloc)?;
    let comment = "#".repeat(alloc, 8_980)?;
    for (file, row) in [
        ("8086  I", ("root", "ok added=1 renamed=0 same=0")),
        ("8086  I", ("carol", "refused 4 NoAccount")),
        (
            "8086 ",
            ("root", "refused 14 FileFault line=1 kind=5 NoName"),
        ),
    ] {
        let text = format!(in alloc; "{file}\n{comment}\n# the end")?;
        expect_emptied(&rt, alloc, &mut registry, text.as_str(), row)?;
    }
    Ok(())
}

const ITEMS: &str = "\
import root 8086  Intel;>1237  440FX;C 01  Mass;S 8086;>1100  Board | ok added=4 renamed=0 same=0
export | # PCI ID registry;8086  Intel;>1237  440FX;C 01  Mass;S 8086;>1100  Board;
";

const EXPORTED: &str = "\
export | # PCI ID registry;8086  Intel;>1237  440FX;C 01  Mass;S 8086;>1100  Board;
";

const TEXT: &[u8] =
    b"# PCI ID registry\n8086  Intel\n\t1237  440FX\nC 01  Mass\nS 8086\n\t1100  Board\n";

// What was written after so many good writes of one byte is a prefix.
fn expect_prefix<C: WritableDatabase + Drop>(
    rt: &impl Abort,
    alloc: Global,
    registry: &mut Registry<C>,
    writes: usize,
) {
    let mut output = FaultyOutput::new(alloc, 1).failing_after(writes as u64, WriteFault::Zero);
    let fault = registry.export_rows(&mut output);
    assert!(rt; matches!(fault, Err(ExportFault::Write(WriteFault::Zero))));
    assert!(rt; output.taken.len() == writes && TEXT.starts_with(output.taken.as_slice()));
}

fn expect_prefixes<C: WritableDatabase + Drop>(
    rt: &impl Abort,
    alloc: Global,
    registry: &mut Registry<C>,
) -> Result<(), Fail> {
    expect_told(rt, alloc, registry, ITEMS)?;
    for writes in 0..TEXT.len() {
        expect_prefix(rt, alloc, registry, writes);
    }
    expect_told(rt, alloc, registry, EXPORTED)
}

// The registry goes on after each.
#[test]
fn exports_break_off(rt: HostRuntime) -> Result<(), Fail> {
    let mut registry = new_in_memory(rt.alloc())?;
    expect_prefixes(&rt, rt.alloc(), &mut registry)
}
