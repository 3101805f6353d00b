//! What a registry keeps of the names that look-ups have read.
use crate::service::asking::{expect_told, new_in_memory, told};
use pid_service::Registry;
use pid_tables::WritableDatabase;
use std::alloc::Global;
use std::process::Abort;
use std::test::Fail;

const PAIRS: &str = "\
import root 8086  Intel Corporation | ok added=1 renamed=0 same=0
lookup flags=3&vendor=8086&device=ffff | Intel Corporation Device ffff
lookup flags=1&vendor=1234 | Vendor 1234
";

const RENAMED: &str = "\
import root 8086  Other | ok added=0 renamed=1 same=0
lookup flags=1&vendor=8086 | Other
submit root path=PC/8086&name=Third | ok 1
account root who=bob&rank=2 | ok
approve bob num=1 | ok
lookup flags=1&vendor=8086 | Third
";

const THIRD: &str = "\
lookup flags=1&vendor=8086 | Third
";

fn look_up<C: WritableDatabase + Drop>(
    registry: &mut Registry<C>,
    alloc: Global,
    vendor: u32,
) -> Result<(), Fail> {
    let row = format!(in alloc; "lookup flags=1&vendor={vendor:04x}")?;
    told(registry, alloc, row.as_str())?;
    Ok(())
}

fn expect_kept<C: WritableDatabase + Drop>(
    rt: &impl Abort,
    alloc: Global,
    registry: &mut Registry<C>,
) -> Result<(), Fail> {
    assert!(rt; registry.cached() == 0);
    expect_told(rt, alloc, registry, PAIRS)?;
    assert!(rt; registry.cached() > 0);
    told(registry, alloc, "import root 10ec  Realtek")?;
    assert!(rt; registry.cached() == 0);
    look_up(registry, alloc, 0x8086)?;
    assert!(rt; registry.cached() == 1);
    expect_told(rt, alloc, registry, RENAMED)
}

// Names that are kept do not grow without end.
fn expect_limit<C: WritableDatabase + Drop>(
    rt: &impl Abort,
    alloc: Global,
    registry: &mut Registry<C>,
) -> Result<(), Fail> {
    for number in 0..2_000u32 {
        look_up(registry, alloc, number)?;
    }
    assert!(rt; registry.cached() == 1_024);
    expect_told(rt, alloc, registry, THIRD)
}

// What is kept is read again after an import and an approval.
#[test]
fn keeps_names_until_they_change(rt: HostRuntime) -> Result<(), Fail> {
    let mut registry = new_in_memory(rt.alloc())?;
    expect_kept(&rt, rt.alloc(), &mut registry)?;
    expect_limit(&rt, rt.alloc(), &mut registry)
}
