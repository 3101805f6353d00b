//! Worked trees, refusals, and writers that fail.
use pid_doubles::FaultyOutput;
use pid_ident::{Name, NameText, Path, PathText, WriteFault};
use pid_tree::{Tree, TreeItems, TreeRefusal, write_canonical};
use std::alloc::Global;
use std::test::Fail;

// Sets the name at the path of a text such as `PC/8086 Intel`.
fn set(tree: &mut Tree, alloc: Global, item: &str) -> Result<Result<(), TreeRefusal>, Fail> {
    let (path, name) = item.split_once(' ').ok_or("an item")?;
    let path = Path::parse(path).ok_or("a path")?;
    let name = Name::of(alloc, name)?;
    Ok(tree.set(path, name))
}

// The tree of the items of a text, one a line.
pub fn made(alloc: Global, items: &str) -> Result<Tree, Fail> {
    let mut tree = Tree::new(alloc);
    for item in items.lines() {
        set(&mut tree, alloc, item)??;
    }
    Ok(tree)
}

fn outcome(told: Result<(), TreeRefusal>) -> &'static str {
    match told {
        Ok(()) => "ok",
        Err(TreeRefusal::ParentMissing) => "ParentMissing",
        Err(TreeRefusal::Memory) => "Memory",
        Err(TreeRefusal::HasChildren) => "HasChildren",
        Err(TreeRefusal::Absent) => "Absent",
    }
}

// Whether the canonical text is this one, where `;` is LF.
fn is_printed(alloc: Global, tree: &Tree, text: &str) -> Result<bool, Fail> {
    let mut out = FaultyOutput::new(alloc, usize::MAX);
    write_canonical(tree, &mut out)?;
    let text = text.replace(alloc, ";", "\n")?;
    Ok(out.taken.as_slice() == text.as_bytes())
}

// A row is `set` and an item, or `remove` and a path, with what it comes to; or `text` and the
// canonical text; or `len` and the number of items; or `has` and an item.
fn is_so(alloc: Global, tree: &mut Tree, row: &str) -> Result<bool, Fail> {
    let (asked, rest) = row.split_once(' ').ok_or("a row")?;
    let (item, want) = rest.split_once(" | ").unwrap_or((rest, ""));
    match asked {
        "set" => Ok(outcome(set(tree, alloc, item)?) == want),
        "remove" => Ok(outcome(remove(tree, item)?) == want),
        "len" => Ok(tree.len() == item.parse::<usize>()? && tree.is_empty() == (item == "0")),
        "has" => is_there(tree, item),
        "text" => is_printed(alloc, tree, rest),
        _ => Err("an unknown row")?,
    }
}

fn remove(tree: &mut Tree, path: &str) -> Result<Result<(), TreeRefusal>, Fail> {
    let path = Path::parse(path).ok_or("a path")?;
    Ok(tree.remove(&path))
}

fn is_there(tree: &Tree, item: &str) -> Result<bool, Fail> {
    let (path, wanted) = item.split_once(' ').ok_or("an item")?;
    let path = Path::parse(path).ok_or("a path")?;
    match tree.get(&path) {
        Some(name) => Ok(name.as_str() == wanted),
        None => Ok(false),
    }
}

// Fails with the first row that is not so of the tree of these items.
fn try_rows(alloc: Global, items: &str, rows: &str) -> Result<(), Fail> {
    let mut tree = made(alloc, items)?;
    for row in rows.lines() {
        if !is_so(alloc, &mut tree, row)? {
            return Err(row)?;
        }
    }
    Ok(())
}

const WITH_BLOCKS: &str = "\
PC/1af4 Red Hat
PS/1af4/1100 Qemu
PS/1af4/0001 Net
PD/01 Mass
PC/8086 I
PS/1af4/0002 Blk
";

const BLOCKS: &str =
    "# PCI ID registry\n1af4  Red Hat\n8086  I\nC 01  Mass\nS 1af4\n\t0001  Net\n\t0002  Blk\n\t1100  Qemu\n";

const THREE: &str = "\
PC/8086 Intel
PC/8086/1237 440FX
PC/10ec Realtek
";

// The names of devices and classes are those of the published pci.ids.
const OF_EACH_KIND: &str = "\
PD/01 Mass storage controller
PD/01/01 IDE interface
PD/01/01/00 ISA Compatibility mode-only controller
PC/8086 Intel Corporation
PC/1af4 Red Hat, Inc.
PC/8086/1237 440FX - 82441FX PMC [Natoma]
PC/8086/1237/1af41100 Qemu virtual machine
PS/8086/0001 Board
PS/1af4/1100 Virtual machine
";

const EACH_KIND: &str = "text # PCI ID registry;1af4  Red Hat, Inc.;8086  Intel Corporation;\
\t1237  440FX - 82441FX PMC [Natoma];\t\t1af4 1100  Qemu virtual machine;\
C 01  Mass storage controller;\t01  IDE interface;\
\t\t00  ISA Compatibility mode-only controller;\
S 1af4;\t1100  Virtual machine;S 8086;\t0001  Board;";

#[test]
fn prints_items_in_order(rt: HostRuntime) -> Result<(), Fail> {
    let alloc = rt.alloc();
    try_rows(alloc, "", "len 0\ntext # PCI ID registry;\n")?;
    let three = "len 3\ntext # PCI ID registry;10ec  Realtek;8086  Intel;\t1237  440FX;\n";
    try_rows(alloc, THREE, three)?;
    try_rows(alloc, WITH_BLOCKS, WITH_ALL)?;
    try_rows(alloc, OF_EACH_KIND, EACH_KIND)
}

const WITH_ALL: &str = "text # PCI ID registry;1af4  Red Hat;8086  I;C 01  Mass;S 1af4;\
\t0001  Net;\t0002  Blk;\t1100  Qemu;\n";

const REFUSALS: &str = "\
set PC/8086/1237 440FX | ParentMissing
text # PCI ID registry;
set PC/8086 Intel | ok
set PC/8086/1237 440FX | ok
text # PCI ID registry;8086  Intel;\t1237  440FX;
remove PC/8086 | HasChildren
text # PCI ID registry;8086  Intel;\t1237  440FX;
remove PC/10ec | Absent
text # PCI ID registry;8086  Intel;\t1237  440FX;
remove PC/8086/1237 | ok
text # PCI ID registry;8086  Intel;
";

// A vendor keeps its generic subsystems, though they lie far from it in canonical order.
const VENDORS_OF_BLOCKS: &str = "\
remove PC/1af4 | HasChildren
text # PCI ID registry;1af4  Red Hat;8086  I;C 01  Mass;S 1af4;\t0001  Net;\t0002  Blk;\t1100  Qemu;
remove PC/8086 | ok
has PC/1af4 Red Hat
";

#[test]
fn refuses_and_stays(rt: HostRuntime) -> Result<(), Fail> {
    try_rows(rt.alloc(), "", REFUSALS)?;
    try_rows(rt.alloc(), WITH_BLOCKS, VENDORS_OF_BLOCKS)
}

// Whether a writer that fails after so many bytes took these.
fn is_sent(alloc: Global, tree: &Tree, taken: &[u8], fault: WriteFault) -> bool {
    let mut out = FaultyOutput::new(alloc, 1).failing_after(taken.len() as u64, fault);
    let is_fault = match write_canonical(tree, &mut out) {
        Ok(()) => false,
        Err(met) => met.number() == fault.number(),
    };
    is_fault && out.taken.as_slice() == taken
}

#[test]
fn sends_a_front_at_a_fault(rt: HostRuntime) -> Result<(), Fail> {
    let alloc = rt.alloc();
    let tree = made(alloc, WITH_BLOCKS)?;
    let text = BLOCKS.as_bytes();
    for count in 0..text.len() {
        let (front, _) = text.split_at(count);
        assert!(rt;
            is_sent(alloc, &tree, front, WriteFault::Device),
            "after {count}"
        );
        assert!(rt;
            is_sent(alloc, &tree, front, WriteFault::Zero),
            "after {count}"
        );
    }
    let mut out = FaultyOutput::new(alloc, 1).failing_after(text.len() as u64, WriteFault::Device);
    assert!(rt; write_canonical(&tree, &mut out).is_ok() && out.taken.as_slice() == text);
    Ok(())
}

// Whether the tree has the item, or, where memory is refused, what it had before and nothing of the
// new path.
fn is_set_or_stays(alloc: Global, tree: &mut Tree, path: Path) -> bool {
    let before = tree.len();
    let Ok(name) = Name::of(alloc, "a") else {
        return true;
    };
    match tree.set(path, name) {
        Ok(()) => Some(tree.len()) == before.checked_add(1),
        Err(refusal) => {
            refusal == TreeRefusal::Memory && tree.len() == before && tree.get(&path).is_none()
        }
    }
}

#[test]
fn stays_where_memory_is_refused(rt: HostRuntime) {
    let mut tree = Tree::new(rt.alloc());
    for vendor in 0..200 {
        assert!(rt;
            is_set_or_stays(rt.alloc(), &mut tree, Path::Vendor { vendor }),
            "{vendor}"
        );
    }
    for vendor in 0..200 {
        let path = Path::Vendor { vendor };
        if tree.get(&path).is_some() {
            assert!(rt; tree.remove(&path) == Ok(()), "{vendor}");
        }
    }
    assert!(rt; tree.is_empty());
}
