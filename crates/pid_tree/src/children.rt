//! Whether a path has children in a tree.
ghost use Rattle.std.specs.Prelude.{◌≡◌, ◌↔◌, Some, IsTrue};
ghost use Rattle.std.specs.BTreeMap.Range.{IsLeBy, IsInRange};
ghost use Rattle.pid_file.specs.PathTexts.{parent_of, IsPath};
ghost use Rattle.pid_file.specs.Steps.Paths.{path_cmp};
ghost use Rattle.pid_tree.specs.Parents.{HasChild};
ghost use Rattle.pid_tree.specs.Steps.Between.{FindsChild};

use pid_file::{Id8, Id16, Path, Tree};

/// Whether a path of the tree has this one as its parent.
pub fn has_child(tree: &Tree, path: Path) -> bool
    ensures answer { IsTrue result ↔ HasChild tree.now path }
    ensures in_range { IsPath path }
{
    match path {
        Path::Vendor { vendor } => has_device(tree, vendor) || has_generic(tree, vendor),
        Path::Device { vendor, device } => has_subsystem(tree, vendor, device),
        Path::Class { class } => has_subclass(tree, class),
        Path::Subclass { class, subclass } => has_progif(tree, class, subclass),
        Path::Subsystem { .. } | Path::ProgIf { .. } | Path::Generic { .. } => false,
    }
}

fn has_device(tree: &Tree, vendor: Id16) -> bool
    ensures { FindsChild tree.now (Path.Vendor vendor)
        (Path.Device vendor 0) (Path.Device vendor 65535) result }
{
    let least = Path::Device { vendor, device: 0 };
    let greatest = Path::Device {
        vendor,
        device: Id16::MAX,
    };
    has_child_between(tree, Path::Vendor { vendor }, least, greatest)
}

fn has_generic(tree: &Tree, vendor: Id16) -> bool
    ensures { FindsChild tree.now (Path.Vendor vendor)
        (Path.Generic vendor 0) (Path.Generic vendor 65535) result }
{
    let least = Path::Generic { vendor, device: 0 };
    let greatest = Path::Generic {
        vendor,
        device: Id16::MAX,
    };
    has_child_between(tree, Path::Vendor { vendor }, least, greatest)
}

fn has_subsystem(tree: &Tree, vendor: Id16, device: Id16) -> bool
    ensures { FindsChild tree.now (Path.Device vendor device)
        (Path.Subsystem vendor device 0 0) (Path.Subsystem vendor device 65535 65535) result }
{
    let least = Path::Subsystem {
        vendor,
        device,
        subvendor: 0,
        subdevice: 0,
    };
    let greatest = Path::Subsystem {
        vendor,
        device,
        subvendor: Id16::MAX,
        subdevice: Id16::MAX,
    };
    has_child_between(tree, Path::Device { vendor, device }, least, greatest)
}

fn has_subclass(tree: &Tree, class: Id8) -> bool
    ensures { FindsChild tree.now (Path.Class class)
        (Path.Subclass class 0) (Path.Subclass class 255) result }
{
    let least = Path::Subclass { class, subclass: 0 };
    let greatest = Path::Subclass {
        class,
        subclass: Id8::MAX,
    };
    has_child_between(tree, Path::Class { class }, least, greatest)
}

fn has_progif(tree: &Tree, class: Id8, subclass: Id8) -> bool
    ensures { FindsChild tree.now (Path.Subclass class subclass)
        (Path.ProgIf class subclass 0) (Path.ProgIf class subclass 255) result }
{
    let least = Path::ProgIf {
        class,
        subclass,
        progif: 0,
    };
    let greatest = Path::ProgIf {
        class,
        subclass,
        progif: Id8::MAX,
    };
    has_child_between(tree, Path::Subclass { class, subclass }, least, greatest)
}

// Whether a child of the path lies between two paths.
fn has_child_between(tree: &Tree, path: Path, least: Path, greatest: Path) -> bool
    requires in_range { IsPath path }
    requires forward { IsLeBy path_cmp least greatest }
    ensures { FindsChild tree.now path least greatest result }
{
    for (key, _) in tree.items.range(least..=greatest) {
        if is_child(*key, path) {
            return true;
        }
    }
    false
}

// Whether the path is the parent of the key.
fn is_child(key: Path, path: Path) -> bool
    requires { IsPath path }
    ensures answer { IsTrue result ↔ (parent_of key ≡ Some path) }
    ensures in_range { IsPath key }
{
    match key.parent() {
        None => false,
        Some(parent) => parent == path,
    }
}
