//! Whether a map holds the parent of each of its paths, found in one pass in order.
ghost use Rattle.std.specs.Prelude.{◌≡◌, ◌↔◌, false, IsTrue, IfSome};
ghost use Rattle.pid_file.specs.Trees.{IsTree};
ghost use Rattle.pid_file.specs.Items.{tree_of};
ghost use Rattle.pid_file.specs.Steps.Whole.{AreIn, AreSound, HasItem, LooksAt};

use crate::name::Name;
use crate::path::Path;
use std::collections::BTreeMap;

// Two paths of a map, which the parent of the next path in order mostly is among.
#[derive(Clone, Copy)]
pub(crate) struct Above {
    pub head: Option<Path>,
    pub below: Option<Path>,
}

fn is_kept(kept: Option<Path>, path: Path) -> bool
    ensures { (es : _) → IfSome kept (HasItem es) → IsTrue result → HasItem es path }
{
    match kept {
        None => false,
        Some(kept) => path == kept,
    }
}

fn has(items: &BTreeMap<Path, Name>, path: Path) -> bool
    ensures { IsTrue result ↔ HasItem items.now.entries path }
{
    items.get(&path).is_some()
}

impl Above {
    // The next path of the map: what is kept after it, if its parent is in the map.
    fn with(self, items: &BTreeMap<Path, Name>, path: Path) -> Option<Above>
        requires kept { AreIn items.now.entries self }
        requires there { HasItem items.now.entries path }
        ensures { LooksAt items.now.entries path result }
    {
        let Some(parent) = path.parent() else {
            return Some(Above {
                head: Some(path),
                below: self.below,
            });
        };
        if is_kept(self.below, parent) {
            return Some(self);
        }
        if is_kept(self.head, parent) {
            return Some(Above {
                head: self.head,
                below: Some(path),
            });
        }
        if has(items, parent) {
            return Some(Above {
                head: Some(parent),
                below: Some(path),
            });
        }
        None
    }
}

// Whether the map holds the parent of each of its paths.
pub(crate) fn is_whole(items: &BTreeMap<Path, Name>) -> bool
    ensures whole { IsTrue result → AreSound items.now.entries items.now.entries }
    ensures not_whole { result ≡ false → IsTree (tree_of items.now.entries) → ⊥ }
{
    let mut above = Above {
        head: None,
        below: None,
    };
    for (key, name) in items.iter() {
        // Shows the prover that the name keeps the rule of names.
        let _checked = name.as_str();
        let Some(next) = above.with(items, *key) else {
            return false;
        };
        above = next;
    }
    true
}
