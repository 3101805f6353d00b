//! The items of a tree: looked up, set and removed one by one.
ghost use Rattle.std.specs.Prelude.{
  ◌≡◌,
  ◌≢◌,
  ◌↔◌,
  ◌⊎◌,
  Err,
  IfErr,
  IsTrue,
  IsNone,
  OnOk,
  OnErr,
  IsErrOf,
};
ghost use Rattle.std.specs.FinMap as finite;
ghost use Rattle.std.specs.Option.{option_copied};
ghost use Rattle.pid_file.specs.PathTexts.{path_text, IsPath};
ghost use Rattle.pid_tree.specs.Parents.{LacksParent, HasChild};

use crate::children::has_child;
use crate::refusal::TreeRefusal;
use pid_file::{Name, Path, Tree};
use std::alloc::Global;
use std::collections::BTreeMap;

/// Looks up, sets and removes the items of a tree: `Tree::new`, `get`, `set` and `remove`.
///
/// A trait, so that a program that reads files alone does not wait for the proofs of it.
pub trait TreeItems: Sized {
    /// The tree without items.
    fn new(alloc: Global) -> Self;

    /// How many items there are.
    fn len(&self) -> usize;

    /// Whether there is no item.
    fn is_empty(&self) -> bool;

    /// The name of a path, or none if the path is not in the tree.
    fn get(&self, path: &Path) -> Option<&Name>;

    /// Sets the name of a path, in place of the name that it may have. The tree stays as it was if
    /// the parent of the path is missing (`ParentMissing`) or memory runs out (`Memory`).
    fn set(&mut self, path: Path, name: Name) -> Result<(), TreeRefusal>;

    /// Removes a path and its name. The tree stays as it was if the path is not there (`Absent`) or
    /// has children (`HasChildren`). Needs no memory.
    fn remove(&mut self, path: &Path) -> Result<(), TreeRefusal>;
}

impl TreeItems for Tree {
    fn new(alloc: Global) -> Tree
        ensures { result ≡ finite.empty }
    {
        Tree {
            items: BTreeMap::new(alloc),
        }
    }

    fn len(&self) -> usize
        ensures { result ≡ finite.len self.now }
    {
        self.items.len()
    }

    fn is_empty(&self) -> bool
        ensures { IsTrue result ↔ (self.now ≡ finite.empty) }
    {
        self.items.is_empty()
    }

    fn get(&self, path: &Path) -> Option<&Name>
        ensures { option_copied result ≡ finite.get self.now (path_text path.now) }
    {
        self.items.get(path)
    }

    fn set(&mut self, path: Path, name: Name) -> Result<(), TreeRefusal>
        ensures ok { OnOk result (self.new ≡ finite.insert self.old (path_text path) name) }
        ensures parent_missing { IsErrOf result TreeRefusal.ParentMissing
            ↔ LacksParent self.old path }
        ensures no_has_children { result ≢ Err TreeRefusal.HasChildren }
        ensures no_absent { result ≢ Err TreeRefusal.Absent }
        ensures err { OnErr result (self.new ≡ self.old) }
    {
        if lacks_parent(self, path) {
            return Err(TreeRefusal::ParentMissing);
        }
        // Shows the proof that the name keeps the rule of names.
        let _checked = name.as_str();
        match self.items.insert(path, name) {
            Ok(_) => Ok(()),
            Err(_) => Err(TreeRefusal::Memory),
        }
    }

    fn remove(&mut self, path: &Path) -> Result<(), TreeRefusal>
        ensures ok { OnOk result (self.new ≡ finite.remove self.old (path_text path.now)) }
        ensures absent { IsErrOf result TreeRefusal.Absent
            ↔ IsNone (finite.get self.old (path_text path.now)) }
        ensures has_children { IsErrOf result TreeRefusal.HasChildren ↔ HasChild self.old path.now }
        ensures no_other { IfErr result (λ refusal. (refusal ≡ TreeRefusal.Absent)
            ⊎ (refusal ≡ TreeRefusal.HasChildren)) }
        ensures err { OnErr result (self.new ≡ self.old) }
    {
        if self.get(path).is_none() {
            return Err(TreeRefusal::Absent);
        }
        if has_child(self, *path) {
            return Err(TreeRefusal::HasChildren);
        }
        // Shows the proof that the paths are in order.
        let _ordered = self.items.keys();
        let _name = self.items.remove(path);
        Ok(())
    }
}

// Whether the tree does not hold the parent of a path that has one.
fn lacks_parent(tree: &Tree, path: Path) -> bool
    ensures answer { IsTrue result ↔ LacksParent tree.now path }
    ensures in_range { IsPath path }
{
    match path.parent() {
        None => false,
        Some(parent) => tree.get(&parent).is_none(),
    }
}
