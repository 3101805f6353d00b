//! A map from paths to names that holds the parent of each of its paths.
ghost use Rattle.std.specs.Prelude.{◌≡◌, IfOk, IsErrOf, map, reverse};
ghost use Rattle.std.specs.FinMap as finite;
ghost use Rattle.pid_file.specs.Trees.{IsTree};
ghost use Rattle.pid_file.specs.Items.{item_of, tree_of};

use crate::name::Name;
use crate::path::Path;
use crate::tree_sink::TreeFault;
use crate::whole::is_whole;
use std::alloc::Global;
use std::collections::BTreeMap;
use std::collections::btree_map::Iter;
use std::marker::Model;

/// Names by their paths. The parent of each path is there too.
#[derive(Drop)]
pub struct Tree {
    /// The items in canonical order, which is the bytewise order of the texts of their paths.
    pub items: BTreeMap<Path, Name>,
}

impl Model for Tree {
    ghost use Rattle.std.specs.FinMap.{code};
    ghost use Rattle.std.specs.Coded.{coded_ℕ, coded_list};
    ghost use Rattle.pid_file.specs.Trees.{TreeMap, IsTree};
    ghost use Rattle.pid_file.specs.Items.{tree_of};

    ghost Value = { TreeMap };

    ghost coded = { code (coded_list coded_ℕ) (coded_list coded_ℕ) };

    ghost view = { λ t. tree_of t.items.entries };

    ghost invariant = { λ t. IsTree (tree_of t.items.entries) };
}

impl Tree {
    /// The tree of these items, which may come in any order; if they come in canonical order it
    /// is built in one pass. Of items with one path the last stays.
    ///
    /// Fails with `ParentMissing` if the parent of a path is not among them, and with `Memory` if
    /// memory runs out.
    pub fn of_items(alloc: Global, items: Vec<(Path, Name)>) -> Result<Tree, TreeFault>
        ensures ok { IfOk result (λ t. t ≡ tree_of (reverse items.items)) }
        ensures parent_missing { IsErrOf result TreeFault.ParentMissing
            → IsTree (tree_of (reverse items.items)) → ⊥ }
    {
        let Ok(items) = BTreeMap::from_iter(alloc, items) else {
            return Err(TreeFault::Memory);
        };
        if !is_whole(&items) {
            return Err(TreeFault::ParentMissing);
        }
        Ok(Tree { items })
    }

    /// The items in canonical order, which is the bytewise order of the texts of their paths.
    pub fn in_order(&self) -> Iter<'_, Path, Name>
        ensures items { map item_of result ≡ finite.entries self.now }
        ensures tree { IsTree self.now }
    {
        self.items.iter()
    }
}
