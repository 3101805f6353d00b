//! Entries into a tree.
ghost use Rattle.std.specs.Prelude.{◌≡◌, IfOk, IsErrOf};
ghost use Rattle.std.specs.FinMap.{empty};
ghost use Rattle.pid_file.specs.Trees.{IsTree};
ghost use Rattle.pid_file.specs.TreeSinks.{tree_so_far};

use crate::name::Name;
use crate::path::Path;
use crate::sink::{Entry, Sink};
use crate::tree::Tree;
use std::alloc::{AllocError, Global};

/// Why entries make no tree.
#[derive(Clone, Copy)]
pub enum TreeFault {
    /// The parent of a path has no name.
    ParentMissing,
    /// There is no memory.
    Memory,
}

/// Keeps the names of a tree, which is built at the end.
#[derive(Drop)]
pub struct TreeSink {
    /// The names as they came.
    pub items: Vec<(Path, Name)>,
    alloc: Global,
}

impl TreeSink {
    /// A sink to which no name came yet.
    pub fn new(alloc: Global) -> TreeSink
        ensures { tree_so_far result ≡ empty }
    {
        TreeSink {
            items: Vec::new(alloc),
            alloc,
        }
    }

    /// The tree of the names, or why they make none; a path that came twice has its last name.
    pub fn into_tree(self) -> Result<Tree, TreeFault>
        ensures ok { IfOk result (λ t. t ≡ tree_so_far self) }
        ensures parent_missing { IsErrOf result TreeFault.ParentMissing → IsTree (tree_so_far self)
            → ⊥ }
    {
        Tree::of_items(self.alloc, self.items)
    }
}

impl Sink for TreeSink {
    ghost use Rattle.std.specs.Prelude.{◌≡◌};
    ghost use Rattle.pid_file.specs.TreeSinks.{SetsItem};

    type Fault = AllocError;

    ghost takes = { SetsItem };

    ghost faults = { λ s entry f t. t.items.items ≡ s.items.items };

    fn entry(&mut self, entry: &Entry<'_>) -> Result<(), AllocError> {
        let name = Name::of_checked(self.alloc, entry.name)?;
        if self.items.push((entry.path, name)).is_err() {
            return Err(AllocError);
        }
        Ok(())
    }
}
