//! Why a tree is not changed.
ghost use Rattle.std.specs.Prelude.{◌≡◌};

use thiserror::Error;

/// Why a tree stays as it is.
#[derive(Clone, Copy, Debug, PartialEq, Eq, Error)]
pub enum TreeRefusal {
    #[error("the parent of the path is not in the tree")]
    ParentMissing,
    #[error("no memory")]
    Memory,
    #[error("the path has children in the tree")]
    HasChildren,
    #[error("the path is not in the tree")]
    Absent,
}

impl TreeRefusal {
    ghost use Rattle.pid_tree.specs.Refusals.{tree_refusal_number};

    /// 1 to 4, in the order above.
    pub fn number(self) -> u8
        ensures { result ≡ tree_refusal_number self }
    {
        match self {
            TreeRefusal::ParentMissing => 1,
            TreeRefusal::Memory => 2,
            TreeRefusal::HasChildren => 3,
            TreeRefusal::Absent => 4,
        }
    }
}
