//! Holders of names.
ghost use Rattle.std.specs.Prelude.{◌≡◌, ⊤, IfOk, IfErr};
ghost use Rattle.pid_file.specs.Trees.{TreeMap};
ghost use Rattle.pid_lookup.specs.Found.{name_in_map};
ghost use Rattle.pid_lookup.specs.Holders.{KeepsHolder};

use pid_ident::{Name, Path};

/// A holder of names: a tree, or a registry over a disk.
///
/// If the holder is honest as a question ends, the name that it answers is that of the map that
/// it shows. A holder that may not answer fails with a fault at every question, and so says of no
/// path that it has a name or that it has none.
///
/// No question changes what is shown, which faults may come or whether it may answer, nor, honest
/// or not, more of the holder than `only_asked` allows.
pub trait Names {
    /// Why a question has no answer.
    type Fault;

    /// What the holder may show: a map, or a history that has one.
    ghost Shown: { Type 0 };

    /// The map of what is shown.
    ghost map_of: { Shown → TreeMap };

    /// Whether the holder shows this.
    ghost shows: { Self → Shown → Type 0 };

    /// Whether what the holder reads from returned what was written to it.
    ghost is_honest: { Self → Type 0 };

    /// Whether the holder may fail with this fault.
    ghost may_give: { Self → Self.Fault → Type 0 };

    /// Whether the holder may answer that a path has a name, or that it has none: if not, each
    /// question gets a fault.
    ghost may_tell: { Self → Type 0 } = { λ _. ⊤ };

    /// Whether this fault has its cause between the first holder and the second, if the first
    /// was only asked for names since.
    ghost has_cause: { Self → Self → Self.Fault → Type 0 } = { λ _ _ _. ⊤ };

    /// Whether a holder that was the first may be the second if it was asked for names, and
    /// nothing else was done to it.
    ghost only_asked: { Self → Self → Type 0 };

    /// A copy of the name of a path, or none if it has no name; or a fault.
    fn name_of(&mut self, path: &Path) -> Result<Option<Name>, Self::Fault>
        ensures found { is_honest self.new → (s : Shown) → shows self.old s
            → IfOk result (λ name. name ≡ name_in_map (map_of s) path.now) }
        ensures told { IfOk result (λ _. may_tell self.old) }
        ensures fault { IfErr result (λ f. may_give self.old f) }
        ensures caused { is_honest self.new → (s : Shown) → shows self.old s → (start : Self)
            → only_asked start self.old
            → IfErr result (λ f. has_cause start self.new f) }
        ensures kept { KeepsHolder shows is_honest may_give may_tell only_asked self.old self.new };
}
