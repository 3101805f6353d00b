//! The bytewise order of the texts of paths, without the texts: the letter decides, and then the
//! numbers, each packed with others into one.
ghost use Rattle.std.specs.Prelude.{◌≡◌};
ghost use Rattle.std.specs.Ordering.{on, eq_by_cmp, as_partial_cmp};
ghost use Rattle.std.specs.Cmp.{
  on_total,
  eq_by_cmp_equiv,
  partial_equiv_from_equiv,
  partial_order_from_own_ties,
};
ghost use Rattle.std.specs.Cmp.Lexicographic.{nat_list_cmp_total};
ghost use Rattle.std.specs.Cmp.Rules.{comparing};
ghost use Rattle.std.proofs.Common.{refl, rules};
ghost use Rattle.pid_file.specs.PathTexts.{path_text};
ghost use Rattle.pid_file.specs.Steps.Paths.{path_cmp};
ghost use Rattle.pid_file.specs.Steps.PathPlaces.{IsNumberOf, path_head, path_rest, path_key};

use super::Path;
use std::cmp::Ordering;

// The letter and the first number: most paths differ there.
fn head_of(path: Path) -> u64
    ensures { IsNumberOf path_head path result }
{
    match path {
        Path::Vendor { vendor } | Path::Device { vendor, .. } | Path::Subsystem { vendor, .. } => {
            b'C' as u64 * 131_072 + vendor as u64
        }
        Path::Class { class } | Path::Subclass { class, .. } | Path::ProgIf { class, .. } => {
            b'D' as u64 * 131_072 + class as u64
        }
        Path::Generic { vendor, .. } => b'S' as u64 * 131_072 + vendor as u64,
    }
}

// The numbers after the first: each has 17 bits and counts from one, and a missing one is zero.
fn rest_of(path: Path) -> u64
    ensures { result ≡ path_rest path }
{
    match path {
        Path::Vendor { .. } | Path::Class { .. } => 0,
        Path::Device { device, .. } | Path::Generic { device, .. } => {
            (device as u64 + 1) * 17_179_869_184
        }
        Path::Subsystem {
            device,
            subvendor,
            subdevice,
            ..
        } => {
            (device as u64 + 1) * 17_179_869_184
                + (subvendor as u64 + 1) * 131_072
                + (subdevice as u64 + 1)
        }
        Path::Subclass { subclass, .. } => (subclass as u64 + 1) * 17_179_869_184,
        Path::ProgIf {
            subclass,
            progif,
            ..
        } => (subclass as u64 + 1) * 17_179_869_184 + (progif as u64 + 1) * 131_072,
    }
}

/// A number for each path, ordered as the paths are.
pub(crate) fn key_of(path: Path) -> u128
    ensures { IsNumberOf path_key path result }
{
    head_of(path) as u128 * 18_446_744_073_709_551_616 + rest_of(path) as u128
}

impl PartialEq for Path {
    ghost eq = { eq_by_cmp path_cmp };

    ghost laws = { partial_equiv_from_equiv
        (eq_by_cmp_equiv (on_total path_text nat_list_cmp_total)) };

    fn eq(&self, other: &Path) -> bool {
        self.cmp(other).is_eq()
    }
}

impl Eq for Path {
    ghost laws = { eq_by_cmp_equiv (on_total path_text nat_list_cmp_total) };
}

impl PartialOrd for Path {
    ghost partial_cmp = { as_partial_cmp path_cmp };

    ghost laws = { Prim.search (comparing, rules) };

    fn partial_cmp(&self, other: &Path) -> Option<Ordering> {
        Some(self.cmp(other))
    }
}

impl Ord for Path {
    ghost cmp = { path_cmp };

    ghost total = { on_total path_text nat_list_cmp_total };

    ghost matches_partial_cmp = { λ x y. refl };

    ghost matches_eq = { λ x y. refl };

    fn cmp(&self, other: &Path) -> Ordering {
        let mine = head_of(*self);
        let theirs = head_of(*other);
        if mine != theirs {
            return mine.cmp(&theirs);
        }
        rest_of(*self).cmp(&rest_of(*other))
    }
}
