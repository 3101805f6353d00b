//! A path as a key of a map. It counts as its text, which is never written.
ghost use Rattle.std.specs.Prelude.{◌≡◌, fold};
ghost use Rattle.std.specs.Str.{bytes_eq};
ghost use Rattle.std.specs.Cmp.{partial_equiv_from_equiv};
ghost use Rattle.std.specs.Cmp.Lexicographic.{bytes_decides, nat_list_eq_equiv};
ghost use Rattle.std.specs.Hash.{same_Alike};
ghost use Rattle.pid_file.specs.PathTexts.{IsPath, path_text};
ghost use Rattle.pid_lookup.specs.Steps.CacheHashing.{fed_by, fed_text};

use pid_ident::Path;
use std::hash::{Hash, Hasher};
use std::marker::Model;

#[derive(Drop)]
pub struct PathKey {
    path: Path,
}

impl Model for PathKey {
    ghost use Rattle.std.specs.Prelude.{ℕ, List};
    ghost use Rattle.pid_file.specs.PathTexts.{path_text};

    ghost Value = { List ℕ };

    ghost view = { λ key. path_text key.path };
}

impl PathKey {
    pub fn of(path: &Path) -> PathKey
        ensures { result ≡ path_text path.now }
    {
        PathKey { path: *path }
    }
}

impl PartialEq for PathKey {
    ghost eq = { bytes_eq };

    ghost laws = { partial_equiv_from_equiv nat_list_eq_equiv };

    fn eq(&self, other: &PathKey) -> bool {
        self.path == other.path
    }
}

impl Eq for PathKey {
    ghost laws = { nat_list_eq_equiv };
}

impl Hash for PathKey {
    ghost hash_input = { fed_text };

    ghost respects_eq = { (same_Alike fed_text bytes_decides).fed };

    fn hash<H: Hasher>(&self, state: &mut H) {
        pid_ident::laws::texts_have_one_path(); // proof only
        feed(self.path, state);
    }
}

// Feeds the letter of the path's kind and the path's numbers.
fn feed<H: Hasher>(path: Path, state: &mut H)
    ensures fed { state.new ≡ fold H.write state.old (fed_by path) }
    ensures in_range { IsPath path }
{
    match path {
        Path::Vendor { vendor } => (b'C', vendor).hash(state),
        Path::Device { vendor, device } => (b'C', vendor, device).hash(state),
        Path::Subsystem {
            vendor,
            device,
            subvendor,
            subdevice,
        } => (b'C', vendor, device, subvendor, subdevice).hash(state),
        Path::Class { class } => (b'D', class).hash(state),
        Path::Subclass { class, subclass } => (b'D', class, subclass).hash(state),
        Path::ProgIf {
            class,
            subclass,
            progif,
        } => (b'D', class, subclass, progif).hash(state),
        Path::Generic { vendor, device } => (b'S', vendor, device).hash(state),
    }
}
