//! Laws of the definitions. Each is the contract of a function that does nothing.
ghost use Rattle.std.specs.Prelude.{◌≡◌};
ghost use Rattle.pid_file.specs.PathTexts.{path_text};
ghost use Rattle.pid_file.specs.Labels.{label};
ghost use Rattle.pid_file.specs.Printing.{label_of};

use pid_file::Path;

/// The label that the printed text takes from the text of a path is that of the path's kind.
pub fn labels_are_of_paths()
    ensures { (path : Path) → label_of (path_text path) ≡ label path }
{}
