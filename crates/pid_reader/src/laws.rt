//! Laws of the definitions, over all texts and all trees.
ghost use Rattle.std.specs.List.{AllByRecursion, flat_map};
ghost use Rattle.std.specs.Prelude.{
  ◌≡◌,
  ◌≢◌,
  ◌↔◌,
  ◌++◌,
  ◌∷◌,
  ◌≤◌,
  List,
  [],
  ℕ,
  None,
  Some,
  IsSome,
  IfSome,
  length,
  map,
};
ghost use Rattle.std.specs.FinMap.Entries.{find};
ghost use Rattle.pid_ident.specs.PathReading.{parent_text};
ghost use Rattle.pid_file.specs.Trees.{TreeMap, IsTree, text_cmp};
ghost use Rattle.pid_file.specs.Printing.{print};
ghost use Rattle.pid_file.specs.Lines.{lines_of};
ghost use Rattle.pid_file.specs.LookingBack.{entries_back};
ghost use Rattle.pid_file.specs.Reading.{
  AreGood,
  ENTRIES,
  Reads,
  entries_of,
  history_of,
  refused,
  refusal_of,
};
ghost use Rattle.pid_file.specs.Numbered.{item_in, numbered_of};
ghost use Rattle.pid_file.specs.Entries.{AreEntries};
ghost use Rattle.pid_file.specs.WholeLines.{ended_pieces, open_part, whole_lines};
ghost use Rattle.pid_file.specs.declared.refusal.ReadRefusal.{ReadRefusal};

/// A printed tree reads back to itself, and to no other tree.
pub fn printed_trees_read_back()
    ensures { (t s : TreeMap) → IsTree t → (Reads (print t) s ↔ (s ≡ t)) }
{}

/// What a text without faults says is a tree.
pub fn texts_read_to_trees()
    ensures { (text : List ℕ) (t : TreeMap) → Reads text t → IsTree t }
{}

/// A text is its whole lines, each with its LF, and the open part after them. In neither is
/// another LF.
pub fn whole_lines_make_the_text()
    ensures text { (text : List ℕ) → flat_map (λ line. line ++ 10 ∷ []) (ended_pieces text)
        ++ open_part text ≡ text }
    ensures lines { (text : List ℕ) → AllByRecursion (λ line. AllByRecursion (λ b. b ≢ 10) line)
        (ended_pieces text) }
    ensures open { (text : List ℕ) → AllByRecursion (λ b. b ≢ 10) (open_part text) }
{}

/// A refusal of the whole lines of a text, those whose LF has come, is the refusal of every text
/// that begins with it.
pub fn refusals_stand()
    ensures { (text more : List ℕ) (r : ReadRefusal) → refusal_of (whole_lines text) ≡ Some r
        → refused (text ++ more) ≡ Some r }
{}

/// A text is refused nowhere exactly when no line has a fault and it has at most 100,000 entries.
pub fn good_texts_are_read()
    ensures { (text : List ℕ) → (refused text ≡ None)
        ↔ (AreGood (history_of text) × (length (entries_back (history_of text)) ≤ ENTRIES)) }
{}

/// The entries of a text that is refused nowhere: each is a name at a path that no earlier one has,
/// whose parent an earlier one has, and there are at most 100,000. So the parent of each path that
/// they have is among them.
pub fn texts_tell_entries()
    ensures entries { (text : List ℕ) → refused text ≡ None
        → AreEntries (entries_of (lines_of text)) }
    ensures parents { (text path : List ℕ) → refused text ≡ None
        → IsSome (find text_cmp path (entries_of (lines_of text)))
        → IfSome (parent_text path) (λ above. IsSome
        (find text_cmp above (entries_of (lines_of text)))) }
    ensures few { (text : List ℕ) → refused text ≡ None
        → length (entries_of (lines_of text)) ≤ ENTRIES }
{}

/// The entries of lines with the numbers of their lines are the entries of these lines.
pub fn numbered_entries_are_entries()
    ensures { (lines : List (List ℕ)) → map item_in (numbered_of lines) ≡ entries_of lines }
{}
