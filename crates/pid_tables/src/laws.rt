//! Laws of the definitions. Each is the contract of a function that does nothing of its own.
ghost use Rattle.pid_moderation.specs.History.{History, TooLong, asked, is_import};
ghost use Rattle.pid_moderation.specs.Sound.{IsSound};
ghost use Rattle.pid_moderation.specs.Views.{views_of, items_of};
ghost use Rattle.pid_moderation.specs.WellMade.{AllItems, HoldsParents, HasGoodFile, IsFile};
ghost use Rattle.pid_tables.specs.Rows.Causes.{IsReadable};
ghost use Rattle.pid_tables.specs.Rows.Shows.{AreViews};
ghost use Rattle.std.specs.Prelude.{◌≡◌, ◌↔◌, ◌<◌, ℕ, List, length, true, false, IsTrue, None};
ghost use Rattle.pid_moderation.specs.declared.command.Command.{Command};
ghost use Rattle.pid_moderation.specs.CheckTables.{most_file_bytes};
ghost use Rattle.pid_reader.specs.Lines.{lines_of};
ghost use Rattle.pid_reader.specs.Reading.{entries_of, refused};
ghost use Rattle.pid_moderation.specs.Files.{IsBroken, file_reading};

/// The views of every sound history, as that of each registry is, keep what tables ask of views,
/// and their items are a tree, as `gather` asks.
pub fn views_of_sound_histories()
    ensures views { (h : History) → IsSound h → AreViews (views_of h) }
    ensures readable { (h : History) → IsSound h → IsReadable (views_of h) }
    ensures items { (h : History) → IsSound h → AllItems (items_of h) }
    ensures parents { (h : History) → IsSound h → HoldsParents (items_of h) }
{
    pid_moderation::laws::trees_are_files(); // proof only
    pid_moderation::laws::trees_are_last_writes(); // proof only
}

/// The entries of a text that is refused nowhere are a file: names at paths, with the parent of
/// each, not too many, and no path twice. So what each file reads to is that of a well made import.
pub fn texts_read_to_files()
    ensures entries { (text : List ℕ) → refused text ≡ None → IsFile (entries_of (lines_of text)) }
    ensures readings { (text : List ℕ) → HasGoodFile (file_reading text) }
{
    pid_reader::laws::texts_tell_entries(); // proof only
    pid_ident::laws::parents_have_texts(); // proof only
}

/// A file of more than 4,194,304 bytes, and no other, reads to one that is too long. Its import is
/// refused, and changes nothing.
pub fn long_files_are_refused()
    ensures readings { (text : List ℕ) → (file_reading text ≡ TooLong)
        ↔ (most_file_bytes < length text) }
    ensures refused { (h : History) (command : Command) (text : List ℕ)
        → is_import command.act ≡ true → most_file_bytes < length text
        → IsBroken h (asked command (file_reading text)) }
{}
