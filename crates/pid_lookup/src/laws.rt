//! Laws of look-ups: what a caller may rely on whatever the names are. Each is the contract of a
//! function that does nothing.
ghost use Rattle.std.specs.Prelude.{◌≡◌, ◌≢◌, ℕ, ◌<◌, ◌≤◌, true, false, List, Some, length};
ghost use Rattle.pid_file.specs.Trees.{TreeMap};
ghost use Rattle.pid_lookup.specs.declared.answer.Answer.TheVariants.{NoAnswer, Text};
ghost use Rattle.pid_lookup.specs.declared.args.Args.{Args};
ghost use Rattle.pid_lookup.specs.declared.flags.Request.{Request};
ghost use Rattle.pid_lookup.specs.Answers.{EndsWithNumber, answer_of, request_number};
ghost use Rattle.pid_lookup.specs.Asked.{AgreeOn, IsNameOf, is_for_one_name, request_paths};
ghost use Rattle.pid_lookup.specs.Cut.{cut};
ghost use Rattle.pid_lookup.specs.Flags.{is_bad, request_of, switches_of};

use crate::name_cache::CAPACITY;

/// A text in a buffer of at least 4 bytes leaves room for its closing 0 byte.
pub fn texts_fit_their_buffer()
    ensures cut { (text : List ℕ) (size : ℕ) → 4 ≤ size → length (cut text size) < size }
    ensures answer { (t : TreeMap) (flags size : ℕ) (a : Args) (request : Request) (text : List ℕ)
        → 4 ≤ size → request_of flags ≡ Some request → answer_of t flags a size ≡ Text text
        → length text < size }
{}

/// NUMERIC shows the number of the request, whatever names there are.
pub fn numbers_stand_alone()
    ensures number { (t : TreeMap) (flags size : ℕ) (a : Args) (request : Request)
        → is_bad flags ≡ false → (switches_of flags).numeric ≡ true
        → request_of flags ≡ Some request
        → answer_of t flags a size ≡ Text (cut (request_number request a) size) }
    ensures any_names { (t u : TreeMap) (flags size : ℕ) (a : Args)
        → is_bad flags ≡ false → (switches_of flags).numeric ≡ true
        → answer_of t flags a size ≡ answer_of u flags a size }
{}

/// Two maps with the same names at the paths of a request give it the same answer.
pub fn other_names_do_not_matter()
    ensures { (t u : TreeMap) (flags size : ℕ) (a : Args) (request : Request)
        → request_of flags ≡ Some request → AgreeOn (request_paths request a) t u
        → answer_of t flags a size ≡ answer_of u flags a size }
{}

/// With NO_NUMBERS and without MIXED what is shown of one vendor, device or subsystem is its name
/// in the map.
pub fn plain_answers_are_names()
    ensures { (t : TreeMap) (flags size : ℕ) (a : Args) (request : Request) (text : List ℕ)
        → is_bad flags ≡ false → (switches_of flags).no_numbers ≡ true
        → (switches_of flags).mixed ≡ false
        → request_of flags ≡ Some request → is_for_one_name request ≡ true
        → answer_of t flags a size ≡ Text text → IsNameOf t (request_paths request a) size text }
{}

/// Under MIXED each text ends with the number of the request in brackets, as far as the buffer
/// holds it.
pub fn mixed_answers_end_with_the_number()
    ensures { (t : TreeMap) (flags size : ℕ) (a : Args) (request : Request) (text : List ℕ)
        → (switches_of flags).mixed ≡ true → request_of flags ≡ Some request
        → answer_of t flags a size ≡ Text text
        → EndsWithNumber (request_number request a) size text }
{}

/// A cache keeps the names of at most 1,024 paths.
pub fn caches_keep_1024_names()
    ensures { CAPACITY ≡ 1024 }
{}

/// Without NO_NUMBERS there is always an answer.
pub fn answers_are_there()
    ensures { (t : TreeMap) (flags size : ℕ) (a : Args) → (switches_of flags).no_numbers ≡ false
        → answer_of t flags a size ≢ NoAnswer }
{}
