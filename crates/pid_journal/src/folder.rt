//! The folder of a journal.
ghost use Rattle.std.specs.Prelude.{
  ◌≡◌,
  ◌≢◌,
  ◌+◌,
  ◌<◌,
  ◌≤◌,
  [],
  ◌∷◌,
  ◌++◌,
  ℕ,
  List,
  Option,
  Some,
  None,
  IfOk,
  IfSome,
  IsSorted,
  MatchOption,
  MatchResult,
  drop,
  length,
  take,
};
ghost use Rattle.std.specs.Ordering.{nat_cmp};
ghost use Rattle.pid_journal.specs.Doubts.{LeavesPart};

use crate::file::JournalFile;
use pid_moderation::Refusal;
use std::alloc::Global;

/// A folder of segments, each named by the revision of the registry at which it begins.
pub trait JournalFolder {
    /// The file of a segment.
    type Segment: JournalFile + Drop;

    /// The names of its segments, in ascending order, if they are known.
    ghost names: { Self → Option (List ℕ) };

    /// The bytes that are safe in the segment of a name, where the names are known; none, if there
    /// is no such segment. What is written to a segment once it is open is not seen here.
    ghost text_in: { Self → ℕ → List ℕ };

    /// How many files of its segments were handed out, which alone can be written.
    ghost openings: { Self → ℕ };

    /// The revisions at which its segments begin, in ascending order. `Memory` or `Store` if they
    /// cannot be read.
    fn begins(&mut self, alloc: Global) -> Result<Vec<u64>, Refusal>
        ensures ascending { IfOk result (λ begins. IsSorted nat_cmp begins.items) }
        ensures same { (names self.new ≡ names self.old) × (text_in self.new ≡ text_in self.old) }
        ensures unopened { openings self.new ≡ openings self.old }
        ensures read { IfOk result
            (λ begins. IfSome (names self.old) (λ all. begins.items ≡ all)) };

    /// Reads bytes that are safe in the segment that begins at a revision: those that come after so
    /// many. None into a buffer with room is the end. `Memory` or `Store` if they cannot be read.
    fn read(&mut self, begin: u64, after: u64, buffer: &mut [u8]) -> Result<usize, Refusal>
        ensures same { (names self.new ≡ names self.old) × (text_in self.new ≡ text_in self.old) }
        ensures unopened { openings self.new ≡ openings self.old }
        ensures room { IfOk result (λ n. n ≤ length buffer.new) }
        ensures read { IfOk result (λ n. IfSome (names self.old) (λ all. drop after (text_in self.old begin)
            ≡ take n buffer.new ++ drop (after + n) (text_in self.old begin))) }
        ensures end { IfOk result (λ n. n ≡ 0 → 0 < length buffer.new
            → IfSome (names self.old) (λ all. drop after (text_in self.old begin) ≡ [])) };

    /// Called after each line that an opening obeys, so that a program can say how far it is.
    fn replayed(&mut self)
        ensures same { (names self.new ≡ names self.old) × (text_in self.new ≡ text_in self.old) }
        ensures unopened { openings self.new ≡ openings self.old };

    /// Cuts off so many bytes at the end of the segment that begins at a revision, and syncs it. After
    /// a fault any prefix of them may still be there.
    fn cut(&mut self, begin: u64, count: u64) -> Result<(), Refusal>
        ensures same { names self.new ≡ names self.old }
        ensures unopened { openings self.new ≡ openings self.old }
        ensures others { IfSome (names self.old) (λ all. (name : ℕ) → name ≢ begin
            → text_in self.new name ≡ text_in self.old name) }
        ensures cut { IfSome (names self.old) (λ all. (front behind : List ℕ)
            → text_in self.old begin ≡ front ++ behind → length behind ≡ count
            → MatchResult result (λ _. text_in self.new begin ≡ front)
            (λ _. LeavesPart (Some (text_in self.new begin)) front behind)) };

    /// Opens the segment that begins at a revision, to be written.
    fn segment(&mut self, begin: u64) -> Result<Self::Segment, Refusal>
        ensures same { (names self.new ≡ names self.old) × (text_in self.new ≡ text_in self.old) }
        ensures opened { IfOk result (λ file. MatchOption (names self.old)
            (Self.Segment.safe file ≡ None)
            (λ all. Self.Segment.safe file ≡ Some (text_in self.old begin))) }
        ensures handed { MatchResult result (λ _. openings self.new ≡ openings self.old + 1)
            (λ _. openings self.new ≡ openings self.old) };

    /// Makes an empty segment that begins at a revision, where the last one does not. Its name is
    /// synced.
    fn new_segment(&mut self, begin: u64) -> Result<Self::Segment, Refusal>
        requires { (front : List ℕ) → names self.old ≢ Some (front ++ begin ∷ []) }
        ensures same { text_in self.new ≡ text_in self.old }
        ensures made { IfOk result (λ file. IfSome (names self.old) (λ all. (Self.Segment.safe file ≡ Some [])
            × (text_in self.old begin ≡ []) × (names self.new ≡ Some (all ++ begin ∷ [])))) }
        ensures handed { MatchResult result (λ _. openings self.new ≡ openings self.old + 1)
            (λ _. openings self.new ≡ openings self.old) };
}
