//! The file of a segment of a journal.
ghost use Rattle.std.specs.Prelude.{
  ◌≡◌,
  ◌⊎◌,
  ◌+◌,
  ◌≤◌,
  ◌∷◌,
  ◌++◌,
  ℕ,
  List,
  Option,
  Some,
  None,
  IfSome,
  MatchResult,
  length,
};
ghost use Rattle.pid_journal.specs.Doubts.{LeavesPart};

use pid_ident::WriteFault;

/// A file that a journal is written to, and a clock. A folder reads it.
pub trait JournalFile {
    /// The bytes that are safe in the file, written and synced, if they are known.
    ghost safe: { Self → Option (List ℕ) };

    /// The time, in seconds since the beginning of 1970. A journal writes it into comments alone.
    fn seconds(&self) -> u64;

    /// How many bytes are safe in the file.
    fn count(&self) -> u64
        ensures { IfSome (safe self.now) (λ text. result ≡ length text) };

    /// Writes bytes to the end of the file and syncs it. After a fault any prefix of them may be
    /// there.
    fn append(&mut self, bytes: &[u8]) -> Result<(), WriteFault>
        ensures appended { (front : List ℕ) → safe self.old ≡ Some front → MatchResult result
            (λ _. safe self.new ≡ Some (front ++ bytes.now)) (λ _. LeavesPart (safe self.new) front bytes.now) }
        ensures unknown { safe self.old ≡ None → safe self.new ≡ None };

    /// Writes bytes to the end of the file, all of them or none that stay. They are not synced before
    /// the next append, so that a stop may leave any prefix of them.
    fn mark(&mut self, bytes: &[u8])
        ensures { (front : List ℕ) → safe self.old ≡ Some front
            → (safe self.new ≡ Some front) ⊎ (safe self.new ≡ Some (front ++ bytes.now)) };

    /// Cuts off what comes after so many bytes, among which are all marks, and syncs the file. A mark
    /// ends with an LF (10) after an LF. So what a reader has seen above a mark stays. After a fault
    /// any prefix of what is cut off may still be there.
    fn cut(&mut self, count: u64) -> Result<(), WriteFault>
        requires { (above rest : List ℕ) → safe self.old ≡ Some (above ++ 10 ∷ 10 ∷ rest)
            → length above + 2 ≤ count }
        ensures { (front behind : List ℕ) → safe self.old ≡ Some (front ++ behind) → length front ≡ count
            → MatchResult result (λ _. safe self.new ≡ Some front)
            (λ _. LeavesPart (safe self.new) front behind) };
}
