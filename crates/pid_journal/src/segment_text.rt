//! The text of a segment, which is read line by line: what is in memory of it is what one read
//! brought, and the line that is open.
ghost use Rattle.std.specs.Prelude.{
  ◌≡◌,
  ◌<◌,
  ◌≤◌,
  ◌++◌,
  [],
  ℕ,
  List,
  IfOk,
  drop,
  false,
  length,
  true,
};
ghost use Rattle.pid_journal.specs.Steps.Reads.{
  IsAllRead,
  IsLine,
  OfText,
  OnlyReads,
  left_in,
};

use crate::folder::JournalFolder;
use pid_moderation::Refusal;
use pid_reader::split_line;
use pid_script::LONGEST_LINE;
use std::alloc::Global;
use std::mem::swap;

// The room of one read, in bytes.
const BUFFER: usize = 65_536;

/// The longest line that is read, in bytes: the longest of a script, and a CR.
pub const LONGEST: usize = LONGEST_LINE + 1;

/// A segment of which some lines were taken.
#[derive(Drop)]
pub struct SegmentText {
    begin: u64,
    // How many bytes of it were read.
    read: u64,
    // What was read last, of which so many bytes were taken.
    held: Vec<u8>,
    taken: usize,
    // The last line that was taken is empty, as that of a mark is, or none was taken.
    is_marked: bool,
}

// Keeps more bytes of a line. `Store` if it is longer then than any line that a journal holds.
fn keep(line: &mut Vec<u8>, more: &[u8]) -> Result<(), Refusal>
    ensures kept { IfOk result (λ x. line.new.items ≡ line.old.items ++ more.now) }
    ensures short { IfOk result (λ x. length line.new.items ≤ LONGEST) }
{
    if LONGEST < line.len().saturating_add(more.len()) {
        return Err(Refusal::Store);
    }
    line.extend_from_slice(more)?;
    Ok(())
}

impl SegmentText {
    /// The segment that begins at a revision, of which nothing was read.
    pub fn new(alloc: Global, begin: u64) -> SegmentText
        ensures begin { result.begin ≡ begin }
        ensures left { (text : List ℕ) → left_in result text ≡ text }
    {
        SegmentText {
            begin,
            read: 0,
            held: Vec::new(alloc),
            taken: 0,
            is_marked: true,
        }
    }

    /// The revision at which it begins.
    pub fn begin(&self) -> u64
        ensures { result ≡ self.now.begin }
    {
        self.begin
    }

    /// How many bytes of it were read.
    pub fn read(&self) -> u64 {
        self.read
    }

    /// Whether the last line that was taken is empty, or none was taken.
    pub fn is_marked(&self) -> bool {
        self.is_marked
    }

    fn unread(&self) -> &[u8]
        ensures { result.now ≡ drop self.now.taken self.now.held.items }
    {
        self.held.get(self.taken..).unwrap_or(&[])
    }

    /// How many bytes were read and are not taken.
    pub fn left(&self) -> usize
        ensures { result ≡ length (drop self.now.taken self.now.held.items) }
    {
        self.unread().len()
    }

    // Reads on, after all that was read is taken. Answers whether more came.
    fn read_on<F: JournalFolder>(&mut self, folder: &mut F) -> Result<bool, Refusal>
        ensures reads { OnlyReads F.JournalFolder folder.old folder.new self.old self.new }
        ensures more { IfOk result (λ more. OfText F.JournalFolder folder.old self.old (λ text.
            left_in self.new text ≡ drop self.old.read text)) }
        ensures end { IfOk result (λ more. more ≡ false → OfText F.JournalFolder folder.old
            self.old (λ text. (left_in self.new text ≡ []) × (drop self.new.read text ≡ []))) }
        ensures grows { IfOk result (λ more. more ≡ true → self.old.read < self.new.read) }
    {
        let mut buffer = [0u8; BUFFER];
        let count = folder.read(self.begin, self.read, &mut buffer)?;
        let Some(read) = self.read.checked_add(count as u64) else {
            return Err(Refusal::Store);
        };
        self.held.clear();
        self.held.extend_from_slice(&buffer[..count])?;
        self.taken = 0;
        self.read = read;
        Ok(count != 0)
    }

    /// Takes the next line, whose LF has come. If none is left, nothing is taken.
    pub fn take_line<F: JournalFolder>(
        &mut self,
        folder: &mut F,
        line: &mut Vec<u8>,
    ) -> Result<bool, Refusal>
        ensures reads { OnlyReads F.JournalFolder folder.old folder.new self.old self.new }
        ensures taken { IfOk result (λ whole. whole ≡ true → OfText F.JournalFolder folder.old
            self.old (λ text. IsLine (left_in self.old text) line.new.items (left_in self.new text))) }
        ensures end { IfOk result (λ whole. whole ≡ false → OfText F.JournalFolder folder.old
            self.old (IsAllRead self.old self.new)) }
    {
        line.clear();
        for _turn in 0..u64::MAX {
            if let Some((front, behind)) = split_line(self.unread()) {
                let taken = self.held.len().saturating_sub(behind.len());
                keep(line, front)?;
                self.taken = taken;
                self.is_marked = line.is_empty();
                return Ok(true);
            }
            keep(line, self.unread())?;
            if !self.read_on(folder)? {
                swap(&mut self.held, line);
                self.taken = 0;
                return Ok(false);
            }
        }
        Err(Refusal::Store)
    }
}
