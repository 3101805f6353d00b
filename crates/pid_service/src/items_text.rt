//! The canonical text of all items in memory, if it is short enough, and how many bytes it has.
ghost use Rattle.std.specs.Prelude.{
  ◌≡◌,
  ◌∷◌,
  [],
  false,
  true,
  length,
  Err,
  IfSome,
  Some,
};
ghost use Rattle.pid_service.specs.Steps.TextSinks.{AddsLines, HasLines, Lengthens, block_after};
ghost use Rattle.pid_service.specs.Steps.ItemTexts.{IsCountedText};
ghost use Rattle.pid_ident.specs.PathTexts.{path_text};
ghost use Rattle.pid_tables.specs.Rows.Causes.{IsReadable};
ghost use Rattle.pid_tables.specs.declared.lists.walk.EachEnd.TheVariants as walks;
ghost use Rattle.pid_file.specs.Printing.{ended, header, label_of, lines_after};
ghost use Rattle.pid_file.specs.Steps.Printing.{text_or_none};
ghost use Rattle.pid_service.specs.Steps.Asking.{ReadsIn};

use crate::kept_text::{Extent, FIRST, KeptText, MOST_BYTES, extent_of};
use pid_file::{opened_block, write_after, write_header};
use pid_ident::{Output, Path, WriteFault};
use pid_reader::{Entry, Never, Sink};
use pid_tables::{Database, EachEnd, TableFault, Tables};
use std::alloc::Global;

// The length of `S 1af4` and its LF.
const BLOCK: u64 = 7;

/// The length of what comes before the spaces and the name in the line of an item.
pub(crate) fn label_length(path: Path) -> u64
    ensures { result ≡ length (label_of (path_text path)) }
{
    match path {
        Path::Vendor { .. } | Path::Class { .. } | Path::ProgIf { .. } => 4,
        Path::Device { .. } | Path::Generic { .. } => 5,
        Path::Subsystem { .. } => 11,
        Path::Subclass { .. } => 3,
    }
}

/// The length of the line before an item, if it opens a block after this path or as the first.
pub(crate) fn block_length(before: Option<Path>, path: Path) -> u64
    ensures { result ≡ length (ended (block_after (text_or_none before) (path_text path))) }
{
    match opened_block(before, path) {
        Some(_) => BLOCK,
        None => 0,
    }
}

// The length of the lines of an item that follows another or is the first.
fn lines_length(before: Option<Path>, path: Path, name: &str) -> u64
    ensures { result ≡ length (ended (lines_after (text_or_none before)
        ((path_text path, name.now) ∷ []))) }
{
    block_length(before, path) + label_length(path) + name.len() as u64 + 3
}

/// A writer into memory that takes at most `MOST_BYTES` bytes.
#[derive(Drop)]
pub(crate) struct TextBuffer {
    pub(crate) taken: Vec<u8>,
    fault: Option<WriteFault>,
}

impl Output for TextBuffer {
    ghost use Rattle.std.specs.Prelude.{◌≡◌, Some};

    ghost taken = { λ o. Some o.taken.items };

    ghost write_fault = { λ o. o.fault };

    fn write(&mut self, bytes: &[u8]) -> Result<usize, WriteFault> {
        if let Some(fault) = self.fault {
            return Err(fault);
        }
        let room = MOST_BYTES.saturating_sub(self.taken.len());
        if room < bytes.len() || self.taken.extend_from_slice(bytes).is_err() {
            self.fault = Some(WriteFault::Device);
            return Err(WriteFault::Device);
        }
        Ok(bytes.len())
    }
}

/// A text in memory to which the lines of one item after the other are added.
#[derive(Drop)]
pub(crate) struct GrowingText {
    pub(crate) buffer: TextBuffer,
    pub(crate) extents: Vec<Extent>,
}

impl GrowingText {
    /// It is empty.
    pub(crate) fn new(alloc: Global) -> GrowingText
        ensures { HasLines result [] [] }
    {
        GrowingText {
            buffer: TextBuffer {
                taken: Vec::new(alloc),
                fault: None,
            },
            extents: Vec::new(alloc),
        }
    }

    /// Adds the lines of an item that follows another or is the first, if there is room for them.
    pub(crate) fn add_lines(&mut self, before: Option<Path>, path: &Path, name: &str) -> bool
        ensures { result ≡ true → AddsLines self.old self.new (text_or_none before)
            ((path_text path.now, name.now) ∷ []) }
    {
        match extent_of(*path, lines_length(before, *path, name)) {
            Some(extent) => {
                write_after(before, path, name, &mut self.buffer).is_ok()
                    && self.extents.push(extent).is_ok()
            }
            None => false,
        }
    }
}

// The header in memory, if there is some.
fn first_line(alloc: Global) -> Option<GrowingText>
    ensures { IfSome result (λ text. HasLines text (ended (header ∷ [])) []) }
{
    let mut text = GrowingText::new(alloc);
    match write_header(&mut text.buffer) {
        Ok(()) => Some(text),
        Err(_) => None,
    }
}

// A text and the lines of an item after it, or none if there is no room for them.
fn with_lines(
    text: Option<GrowingText>,
    before: Option<Path>,
    path: &Path,
    name: &str,
) -> Option<GrowingText>
    ensures { Lengthens text result (text_or_none before) ((path_text path.now, name.now) ∷ []) }
{
    let mut text = text?;
    if text.add_lines(before, path, name) {
        Some(text)
    } else {
        None
    }
}

/// Adds up the lengths of the lines of each item that it takes after those of the one before,
/// up to the greatest number, and keeps the lines as long as there is room.
#[derive(Drop)]
struct TextSink {
    bytes: u64,
    before: Option<Path>,
    text: Option<GrowingText>,
}

impl Sink for TextSink {
    ghost use Rattle.pid_service.specs.Steps.TextSinks.{TakesItem};

    type Fault = Never;

    ghost takes = { TakesItem };

    ghost faults = { λ s entry f t. ⊥ };

    fn entry(&mut self, entry: &Entry<'_>) -> Result<(), Never> {
        let more = lines_length(self.before, entry.path, entry.name);
        self.bytes = self.bytes.saturating_add(more);
        self.text = with_lines(self.text.take(), self.before, &entry.path, entry.name);
        self.before = Some(entry.path);
        Ok(())
    }
}

fn end_of(end: EachEnd<Never>) -> TableFault
    ensures { end ≡ walks.Tables result }
{
    match end {
        EachEnd::Tables(fault) => fault,
        EachEnd::Fault(never) => match never {},
    }
}

// A text as it is kept.
fn kept_of(text: Option<GrowingText>) -> Option<KeptText>
    ensures { IfSome result (λ kept. (grown : GrowingText) × (text ≡ Some grown)
        × (kept.bytes ≡ grown.buffer.taken) × (kept.extents ≡ grown.extents)) }
{
    match text {
        Some(
            GrowingText {
                buffer: TextBuffer { taken, .. },
                extents,
            },
        ) => Some(KeptText {
            bytes: taken,
            extents,
        }),
        None => None,
    }
}

/// The length of a text in bytes, and the text if it is short enough and memory is there.
#[derive(Drop)]
pub(crate) struct ItemsText {
    pub(crate) bytes: u64,
    pub(crate) text: Option<KeptText>,
}

// What `export_items` writes, by one walk over the items, of which each is lent by the connection.
// It is kept after its first line, if that is there.
fn walked_text<C: Database + Drop>(
    tables: &mut Tables<C>,
    first: Option<GrowingText>,
) -> Result<ItemsText, TableFault>
    requires first { IfSome first (λ text. HasLines text (ended (header ∷ [])) []) }
    ensures { ReadsIn C.Database tables.old tables.new result
        (λ v found. IsReadable v → IsCountedText found.bytes found.text v.items) }
{
    let mut sink = TextSink {
        bytes: FIRST as u64,
        before: None,
        text: first,
    };
    match tables.each_item(&mut sink) {
        Ok(()) => Ok(ItemsText {
            bytes: sink.bytes,
            text: kept_of(sink.text),
        }),
        Err(end) => Err(end_of(end)),
    }
}

/// What `export_items` writes. A text of more than 16,777,216 bytes is only counted, and so is one
/// for which memory runs out.
pub(crate) fn items_text<C: Database + Drop>(
    tables: &mut Tables<C>,
    alloc: Global,
) -> Result<ItemsText, TableFault>
    ensures { ReadsIn C.Database tables.old tables.new result
        (λ v found. IsReadable v → IsCountedText found.bytes found.text v.items) }
{
    match walked_text(tables, first_line(alloc)) {
        Ok(found) => Ok(found),
        // The text may have taken the memory that ran out.
        Err(TableFault::Memory) => walked_text(tables, None),
        Err(fault) => Err(fault),
    }
}
