//! A journal in memory, and a registry in front of which it stands.
use pid_doubles::{FaultyInput, FaultyOutput};
use pid_ident::WriteFault;
use pid_journal::{JournalFile, JournalFolder, Journaled, open_journal};
use pid_moderation::Refusal;
use pid_script::{ScriptEnd, run_script};
use pid_service::{Registry, open};
use sqlite::{Connection, MemStore};
use std::alloc::Global;
use std::test::Fail;

/// A file in memory. So many appends go well; one that does not leaves half of its bytes. Cuts go
/// well or not.
#[derive(Drop)]
pub(crate) struct Paper {
    pub bytes: Vec<u8>,
    pub good_appends: u32,
    pub cuts: bool,
}

impl Paper {
    fn take(&mut self, bytes: &[u8]) -> Result<(), WriteFault> {
        if self.good_appends == 0 {
            let (front, _) = bytes.split_at(bytes.len() / 2);
            let _ = self.bytes.extend_from_slice(front);
            return Err(WriteFault::Device);
        }
        self.good_appends -= 1;
        match self.bytes.extend_from_slice(bytes) {
            Ok(()) => Ok(()),
            Err(_) => Err(WriteFault::Device),
        }
    }

    fn keep(&mut self, count: u64) -> Result<(), WriteFault> {
        if !self.cuts {
            return Err(WriteFault::Device);
        }
        self.bytes.truncate(count as usize);
        Ok(())
    }
}

// What it holds is compared by the tests, so that its contract says nothing of it.
impl JournalFile for Paper {
    ghost use Rattle.std.specs.Prelude.{None};

    ghost safe = { λ paper. None };

    fn seconds(&self) -> u64 {
        1_764_370_000
    }

    fn count(&self) -> u64 {
        self.bytes.len() as u64
    }

    fn append(&mut self, bytes: &[u8]) -> Result<(), WriteFault> {
        self.take(bytes)
    }

    fn mark(&mut self, bytes: &[u8]) {
        let _ = self.bytes.extend_from_slice(bytes);
    }

    fn cut(&mut self, count: u64) -> Result<(), WriteFault> {
        self.keep(count)
    }
}

/// A folder in memory without a segment. That of its journal takes so many appends.
#[derive(Drop)]
struct PaperFolder {
    alloc: Global,
    good_appends: u32,
    cuts: bool,
    opened: u64,
}

impl JournalFolder for PaperFolder {
    ghost use Rattle.std.specs.Prelude.{None, []};

    type Segment = Paper;

    ghost names = { λ folder. None };

    ghost text_in = { λ folder name. [] };

    ghost openings = { λ folder. folder.opened };

    fn begins(&mut self, alloc: Global) -> Result<Vec<u64>, Refusal> {
        Ok(Vec::new(alloc))
    }

    fn read(&mut self, _begin: u64, _after: u64, _buffer: &mut [u8]) -> Result<usize, Refusal> {
        Err(Refusal::Store)
    }

    fn replayed(&mut self) {}

    fn cut(&mut self, _begin: u64, _count: u64) -> Result<(), Refusal> {
        Err(Refusal::Store)
    }

    fn segment(&mut self, _begin: u64) -> Result<Paper, Refusal> {
        Err(Refusal::Store)
    }

    fn new_segment(&mut self, _begin: u64) -> Result<Paper, Refusal> {
        let Some(opened) = self.opened.checked_add(1) else {
            return Err(Refusal::Store);
        };
        self.opened = opened;
        Ok(Paper {
            bytes: Vec::new(self.alloc),
            good_appends: self.good_appends,
            cuts: self.cuts,
        })
    }
}

/// A registry in memory, with a journal in memory in front of it.
pub(crate) type OnPaper = Journaled<Registry<Connection<MemStore>>, Paper>;

fn new_in_memory(alloc: Global) -> Result<Registry<Connection<MemStore>>, Fail> {
    let conn = Connection::open_in_memory(alloc)?;
    if !conn.is_autocommit() {
        return Err("a transaction is left")?;
    }
    match open(alloc, conn) {
        Ok(registry) => Ok(registry),
        Err((_, _)) => Err("no registry")?,
    }
}

/// A new registry, and in front of it a journal that takes so many appends.
pub(crate) fn on_paper(alloc: Global, good_appends: u32, cuts: bool) -> Result<OnPaper, Fail> {
    let mut folder = PaperFolder {
        alloc,
        good_appends,
        cuts,
        opened: 0,
    };
    match open_journal(alloc, new_in_memory(alloc)?, &mut folder, 1_000_000) {
        Ok(opened) => Ok(opened.registry),
        Err((_, _)) => Err("the journal was not opened")?,
    }
}

/// Whether the lines of a script are answered so.
pub(crate) fn is_told(
    alloc: Global,
    registry: &mut OnPaper,
    script: &[u8],
    wanted: &[u8],
) -> Result<bool, Fail> {
    let mut input = FaultyInput::new(script, 4_096);
    let mut output = FaultyOutput::new(alloc, 4_096);
    let _end: ScriptEnd = run_script(alloc, registry, &mut input, &mut output, 1_000_000);
    Ok(output.taken.as_slice() == wanted)
}
