//! Registries with a journal in front of them.
ghost use Rattle.std.specs.Prelude.{◌≡◌};
ghost use Rattle.pid_cli_jobs.specs.Journaling.{reason_of_fault};

use crate::journals::ReportingFolder;
use crate::machine::Databases;
use crate::registries::Registries;
use crate::unopened::Unopened;
use pid_journal::{Journaled, OpenFault, Opened, open_journal};
use pid_moderation::Refusal;

/// How many bytes a segment has, at most, in which a journal goes on once it is opened.
const LONGEST: u64 = 1_048_576;

/// Registries that are opened with the journal of a folder in front of them.
#[derive(Drop)]
pub struct Journaling<G, F> {
    registries: G,
    folder: F,
}

impl<G, F> Journaling<G, F> {
    /// The registries alone, and the folder of their journal.
    pub fn new(registries: G, folder: F) -> Journaling<G, F>
        ensures { (result.registries ≡ registries) × (result.folder ≡ folder) }
    {
        Journaling { registries, folder }
    }
}

fn reason(fault: OpenFault) -> Unopened
    ensures { result ≡ reason_of_fault fault }
{
    match fault {
        OpenFault::Refused(Refusal::Memory) => Unopened::Memory,
        OpenFault::Refused(_) => Unopened::JournalFailed,
        OpenFault::Another | OpenFault::Newer => Unopened::AnotherJournal,
        OpenFault::Missing => Unopened::SegmentsMissing,
    }
}

impl<D: Databases, G: Registries<D>, F: ReportingFolder> Registries<D> for Journaling<G, F> {
    ghost use Rattle.pid_cli_jobs.specs.Journaling.{IsJournaled, IsNotJournaled};

    type Registry = Journaled<G::Registry, F::Segment>;

    ghost is_opened = { λ self path pair. IsJournaled G.Registry.RegistryCalls F.JournalFolder
        F.Segment.JournalFile self.folder (G.is_opened self.registries path) pair };

    ghost is_unopened = { λ self path why. IsNotJournaled G.Registry.RegistryCalls
        F.JournalFolder F.Segment.JournalFile self.folder (G.is_opened self.registries path)
        (G.is_unopened self.registries path) G.is_closed why };

    ghost is_closed = { λ pair. G.is_closed pair.registry };

    fn open(
        &mut self,
        databases: &mut D,
        path: &str,
    ) -> Result<Journaled<G::Registry, F::Segment>, Unopened> {
        let registry = self.registries.open(databases, path)?;
        let opened = open_journal(databases.alloc(), registry, &mut self.folder, LONGEST);
        self.folder.end_replay();
        match opened {
            Ok(opened) => {
                let Opened { registry, gap } = opened;
                if gap {
                    self.folder.report_gap();
                }
                Ok(registry)
            }
            Err((registry, fault)) => {
                self.registries.close(databases, registry);
                Err(reason(fault))
            }
        }
    }

    fn is_live(&self, pair: &Journaled<G::Registry, F::Segment>) -> bool {
        !pair.has_failed() && self.registries.is_live(pair.registry())
    }

    fn prepare(&self, pair: &mut Journaled<G::Registry, F::Segment>) {
        if pair.has_failed() {
            return;
        }
        self.registries.prepare(pair.registry_mut());
    }

    fn close(&mut self, databases: &mut D, pair: Journaled<G::Registry, F::Segment>) {
        let (registry, journal) = pair.into_parts();
        drop(journal);
        self.registries.close(databases, registry);
    }
}
