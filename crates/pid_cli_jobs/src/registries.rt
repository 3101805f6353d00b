//! Where registries are opened.
use crate::machine::Databases;
use crate::unopened::Unopened;
use pid_service_laws::RegistryQueries;

/// How a registry is opened at a path of a machine, and closed: alone, or with a journal in front of
/// it.
pub trait Registries<D: Databases> {
    ghost use Rattle.std.specs.Prelude.{◌≡◌, ℕ, List, IfErr, IfOk};
    ghost use Rattle.pid_cli_jobs.specs.Sessions.{IsPrepared};
    ghost use Rattle.pid_cli_jobs.specs.declared.unopened.Unopened.{Unopened};

    type Registry: RegistryQueries + Drop;

    /// The registry was opened at this path.
    ghost is_opened: { Self → List ℕ → Self.Registry → Type 0 };

    /// None was, for this reason.
    ghost is_unopened: { Self → List ℕ → Unopened → Type 0 };

    /// The registry was closed, unless it had failed.
    ghost is_closed: { Self.Registry → Type 0 };

    /// Opens or creates the registry at a path.
    fn open(&mut self, databases: &mut D, path: &str) -> Result<Self::Registry, Unopened>
        ensures opened { IfOk result (is_opened self.old path.now) }
        ensures unopened { IfErr result (is_unopened self.old path.now) };

    /// Whether a registry is live: one that is not answers nothing more.
    fn is_live(&self, registry: &Self::Registry) -> bool
        ensures { result ≡ Self.Registry.is_live registry.now };

    /// Reads what a registry keeps in memory, so that no question waits for it. What cannot be read,
    /// or does not fit, is read when it is asked for.
    fn prepare(&self, registry: &mut Self::Registry)
        ensures { IsPrepared Self.Registry.RegistryCalls registry.old registry.new };

    /// Closes a registry, unless it has failed.
    fn close(&mut self, databases: &mut D, registry: Self::Registry)
        ensures { is_closed registry };
}
