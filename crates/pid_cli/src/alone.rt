//! The registry at a path, with nothing in front of it.
ghost use Rattle.std.specs.Prelude.{◌≡◌};
ghost use Rattle.pid_cli.specs.Openings.{reason_of_tables};

use pid_cli_jobs::{Databases, Registries, Unopened};
use pid_service::{Registry, TableFault, open};
use pid_tables::WritableDatabase;

/// Registries with nothing in front of them. A connection on which `open` finds none is dropped as
/// it is: to close it would copy its log into a file that was refused.
#[derive(Clone, Copy)]
pub struct Alone;

impl<D: Databases> Registries<D> for Alone
where
    D::Connection: WritableDatabase,
{
    ghost use Rattle.std.specs.Prelude.{IsTrue};
    ghost use Rattle.pid_service.specs.Registries.{connection, is_live};
    ghost use Rattle.pid_cli.specs.Openings.{IsOpenedAt, IsUnopened};

    type Registry = Registry<D::Connection>;

    ghost is_opened = { λ _ path registry. IsOpenedAt D.Connection.Database (D.is_at path) registry };

    ghost is_unopened = { λ _ path why. IsUnopened D.Connection.Database (D.is_at path) why };

    ghost is_closed = { λ registry. IsTrue (is_live registry) → D.is_closed (connection registry) };

    fn open(&mut self, databases: &mut D, path: &str) -> Result<Registry<D::Connection>, Unopened> {
        let conn = databases.open(path)?;
        match open(databases.alloc(), conn) {
            Ok(registry) => Ok(registry),
            Err((fault, refused)) => {
                drop(refused);
                Err(of_tables(fault))
            }
        }
    }

    fn is_live(&self, registry: &Registry<D::Connection>) -> bool {
        registry.is_live()
    }

    fn prepare(&self, registry: &mut Registry<D::Connection>) {
        let _ = registry.prepare();
    }

    fn close(&mut self, databases: &mut D, registry: Registry<D::Connection>) {
        if registry.is_live() {
            databases.close(&mut Some(registry.close()));
        }
    }
}

/// Why none was opened: the tables were refused.
pub fn of_tables(fault: TableFault) -> Unopened
    ensures { result ≡ reason_of_tables fault }
{
    match fault {
        TableFault::Memory => Unopened::Memory,
        TableFault::Store => Unopened::Store,
        TableFault::Damaged => Unopened::Damaged,
        TableFault::NewerSchema(schema) => Unopened::NewerSchema(schema),
    }
}
