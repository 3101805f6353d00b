//! The import of a pci.ids file into the registry at a path.
ghost use Rattle.std.specs.Prelude.{◌≡◌, IfOk, IsErrOf};
ghost use Rattle.pid_cli_args.specs.Jobs.{text_given};
ghost use Rattle.pid_cli_jobs.specs.Jobs.{BringsFile, Imports, IsBadSender, ReportsImport};
ghost use Rattle.pid_cli_jobs.specs.Lines.{streams_used};

use crate::job_end::{JobEnd, report_memory};
use crate::lines::print_reply;
use crate::machine::{Databases, Machine};
use crate::registries::Registries;
use crate::unopened::{Unopened, report_unopened};
use pid_cli_args::ImportArgs;
use pid_cli_args::terminal::{Counted, Progress, Seen};
use pid_ident::{Account, Input, Key, Output, Plain, WordFault};
use pid_moderation::{Refusal, Reply};
use pid_service_laws::{ImportEnd, RegistryQueries};
use std::alloc::Global;

fn sender_of(alloc: Global, words: &ImportArgs<'_>) -> Result<(Account, Option<Key>), WordFault>
    ensures ok { IfOk result (λ s. (s.0 ≡ words.now.account.now)
        × (s.1 ≡ text_given words.now.key)) }
    ensures bad { IsErrOf result WordFault.Bad → IsBadSender words.now.account.now
        (text_given words.now.key) }
{
    let account = Account::of(alloc, words.account)?;
    match words.key {
        Some(key) => Ok((account, Some(Key::of(alloc, key)?))),
        None => Ok((account, None)),
    }
}

fn import_file<D: Databases, G: Registries<D>, I: Input>(
    databases: &mut D,
    registries: &mut G,
    path: &str,
    sender: (Account, Option<Key>),
    input: &mut I,
) -> Result<Result<Reply, ImportEnd>, Unopened>
    ensures { BringsFile G.Registry.RegistryCalls (G.is_opened registries.old path.now)
        (G.is_unopened registries.old path.now) G.is_closed sender
        (I.to_come input.old) (I.to_come input.new) (I.read_fault input.new) result }
{
    let mut registry = registries.open(databases, path)?;
    let (account, key) = sender;
    let result = registry.import_from(account, key, input);
    registries.close(databases, registry);
    Ok(result)
}

fn report_import<O: Output, F: Output>(
    found: Result<Result<Reply, ImportEnd>, Unopened>,
    output: &mut O,
    faults: &mut F,
) -> JobEnd
    ensures { ReportsImport found
        (streams_used O.Output F.Output output.old output.new faults.old faults.new) result }
{
    match found {
        Ok(Ok(reply)) => print_reply(Ok(reply), output),
        Ok(Err(ImportEnd::Refused(refusal))) => print_reply(Err(refusal), output),
        Ok(Err(ImportEnd::Body)) => JobEnd::FileFailed,
        Err(why) => report_unopened(why, faults),
    }
}

/// Imports a pci.ids file into the registry at a path, and prints the reply once both are closed.
pub fn import<M: Machine, G: Registries<M>, O: Output, F: Output>(
    machine: &mut M,
    registries: &mut G,
    progress: &mut Progress<'_>,
    words: &ImportArgs<'_>,
    output: &mut O,
    faults: &mut F,
) -> JobEnd
    ensures { Imports G.Registry.RegistryCalls (G.is_opened registries.old words.now.db.now)
        (G.is_unopened registries.old words.now.db.now) G.is_closed
        (M.is_text words.now.ids.now) M.Opened.remaining words.now
        (streams_used O.Output F.Output output.old output.new faults.old faults.new) result }
{
    let sender = match sender_of(machine.alloc(), words) {
        Ok(sender) => sender,
        Err(WordFault::Bad) => return print_reply(Err(Refusal::BadText), output),
        Err(WordFault::Memory) => return report_memory(faults),
    };
    let Some(file) = machine.open_text(words.ids) else {
        return JobEnd::FileFailed;
    };
    let mut input = Plain::new(Seen::new(file, Counted(&mut *progress)));
    let found = import_file(machine, registries, words.db, sender, &mut input);
    drop(input);
    progress.clear();
    report_import(found, output, faults)
}
