//! What comes of a command, before anything is written.
ghost use Rattle.std.specs.Prelude.{◌≡◌, ◌≢◌, ◌⊎◌, false, Err, IfErr};
ghost use Rattle.pid_moderation.specs.History.{is_import};
ghost use Rattle.pid_moderation.specs.Judgement.{answer, judge as judgement};
ghost use Rattle.pid_moderation.specs.Revisions.{IsMarked};
ghost use Rattle.pid_moderation.specs.Views.{views_of};
ghost use Rattle.pid_service.specs.Steps.Judging.{Judges, JudgesCommand, OverFacts};

use pid_moderation::{Change, Command, Facts, Refusal, Reply, decide, needs};
use pid_tables::{Database, Tables, refusal_of};
use std::alloc::Global;

/// What comes of a command that is not refused.
#[derive(Drop)]
pub(crate) enum Judged {
    /// An earlier command had the key.
    Kept(Reply),
    Accepted { change: Change, reply: Reply },
}

fn judged_by(facts: &Facts, command: &Command) -> Result<Judged, Refusal>
    ensures judged { OverFacts facts.now command.now (λ h c. IsMarked h
        → is_import command.now.act ≡ false → JudgesCommand h c result) }
    ensures refused { OverFacts facts.now command.now (λ h c. IfErr result
        (λ e. (answer (judgement (views_of h) c) ≡ Err e) ⊎ (e ≡ Refusal.Memory))) }
    ensures alive { IfErr result (λ e. e ≢ Refusal.Failed) }
{
    match decide(facts, command) {
        Err(refusal) => Err(refusal),
        Ok((change, reply)) => {
            if facts.kept.is_some() {
                drop(change);
                Ok(Judged::Kept(reply))
            } else {
                Ok(Judged::Accepted { change, reply })
            }
        }
    }
}

/// Judges a command other than an import over the tables, which are only read.
pub(crate) fn judge<C: Database + Drop>(
    tables: &mut Tables<C>,
    alloc: Global,
    command: &Command,
) -> Result<Judged, Refusal>
    ensures { Judges C.Database tables.old tables.new command.now result }
{
    match tables.gather(alloc, &command.account, &command.key, needs(command)) {
        Ok(facts) => {
            let judged = judged_by(&facts, command);
            drop(facts);
            judged
        }
        Err(fault) => Err(refusal_of(fault)),
    }
}
