//! What is known of an import before its file is read.
ghost use Rattle.pid_moderation.specs.History.{History};
ghost use Rattle.pid_moderation.specs.Sound.{IsSound};
ghost use Rattle.pid_moderation.specs.Views.{views_of};
ghost use Rattle.pid_tables.specs.Rows.Clauses.{AtRest, HasCleanDisk, OnlyReads};
ghost use Rattle.pid_tables.specs.Clauses.{EarlyIsCaused};
ghost use Rattle.pid_tables.specs.Judging.{EarlyIsNotFailed, IsJudgedEarly};

use crate::database::Database;
use crate::faults::refusal_of;
use crate::laws;
use crate::tables::Tables;
use pid_moderation::{Command, Facts, Refusal, Reply, Rows, before_file};
use std::alloc::Global;

/// What is known of an import before its file is read.
#[derive(Drop)]
pub enum Early {
    /// It is answered whatever its file is, if that is not too long.
    Answered(Result<Reply, Refusal>),
    /// It depends on its file: what it is judged by without that, and how many items there are.
    Open { facts: Facts, items: u32 },
}

/// Judges an import before its file is read. The tables are only read; the file that the command
/// has is not looked at.
///
/// It holds of tables that show a sound history. If there is no memory or the store fails, that
/// is the answer; the store fails only for a cause.
pub fn judge_import<C: Database + Drop>(
    tables: &mut Tables<C>,
    alloc: Global,
    command: &Command,
) -> Early
    ensures rests { OnlyReads C.state tables.old.conn tables.new.conn }
    ensures judged { HasCleanDisk C.state tables.new.conn → (h : History) → IsSound h
        → AtRest C.state tables.old.conn (views_of h) → IsJudgedEarly h command.now result }
    ensures caused { HasCleanDisk C.state tables.new.conn → (h : History) → IsSound h
        → AtRest C.state tables.old.conn (views_of h)
        → EarlyIsCaused C.state tables.old.conn tables.new.conn h command.now result }
    ensures alive { EarlyIsNotFailed result }
{
    laws::views_of_sound_histories(); // proof only
    match tables.items() {
        Err(fault) => Early::Answered(Err(refusal_of(fault))),
        Ok(items) => match tables.gather(alloc, &command.account, &command.key, Rows::Nothing) {
            Err(fault) => Early::Answered(Err(refusal_of(fault))),
            Ok(facts) => match before_file(&facts) {
                Some(answer) => {
                    drop(facts);
                    Early::Answered(answer)
                }
                None => Early::Open { facts, items },
            },
        },
    }
}
