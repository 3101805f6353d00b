//! An import, whose file comes as an input or as bytes.
ghost use Rattle.std.specs.Prelude.{◌≡◌, ◌≢◌, Bool, [], true, IfErr};
ghost use Rattle.pid_moderation.specs.BeforeFile.{import_of};
ghost use Rattle.pid_tables.specs.Judging.{WhereOpen};
ghost use Rattle.pid_service.specs.Histories.{IsMemoryOrStore, OverHistory};
ghost use Rattle.pid_service_laws.specs.Imports.{HasRead, InputIsRead};
ghost use Rattle.pid_service.specs.Importing.{
  EndIsNotFailed,
  IsImported,
  OfRefusal,
};
ghost use Rattle.pid_service.specs.Registries.{is_live as lives};
ghost use Rattle.pid_service.specs.Steps.Importing.{
  AnswersPast,
  CarriesText,
  CausesImport,
  EndStays,
  EndStaysLive,
  FaultStays,
  IsPlain,
  TakesText,
  long_refusal,
};
ghost use Rattle.pid_service.specs.Steps.Obeying.{StaysLive};

use crate::registry::Registry;
use pid_ident::{Account, Input, Key};
use pid_moderation::{Act, Command, FILE_BYTES, Facts, File, Refusal, Reply};
use pid_reader::{SkipEnd, SliceInput, skip_input};
use pid_service_laws::ImportEnd;
use pid_tables::{Early, Stop, WritableDatabase, judge_import};
use std::alloc::Global;

/// An import whose file is elsewhere.
pub(crate) fn import_command(alloc: Global, account: Account, key: Option<Key>) -> Command
    ensures { result ≡ record { account = account; key = key; act = Act.Import [] } }
{
    let file = File::new(Vec::new(alloc));
    Command {
        account,
        key,
        act: Act::Import { file },
    }
}

// What is answered for an input that is too long.
fn refusal_of_long(live: bool) -> Refusal
    ensures { result ≡ long_refusal live }
{
    if live {
        Refusal::BadText
    } else {
        Refusal::Failed
    }
}

/// Reads the rest of an input for an answer that does not depend on its text, of a registry that is
/// live or has failed.
pub(crate) fn answer_past<I: Input>(
    live: bool,
    answer: Result<Reply, Refusal>,
    input: &mut I,
) -> Result<Reply, ImportEnd>
    ensures past { HasRead result (I.to_come input.old) (I.to_come input.new)
        (AnswersPast live answer result) }
    ensures reads { InputIsRead I.Input input.old input.new result }
    ensures alive { live ≡ true → IfErr answer (λ e. e ≢ Refusal.Failed)
        → IfErr result EndIsNotFailed }
{
    match skip_input(FILE_BYTES, input) {
        Err(SkipEnd::ReadFault) => Err(ImportEnd::Body),
        Err(SkipEnd::TooLong) => Err(ImportEnd::Refused(refusal_of_long(live))),
        Ok(()) => match answer {
            Ok(reply) => Ok(reply),
            Err(refusal) => Err(ImportEnd::Refused(refusal)),
        },
    }
}

/// What an import of bytes is answered: they do not fail.
pub(crate) fn without_body_fault(end: Result<Reply, ImportEnd>) -> Result<Reply, Refusal>
    ensures same { IsPlain end result }
    ensures held { (before after : Bool) → EndStaysLive end before after
        → StaysLive result before after }
{
    match end {
        Ok(reply) => Ok(reply),
        Err(ImportEnd::Refused(refusal)) => Err(refusal),
        Err(ImportEnd::Body) => Err(Refusal::Store),
    }
}

// What stops the transaction of an import: out of memory, or the store.
fn stopping(refusal: Refusal) -> Refusal
    ensures fault { IsMemoryOrStore result }
    ensures same { IsMemoryOrStore refusal → result ≡ refusal }
{
    match refusal {
        Refusal::Memory => Refusal::Memory,
        _ => Refusal::Store,
    }
}

impl<C: WritableDatabase + Drop> Registry<C> {
    // Imports a file. What is kept of items is dropped before. At a fault the registry has failed.
    fn carry_in<I: Input>(
        &mut self,
        facts: &mut Facts,
        items: u32,
        command: &Command,
        input: &mut I,
    ) -> Result<Reply, ImportEnd>
        ensures lasts { EndStays C.Database I.Input self.old self.new input.old input.new result }
        ensures obeyed { HasRead result (I.to_come input.old) (I.to_come input.new)
            (CarriesText C.Database self.old self.new result facts.old items command.now) }
        ensures caused { OverHistory C.Database self.old self.new (λ h. WhereOpen h command.now
            facts.old items (IfErr result (OfRefusal (FaultStays (lives self.new))))) }
    {
        self.kept.forget_items();
        match self
            .tables
            .conn
            .import_file(self.alloc, facts, items, command, input)
        {
            Ok(reply) => Ok(reply),
            Err(Stop::Body) => Err(ImportEnd::Body),
            Err(Stop::Refused(refusal)) => Err(ImportEnd::Refused(refusal)),
            Err(Stop::Failed(refusal)) => {
                self.live = false;
                self.kept.clear();
                Err(ImportEnd::Refused(stopping(refusal)))
            }
        }
    }

    // Obeys an import whose file is in the input; that of the command is left out.
    pub(crate) fn import_act<I: Input>(
        &mut self,
        command: &Command,
        input: &mut I,
    ) -> Result<Reply, ImportEnd>
        ensures lasts { EndStays C.Database I.Input self.old self.new input.old input.new result }
        ensures taken { HasRead result (I.to_come input.old) (I.to_come input.new)
            (TakesText C.Database self.old self.new result command.now) }
        ensures caused { CausesImport C.Database self.old self.new command.now
            (λ faults. IfErr result (OfRefusal faults)) }
    {
        pid_moderation::laws::command_is_well_made(command); // proof only
        pid_tables::laws::texts_read_to_files(); // proof only
        match judge_import(&mut self.tables, self.alloc, command) {
            Early::Answered(answer) => answer_past(true, answer, input),
            Early::Open { mut facts, items } => {
                let end = self.carry_in(&mut facts, items, command, input);
                drop(facts);
                end
            }
        }
    }

    /// Obeys an import of these bytes, as `obey` obeys one that has them.
    pub fn import(
        &mut self,
        account: Account,
        key: Option<Key>,
        file: &[u8],
    ) -> Result<Reply, Refusal>
        ensures { IsImported C.Database self.old self.new (import_of account key) file.now result }
    {
        if !self.live {
            return Err(Refusal::Failed);
        }
        if FILE_BYTES < file.len() {
            return Err(Refusal::BadText);
        }
        let command = import_command(self.alloc, account, key);
        let mut input = SliceInput::new(file);
        let answer = without_body_fault(self.import_act(&command, &mut input));
        drop(command);
        answer
    }
}
