//! An import whose file comes as an input: it is read whole, since its line has all of it.
ghost use Rattle.std.specs.Prelude.{
  ◌≡◌,
  ◌≤◌,
  ◌++◌,
  false,
  ℕ,
  List,
  Err,
  IfOk,
  IfSome,
  IsSome,
  IsSomeAnd,
  length,
};
ghost use Rattle.std.specs.Io.KnownBytes.{Consumes};
ghost use Rattle.pid_file.specs.WholeInputs.{SkipsInput};
ghost use Rattle.pid_service_laws.specs.CallLaws.{StaysClean};
ghost use Rattle.pid_moderation.specs.BeforeFile.{import_of};
ghost use Rattle.pid_moderation.specs.Files.{file_reading};
ghost use Rattle.pid_journal.specs.Pairs.{
  ObeysAnywhere,
  pair_is_live,
  pair_showing,
};
ghost use Rattle.pid_journal.specs.Steps.Parts.{RefusesNothing};

use crate::file::JournalFile;
use crate::journaled::Journaled;
use crate::obeying::is_answering;
use pid_file::{BUFFER, SkipEnd, next_piece};
use pid_ident::{Account, Input, Key};
use pid_moderation::{Act, Command, FILE_BYTES, File, Refusal, Reply};
use pid_service_laws::RegistryQueries;
use std::alloc::Global;

// More of a file, unless memory ran out before or does now.
fn longer(kept: Option<Vec<u8>>, piece: &[u8]) -> Option<Vec<u8>>
    ensures { IfSome result (λ bytes. IsSomeAnd kept
        (λ before. bytes.items ≡ before.items ++ piece.now)) }
{
    let mut bytes = kept?;
    match bytes.extend_from_slice(piece) {
        Ok(()) => Some(bytes),
        Err(_) => None,
    }
}

/// The bytes of a file that comes as an input; none if memory ran out. The input is read to its end
/// all the same, or until too many bytes came: then no more is read.
pub fn read_bytes<I: Input>(alloc: Global, input: &mut I) -> Result<Option<Vec<u8>>, SkipEnd>
    ensures read { (text : List ℕ) × Consumes (I.to_come input.old) (I.to_come input.new) text
        × SkipsInput FILE_BYTES result (I.to_come input.new) text
        × IfOk result (λ kept. IfSome kept (λ bytes. bytes.items ≡ text)) }
    ensures fault { result ≡ Err SkipEnd.ReadFault → IsSome (I.read_fault input.new) }
    ensures fault_first { IsSome (I.read_fault input.new) → result ≡ Err SkipEnd.ReadFault }
    ensures goes { I.goes input.old input.new }
{
    let mut buffer = [0u8; BUFFER];
    let mut room = FILE_BYTES;
    let mut kept = Some(Vec::new(alloc));
    while let Some(piece) = next_piece(input, room, &mut buffer)? {
        room -= piece.len();
        kept = longer(kept, piece);
    }
    Ok(kept)
}

impl<R: RegistryQueries, J: JournalFile> Journaled<R, J> {
    /// The refusal, or that the registry has failed.
    pub(crate) fn unless_failed(&mut self, refusal: Refusal) -> Refusal
        ensures honest { StaysClean (pair_showing R.RegistryCalls J.JournalFile) self.old self.new }
        ensures told { RefusesNothing R.RegistryCalls J.JournalFile self.old self.new refusal
            result }
        ensures failed { pair_is_live R.RegistryCalls J.JournalFile self.old ≡ false
            → (result ≡ Refusal.Failed) × (self.new ≡ self.old) }
    {
        if self.failed {
            return Refusal::Failed;
        }
        if is_answering(&mut self.registry) {
            refusal
        } else {
            Refusal::Failed
        }
    }

    /// Obeys an import of bytes.
    pub(crate) fn import_bytes(
        &mut self,
        account: Account,
        key: Option<Key>,
        bytes: Vec<u8>,
    ) -> Result<Reply, Refusal>
        ensures honest { StaysClean (pair_showing R.RegistryCalls J.JournalFile) self.old self.new }
        ensures obeyed { ObeysAnywhere R.RegistryCalls J.JournalFile self.old
            (import_of account key (file_reading bytes.items)) result self.new }
        ensures failed { pair_is_live R.RegistryCalls J.JournalFile self.old ≡ false
            → (result ≡ Err Refusal.Failed) × (self.new ≡ self.old) }
    {
        let file = File::new(bytes);
        let act = Act::Import { file };
        Journaled::obey(self, Command { account, key, act })
    }
}
