//! One transaction on the tables, which writes a whole change.
ghost use Rattle.std.specs.Prelude.{
  ◌≡◌,
  ◌+◌,
  true,
  false,
  length,
  IsSome,
  IsTrue,
  IfErr,
  OnOk,
};
ghost use Rattle.pid_ident.specs.PathTexts.{path_text};
ghost use Rattle.pid_moderation.specs.Items.{name_at};
ghost use Rattle.pid_moderation.specs.Views.{Views, submission_at};
ghost use Rattle.pid_moderation.specs.Changes.{
  edited,
  with_items,
  affected,
  changed,
  FitsEdit,
  FitsWrite,
  FitsViews,
};
ghost use Rattle.pid_tables.specs.Rows.Faults.{IsMemoryOrStore};
ghost use Rattle.pid_tables.specs.Rows.Shows.{Counts, Shows, counts_of};
ghost use Rattle.pid_tables.specs.Rows.Steps.Writes.{with_submission};
ghost use Rattle.pid_tables.specs.Steps.Fits.{CountsFit};
ghost use Rattle.pid_tables.specs.Steps.Applies.{recounted, turn_of};
ghost use Rattle.pid_tables.specs.Steps.Clauses.{WritesChange};
ghost use Rattle.pid_tables.specs.Steps.Clauses.{EndsCommit, PutsName};
ghost use Rattle.pid_tables.specs.Rows.Clauses.{AtRest, HasCleanDisk, LeavesEither, Survives, is_open, seen};
ghost use Rattle.pid_tables.specs.Rows.Steps.Clauses.{KeepsCommitted, Within, Written};
ghost use Rattle.pid_tables.specs.Rows.Steps.Clauses.{ChangesTo, LeadsTo};

use crate::database::{Batch, Database};
use crate::putting::{Put, put_text};
use crate::rows::TableFault;
use crate::rows::account::set_rank;
use crate::rows::item::{add_item, remove_item, rename_item};
use crate::rows::meta::{count_items, count_submissions, probe_transaction, set_revision};
use crate::rows::receipt::keep_reply;
use crate::rows::remark::add_remark;
use crate::rows::submission::{add_submission, decide};
use pid_ident::{Account, Path, PathText, Text};
use pid_moderation::{Change, Edit, Effect, Proposal, Receipt, State, Write};
use sqlite::Connection;
use std::alloc::Global;

fn submit<B: Batch>(
    batch: &mut B,
    alloc: Global,
    number: u32,
    author: &Account,
    path: Path,
    proposal: &Proposal,
    note: &Text,
) -> Result<(), TableFault>
    ensures { LeadsTo B.batch batch.old batch.new result
        (record {
          IsFor = λ c v. number ≡ length v.submits + 1;
          recount = λ c. record c { submissions = number };
          next = with_submission (record {
            author = author.now;
            path = path;
            proposal = proposal.now;
            note = note.now;
          });
        }) }
{
    add_submission(batch, alloc, number, author, path, proposal, note)?;
    count_submissions(batch, number)
}

fn edit_item<B: Batch>(
    batch: &mut B,
    path: &str,
    edit: &Edit,
    revision: u64,
) -> Result<(), TableFault>
    ensures { ChangesTo B.batch batch.old batch.new result
        (λ v. FitsEdit edit.now (name_at path.now v.items))
        (λ v. with_items revision (edited path.now edit.now v.items) v) }
{
    match edit {
        Edit::Add(name) => add_item(batch, path, name.as_str(), revision),
        Edit::Rename(name) => rename_item(batch, path, name.as_str(), revision),
        Edit::Remove => remove_item(batch, path),
    }
}

fn decision<B: Batch>(
    batch: &mut B,
    alloc: Global,
    number: u32,
    state: &State,
    write: &Option<Write>,
    revision: u64,
) -> Result<(), TableFault>
    ensures { LeadsTo B.batch batch.old batch.new result
        (record {
          IsFor = λ c v. IsSome (submission_at number v.submits) × FitsWrite write.now v.items;
          recount = recounted (Effect.Decided number state.now write.now);
          next = affected revision (Effect.Decided number state.now write.now);
        }) }
{
    decide(batch, number, state)?;
    match write {
        None => Ok(()),
        Some(write) => {
            let path = write.path.path_text(alloc)?;
            let edited = edit_item(batch, path.as_str(), &write.edit, revision);
            drop(path);
            edited?;
            count_items(batch, write.items)
        }
    }
}

fn write_effect<B: Batch>(
    batch: &mut B,
    alloc: Global,
    effect: &Effect,
    revision: u64,
) -> Result<(), TableFault>
    ensures { LeadsTo B.batch batch.old batch.new result
        (turn_of effect.now (affected revision effect.now)) }
{
    match effect {
        Effect::Nothing => probe_transaction(batch),
        Effect::Ranked { who, rank, is_new } => set_rank(batch, who, *rank, *is_new),
        Effect::Submitted {
            number,
            author,
            path,
            proposal,
            note,
        } => { submit(batch, alloc, *number, author, *path, proposal, note) }
        Effect::Remarked {
            number,
            place,
            author,
            text,
        } => { add_remark(batch, *number, *place, author, text) }
        Effect::Decided {
            number,
            state,
            write,
        } => { decision(batch, alloc, *number, state, write, revision) }
        Effect::Imported { items } => count_items(batch, *items),
    }
}

fn write_change<B: Batch>(batch: &mut B, alloc: Global, change: &Change) -> Result<(), TableFault>
    ensures { WritesChange B.batch batch.old batch.new result change.now }
{
    write_effect(batch, alloc, &change.effect, change.revision)?;
    set_revision(batch, change.revision)?;
    match &change.receipt {
        None => Ok(()),
        Some(receipt) => keep_reply(batch, &receipt.account, &receipt.key, receipt.reply),
    }
}

/// Sets the name at a path within the transaction, and answers what it was to it. If the name is
/// not the one that is there, the path gets the number of the change, `revision`. The count of
/// items and the revision follow with the change.
pub fn put<B: Batch>(
    batch: &mut B,
    alloc: Global,
    path: &Path,
    name: &str,
    revision: u64,
) -> Result<Put, TableFault>
    ensures same_reference { B.batch.reference batch.new ≡ B.batch.reference batch.old }
    ensures survives { Survives B.batch.state batch.old batch.new (λ _. ⊥) }
    ensures puts { PutsName B.batch.state batch.old batch.new result revision
        (path_text path.now, name.now) }
{
    let path = path.path_text(alloc)?;
    put_text(batch, path.as_str(), name, revision)
}

/// Writes a whole change, with its receipt and its revision.
///
/// On tables that show views to which the numbers of the change fit, it leaves tables that show the
/// changed views. The items of a file are put one by one before. After a fault the transaction is
/// given up: roll it back.
pub fn apply<B: Batch>(batch: &mut B, alloc: Global, change: &Change) -> Result<(), TableFault>
    ensures same_reference { B.batch.reference batch.new ≡ B.batch.reference batch.old }
    ensures survives { Survives B.batch.state batch.old batch.new (λ _. ⊥) }
    ensures holds { (c : Counts) (v w : Views) → Within B.batch.state batch.old c v w
        → KeepsCommitted B.batch.state batch.new v }
    ensures applied { (c : Counts) (v w : Views) → Within B.batch.state batch.old c v w
        → CountsFit change.now.effect c w → FitsViews change.now w
        → OnOk result (Written B.batch.state batch.new (counts_of (changed change.now w)) v
        (changed change.now w)) }
    ensures only_store { HasCleanDisk B.batch.state batch.new
        → IsTrue (is_open B.batch.state batch.old) → (c : Counts) (v w : Views)
        → Within B.batch.state batch.old c v w
        → CountsFit change.now.effect c w → FitsViews change.now w → IfErr result IsMemoryOrStore }
{
    write_change(batch, alloc, change)
}
