//! The table of submissions, each as it stands.
ghost use Rattle.std.specs.Prelude.{
  ◌≡◌,
  ◌+◌,
  length,
  [],
  IfOk,
  IfErr,
  IsSome,
  option_map,
};
ghost use Rattle.pid_ident.specs.PathTexts.{path_text};
ghost use Rattle.pid_moderation.specs.Views.{submission_at};
ghost use Rattle.pid_tables.specs.Rows.TableRows.{form_of, name_of, state_number};
ghost use Rattle.pid_moderation.specs.Submissions.{decider_of, reason_of, standing_in, standing_of};
ghost use Rattle.pid_tables.specs.Rows.Steps.Standings.{ReadsTo};
ghost use Rattle.pid_tables.specs.Rows.Steps.Unread.{IsDamagedRow, ReadsAsStanding};
ghost use Rattle.pid_tables.specs.Rows.Steps.Writes.{with_submission, with_state};
ghost use Rattle.pid_tables.specs.Rows.Clauses.{Reads};
ghost use Rattle.pid_tables.specs.Rows.Steps.Clauses.{ChangesTo};

use crate::database::{Batch, Database};
use crate::rows::fault::TableFault;
use crate::rows::run::read_rows;
use crate::rows::value::{account_at, path_at, proposal_at, state_at, words_at};
use crate::tables::Tables;
use pid_ident::{Account, Path, PathText, Text};
use pid_moderation::{Proposal, State, Submission};
use sqlite::Row;
use sqlite::types::ToSql;
use std::alloc::Global;

// The form of a proposal and the name that it proposes.
fn form_and_name(proposal: &Proposal) -> (u32, &str)
    ensures form { result.0 ≡ form_of proposal.now }
    ensures name { result.1.now ≡ name_of proposal.now }
{
    match proposal {
        Proposal::Name(name) => (0, name.as_str()),
        Proposal::Removal => (1, ""),
    }
}

/// Adds a pending submission after the last one. `number` is one more than the submissions are so
/// far: they count from 1. A number that is taken, or an author that is not there, is refused with
/// `Store`.
pub fn add_submission<'x, B: Batch>(
    tx: &mut B,
    alloc: Global,
    number: u32,
    author: &'x Account,
    path: Path,
    proposal: &'x Proposal,
    note: &'x Text,
) -> Result<(), TableFault>
    ensures { ChangesTo B.batch tx.old tx.new result
        (λ v. number ≡ length v.submits + 1)
        (with_submission (record {
          author = author.now;
          path = path;
          proposal = proposal.now;
          note = note.now;
        })) }
{
    let text = path.path_text(alloc)?;
    let number = number.to_sql();
    let author = author.as_str().to_sql();
    let path = text.as_str().to_sql();
    let (form, name) = form_and_name(proposal);
    let form = form.to_sql();
    let name = name.to_sql();
    let note = note.as_str().to_sql();
    tx.write_one(
        "INSERT INTO submission (num, author, path, form, name, note, state, decider, reason) \
            VALUES (?1, ?2, ?3, ?4, ?5, ?6, 0, '', '')",
        &[number, author, path, form, name, note],
    )
}

// The number of a state, who decided and for what reason.
fn state_columns(state: &State) -> (u32, &str, &str)
    ensures number { result.0 ≡ state_number state.now }
    ensures decider { result.1.now ≡ decider_of [] state.now }
    ensures reason { result.2.now ≡ reason_of state.now }
{
    match state {
        State::Pending => (0, "", ""),
        State::Approved { decider } => (1, decider.as_str(), ""),
        State::Rejected { decider, reason } => (2, decider.as_str(), reason.as_str()),
        State::Withdrawn => (3, "", ""),
    }
}

/// Sets the state of the submission with a number, whatever its state is. If there is no such
/// submission, it writes nothing and answers `Ok`.
pub fn decide<B: Batch>(tx: &mut B, number: u32, state: &State) -> Result<(), TableFault>
    ensures { ChangesTo B.batch tx.old tx.new result
        (λ v. IsSome (submission_at number v.submits))
        (with_state number state.now) }
{
    if let State::Withdrawn = state {
        return tx.write_one(
            "UPDATE submission SET state = 3, decider = author, reason = '' WHERE num = ?1",
            &[number.to_sql()],
        );
    }
    let number = number.to_sql();
    let (told, decider, reason) = state_columns(state);
    let told = told.to_sql();
    let decider = decider.to_sql();
    let reason = reason.to_sql();
    tx.write_one(
        "UPDATE submission SET state = ?2, decider = ?3, reason = ?4 WHERE num = ?1",
        &[number, told, decider, reason],
    )
}

/// The submission of a row that has its author, path, form, name, note, state, decider and reason
/// in the first eight columns; further columns are not looked at. If a column is missing or
/// breaks its rule, the row is `Damaged`.
pub fn submission_of(row: &Row, alloc: Global) -> Result<Submission, TableFault>
    ensures read { IfOk result (ReadsTo row.now) }
    ensures unread { IfErr result (IsDamagedRow (ReadsAsStanding row.now)) }
{
    let author = account_at(row, alloc, 0)?;
    let path = path_at(row, 1)?;
    let proposal = proposal_at(row, alloc, 2, 3)?;
    let note = words_at(row, alloc, 4)?;
    let state = state_at(row, alloc, &author)?;
    Ok(Submission {
        author,
        path,
        proposal,
        note,
        state,
    })
}

/// The submission with a number, as it stands, or none if there is none. A row that is no
/// submission's is `Damaged`.
pub fn standing<C: Database + Drop>(
    tables: &mut Tables<C>,
    alloc: Global,
    number: u32,
) -> Result<Option<Submission>, TableFault>
    ensures { Reads C.state tables.old.conn tables.new.conn result
        (λ v s. option_map standing_of s ≡ standing_in v number) }
{
    pid_ident::laws::texts_have_one_path(); // proof only
    let number = number.to_sql();
    let rows = read_rows(
        tables,
        "SELECT author, path, form, name, note, state, decider, reason FROM submission \
            WHERE num = ?1",
        &[number],
    )?;
    match rows.first() {
        Some(row) => Ok(Some(submission_of(row, alloc)?)),
        None => Ok(None),
    }
}
